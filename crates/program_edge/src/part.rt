//! The part of one of several programs on the two streams.
ghost use Rattle.std.specs.Prelude.{◌≡◌, [], None, Err, IfOk, OnErr};
ghost use Rattle.explain_report.specs.Explained.{IsExplainReport};
ghost use Rattle.report_texts.specs.OutputTexts.{Report};
ghost use Rattle.std.specs.String.{string_bytes};
ghost use Rattle.verdict_report.specs.JobTexts.{IsReportOf};
ghost use Rattle.program_edge.specs.Several.{IsAmongOthers, IsJudged, IsPartOf, IsPartOfText, IsPartWith, is_certificate, seen, unjudged};
ghost use Rattle.program_edge.specs.Summaries.{judged_by};

use crate::hint::{explains, hint_for};
use crate::named_files::NamedFiles;
use crate::reports::report_of;
use crate::summary::{ProgramVerdict, judged_by};
use crate::texts::{MOST_PROGRAM, read_file};
use crate::unread::UnreadReason;
use explain_report::logging::{LoggedProgram, add_program};
use jobs::job::{CheckFormat, Format, Job, Texts, Warnings};
use shown_names::name::shown_name;
use shown_names::shell::shell_word;
use std::alloc::{AllocError, Global};
use std::marker::Sync;
use std::sync::Wait;
use std::thread::Threads;
use text_pieces::text::Text;
use verdict_report::fault::ServeFault;

/// What the two streams get for a program, and what it counts as.
#[derive(Drop)]
pub(crate) struct Part {
    /// What standard output gets.
    pub output: Vec<u8>,
    /// What standard error gets.
    pub errors: Vec<u8>,
    /// What it counts as.
    pub judged: ProgramVerdict,
}

/// The part of the program of this name, or that memory ran out.
pub(crate) fn part_of<F: NamedFiles, R: Threads + Wait + Sync>(
    rt: &R,
    alloc: Global,
    job: &Job,
    name: &str,
    files: &F,
    is_terminal: bool,
    log: &mut Vec<LoggedProgram>,
) -> Result<Part, ServeFault>
    ensures part { IfOk result (λ part. IsPartOf is_terminal (F.known files.now) job.now name.now (seen part)) }
    ensures memory { OnErr result (result ≡ Err ServeFault.OutOfMemory) }
{
    match read_file(alloc, files, name, MOST_PROGRAM) {
        Ok(text) => part_of_text(rt, alloc, job, name, text, is_terminal, log),
        Err(UnreadReason::OutOfMemory) => Err(ServeFault::OutOfMemory),
        Err(reason) => Ok(unjudged(alloc, unread_line(alloc, name, reason)?)),
    }
}

// The part of a program with this text.
fn part_of_text<R: Threads + Wait + Sync>(
    rt: &R,
    alloc: Global,
    job: &Job,
    name: &str,
    text: Vec<u8>,
    is_terminal: bool,
    log: &mut Vec<LoggedProgram>,
) -> Result<Part, ServeFault>
    ensures part { IfOk result (λ part. IsPartOfText (is_certificate job.now text.items) is_terminal job.now name.now text.items (seen part)) }
    ensures memory { OnErr result (result ≡ Err ServeFault.OutOfMemory) }
{
    if is_certificate(job, text.as_slice()) {
        return Ok(unjudged(alloc, certificate_line(alloc, name)?));
    }
    let texts = Texts {
        name: String::from_str(alloc, name)?,
        program: text,
        certificate: Text::new(alloc, Vec::new(alloc)),
        script: Vec::new(alloc),
    };
    judged_part(rt, alloc, job, name, &texts, is_terminal, log)
}

// Whether the job takes this text for a certificate.
fn is_certificate(job: &Job, text: &[u8]) -> bool
    ensures { result ≡ is_certificate job.now text.now }
{
    explains(job) && text.starts_with(b"cert ")
}

// The part of a program that has its report. The job of `explain` is given the program's own name.
fn judged_part<R: Threads + Wait + Sync>(
    rt: &R,
    alloc: Global,
    job: &Job,
    name: &str,
    texts: &Texts,
    is_terminal: bool,
    log: &mut Vec<LoggedProgram>,
) -> Result<Part, ServeFault>
    ensures part { IfOk result (λ part. (texts.now.certificate ≡ []) → (texts.now.script.items ≡ []) →
        IsJudged is_terminal job.now name.now texts.now.program.items (seen part)) }
    ensures memory { OnErr result (result ≡ Err ServeFault.OutOfMemory) }
{
    match job {
        Job::Explain {
            warnings,
            format,
            colors,
            ..
        } => {
            let own = Job::Explain {
                name: String::from_str(alloc, name)?,
                certificate: None,
                script: None,
                warnings: *warnings,
                format: *format,
                colors: *colors,
            };
            match format {
                Format::Sarif => {
                    let status = add_program(alloc, log, *warnings, name, texts)?;
                    Ok(Part {
                        output: Vec::new(alloc),
                        errors: Vec::new(alloc),
                        judged: judged_by(status),
                    })
                }
                Format::Text | Format::Json => {
                    reported_part(rt, alloc, &own, name, texts, is_terminal)
                }
            }
        }
        _ => reported_part(rt, alloc, job, name, texts, is_terminal),
    }
}

// The part of a program with the report of this job.
fn reported_part<R: Threads + Wait + Sync>(
    rt: &R,
    alloc: Global,
    job: &Job,
    name: &str,
    texts: &Texts,
    is_terminal: bool,
) -> Result<Part, ServeFault>
    ensures part { IfOk result (λ part. (report : Report) × IsReportOf job.now texts.now report
        × IsPartWith is_terminal job.now report (seen part)) }
    ensures memory { OnErr result (result ≡ Err ServeFault.OutOfMemory) }
{
    let report = report_of(rt, alloc, job, texts)?;
    let program = texts.program.as_slice();
    let (bytes, status) = (report.bytes(), report.status());
    Ok(Part {
        output: among_others(alloc, job, name, bytes)?,
        errors: hint_for(alloc, is_terminal, job, name, program, status, bytes)?,
        judged: judged_by(status),
    })
}

// How a report is told among others: the lines of `check` get their file's name, and objects have it.
fn among_others(alloc: Global, job: &Job, name: &str, text: &[u8]) -> Result<Vec<u8>, AllocError>
    ensures { IfOk result (λ said. IsAmongOthers job.now text.now said.items) }
{
    match job {
        Job::Check {
            format: CheckFormat::Text,
            ..
        } => named_lines(alloc, name, text),
        Job::Explain {
            format: Format::Sarif,
            ..
        } => Ok(Vec::new(alloc)),
        _ => text.to_vec(alloc),
    }
}

// The lines of a text, each with the file's name before it.
fn named_lines(alloc: Global, name: &str, text: &[u8]) -> Result<Vec<u8>, AllocError> {
    let shown = shown_name(alloc, name)?;
    let mut said = Vec::new(alloc);
    let mut starts = true;
    for byte in text {
        if starts {
            said.extend_from_slice(shown.as_str().as_bytes())?;
            said.extend_from_slice(b": ")?;
        }
        said.push(*byte)?;
        starts = *byte == b'\n';
    }
    Ok(said)
}

// The part of a program that is not judged, of which this is told.
fn unjudged(alloc: Global, line: String) -> Part
    ensures { seen result ≡ unjudged (string_bytes line) }
{
    Part {
        output: Vec::new(alloc),
        errors: line.into_bytes(),
        judged: ProgramVerdict::Unjudged,
    }
}

// That a file gives no program, and why: of a folder, how its files are named.
fn unread_line(alloc: Global, name: &str, reason: UnreadReason) -> Result<String, AllocError> {
    let shown = shown_name(alloc, name)?;
    match reason {
        UnreadReason::IsDirectory => format!(in alloc;
            "multiscalar: file {shown}: is a directory; name its files, as in {shown}/*.s\n"
        ),
        _ => {
            let why = reason.words();
            format!(in alloc; "multiscalar: file {shown}: {why}\n")
        }
    }
}

// That a file is a certificate, and how it is explained.
fn certificate_line(alloc: Global, name: &str) -> Result<String, AllocError> {
    let shown = shown_name(alloc, name)?;
    let word = shell_word(alloc, name)?;
    format!(in alloc;
        "multiscalar: file {shown}: is a certificate; explain PROGRAM --certificate {word} explains it\n"
    )
}
