//! From what was asked and its files to what is written and the status.
ghost use Rattle.std.specs.Prelude.{◌≡◌, ◌⊎◌, ◌∷◌, Bool, true, None, IfErr, OnOk};
ghost use Rattle.result_files.specs.Files.{Files};
ghost use Rattle.program_edge.specs.Answering.{IsAnswered, IsDelivered, IsDelivery, IsFiled, IsFixed, IsGiven, IsNotDone, IsRead, IsReleaseServed, IsServed, IsUnfiled, is_whole, place_of, said_at};
ghost use Rattle.program_edge.specs.Beside.{is_played};
ghost use Rattle.program_edge.specs.Several.{IsEach};
ghost use Rattle.program_edge.specs.Streams.{IsToldAlone};
ghost use Rattle.program_edge.specs.Telling.{told_as, unread_fault};

use crate::each::answer_each;
use crate::fault::Fault;
use crate::named_files::NamedFiles;
use crate::reader::{Reader, hint_unkept, is_played, told_beside};
use crate::refusal::is_refusal;
use crate::releases::{Made, report_with_releases};
use crate::reports::report_heard;
use crate::streams::{say, write_whole};
use crate::texts::{MOST_PROGRAM, NamedTexts, read_texts};
use crate::told::{Answered, tell};
use crate::unread::Unread;
use command_line::request::Request;
use explain_report::repairing::repair;
use jobs::job::{CertificateSource, Job, Texts};
use report_texts::report::JobReport;
use result_files::folder::Folder;
use result_files::replacing::replace;
use std::alloc::{AllocError, Global};
use std::io::Write;
use std::sync::Wait;
use std::thread::Threads;
use verdict_report::fault::ServeFault;
use verdict_report::serve::serve;

/// Does the job that was asked for, with the texts of its files: its report goes to `output`, or to the file of `folder`
/// that was asked for, and the status is the report's. A text that is refused gives no result, and so changes no file.
/// `check` and `run` make threads. The first fault ends it, and is reported.
///
/// Some jobs also write to `errors`. Where it is a terminal, a report that refuses a text, or on a run that trapped or is
/// unlisted, gets one line there. There, or where it is asked for, goes what `annotate` leaves to mend by hand; and where
/// it is asked for, a line for each finished run of `curve`. With `explain --fix` a file of `folder` takes the text with
/// fixes, and a line says how many there are.
pub fn answer_reader<F: NamedFiles, D: Folder, O: Write, E: Write, R: Threads + Wait + Sync>(
    rt: &R,
    alloc: Global,
    asked: Result<Request, Fault>,
    files: &F,
    folder: &mut D,
    output: &mut O,
    errors: &mut E,
    is_terminal: bool,
) -> Answered
    ensures { IsAnswered D.is_watched is_terminal (F.known files.now) asked result
        record { output = O.contents output.old; errors = E.contents errors.old; files = D.known folder.old }
        record { output = O.contents output.new; errors = E.contents errors.new; files = D.known folder.new } }
{
    match asked {
        Ok(request) if request.further.as_slice().is_empty() => answer_request(
            rt,
            alloc,
            request,
            files,
            folder,
            output,
            errors,
            is_terminal,
        ),
        Ok(request) => answer_several(rt, alloc, request, files, output, errors, is_terminal),
        Err(fault) => tell(&told_as(is_terminal, fault), output, errors),
    }
}

// The fault that is told: a terminal hears which values there are.
fn told_as(is_terminal: bool, fault: Fault) -> Fault
    ensures { result ≡ told_as is_terminal fault }
{
    if !is_terminal {
        return fault;
    }
    match fault {
        Fault::Predict => Fault::PredictValues,
        Fault::Emit => Fault::EmitValues,
        other => other,
    }
}

// Does a job with its files.
fn answer_request<F: NamedFiles, D: Folder, O: Write, E: Write, R: Threads + Wait + Sync>(
    rt: &R,
    alloc: Global,
    request: Request,
    files: &F,
    folder: &mut D,
    output: &mut O,
    errors: &mut E,
    is_terminal: bool,
) -> Answered
    ensures { IsRead D.is_watched is_terminal (F.known files.now) request result
        record { output = O.contents output.old; errors = E.contents errors.old; files = D.known folder.old }
        record { output = O.contents output.new; errors = E.contents errors.new; files = D.known folder.new } }
{
    let Request {
        job,
        paths,
        output: place,
        fixes,
        releases,
        report: wants_rest,
        progress,
        ..
    } = request;
    match read_texts(rt, alloc, files, &job, paths) {
        Ok(NamedTexts { name, texts }) => {
            let reader = Reader {
                is_terminal,
                wants_rest,
                name,
            };
            match fixes {
                Some(path) => fix(
                    progress, rt, alloc, &job, &texts, path, &reader, folder, output, errors,
                ),
                None if releases => release(
                    rt, alloc, &job, &texts, place, &reader, folder, output, errors,
                ),
                None => deliver(
                    progress, rt, alloc, &job, &texts, place, &reader, folder, output, errors,
                ),
            }
        }
        Err(unread) => tell(&fault_of_file(&job, unread), output, errors),
    }
}

// Does a job with its texts, and puts the releases that pay into the text that it writes.
fn release<D: Folder, O: Write, E: Write, R: Threads + Wait + Sync>(
    rt: &R,
    alloc: Global,
    job: &Job,
    texts: &Texts,
    place: Option<String>,
    reader: &Reader,
    folder: &mut D,
    output: &mut O,
    errors: &mut E,
) -> Answered
    ensures { IsReleaseServed D.is_watched reader.now place job.now texts.now result
        record { output = O.contents output.old; errors = E.contents errors.old; files = D.known folder.old }
        record { output = O.contents output.new; errors = E.contents errors.new; files = D.known folder.new } }
{
    match report_with_releases(rt, alloc, job, texts, reader) {
        Ok(Made { report, line }) => give(
            alloc, job, texts, &report, line, place, reader, folder, output, errors,
        ),
        Err(lack) => tell(&Fault::Serve(lack), output, errors),
    }
}

// Does the job of a request for each of its programs, if it has several.
fn answer_several<F: NamedFiles, O: Write, E: Write, R: Threads + Wait + Sync>(
    rt: &R,
    alloc: Global,
    request: Request,
    files: &F,
    output: &mut O,
    errors: &mut E,
    is_terminal: bool,
) -> Answered
    ensures { (known : Files) → IsEach is_terminal (F.known files.now) request.job (request.paths.program ∷ request.further.items) result
        record { output = O.contents output.old; errors = E.contents errors.old; files = known }
        record { output = O.contents output.new; errors = E.contents errors.new; files = known } }
{
    let Request {
        job,
        paths,
        further,
        ..
    } = request;
    let mut names = further;
    match names.insert(0, paths.program) {
        Ok(()) => {
            let names = names.as_slice();
            answer_each(rt, alloc, &job, names, files, output, errors, is_terminal)
        }
        Err(_) => tell(&Fault::Serve(ServeFault::OutOfMemory), output, errors),
    }
}

// The fault that is reported of a file that gives no text: `explain` and `check --least` say why.
fn fault_of_file(job: &Job, unread: Unread) -> Fault
    ensures { result ≡ unread_fault job.now unread }
{
    match job {
        Job::Explain { name, .. } if unread.path.as_str() == name.as_str() => {
            Fault::NoProgram(unread)
        }
        Job::Explain { .. } => Fault::Explained(unread),
        Job::Check {
            certificate: CertificateSource::Least,
            ..
        } => Fault::NoProgram(unread),
        _ => Fault::File(unread.path),
    }
}

// Explains a program, and a file takes its text with fixes. A text that was cut when it was read is explained alone, and so
// would be another job's.
fn fix<D: Folder, O: Write, E: Write, R: Threads + Wait + Sync>(
    progress: bool,
    rt: &R,
    alloc: Global,
    job: &Job,
    texts: &Texts,
    path: String,
    reader: &Reader,
    folder: &mut D,
    output: &mut O,
    errors: &mut E,
) -> Answered
    ensures { IsFixed (is_whole texts.now) progress D.is_watched reader.now path job.now texts.now result
        record { output = O.contents output.old; errors = E.contents errors.old; files = D.known folder.old }
        record { output = O.contents output.new; errors = E.contents errors.new; files = D.known folder.new } }
{
    if texts.program.len() as u64 > MOST_PROGRAM {
        return deliver(
            progress, rt, alloc, job, texts, None, reader, folder, output, errors,
        );
    }
    match job {
        Job::Explain {
            certificate,
            script,
            warnings,
            colors,
            ..
        } => {
            let name = reader.name.as_str();
            match repair(alloc, name, certificate, script, *warnings, *colors, texts) {
                Ok(repaired) => hand_over(
                    alloc,
                    Some(path),
                    repaired.text.as_slice(),
                    repaired.said.as_slice(),
                    repaired.line.as_slice(),
                    repaired.status,
                    folder,
                    output,
                    errors,
                ),
                Err(AllocError) => tell(&Fault::Serve(ServeFault::OutOfMemory), output, errors),
            }
        }
        _ => deliver(
            progress, rt, alloc, job, texts, None, reader, folder, output, errors,
        ),
    }
}

// Does a job with its texts; its report goes to a file, if there is one. What is told of events goes to standard output
// while they are played; any other report is made whole first, and if `progress` says so, `errors` hears on the way how
// far it is.
fn deliver<D: Folder, O: Write, E: Write, R: Threads + Wait + Sync>(
    progress: bool,
    rt: &R,
    alloc: Global,
    job: &Job,
    texts: &Texts,
    place: Option<String>,
    reader: &Reader,
    folder: &mut D,
    output: &mut O,
    errors: &mut E,
) -> Answered
    ensures { IsServed progress D.is_watched reader.now place job.now texts.now result
        record { output = O.contents output.old; errors = E.contents errors.old; files = D.known folder.old }
        record { output = O.contents output.new; errors = E.contents errors.new; files = D.known folder.new } }
{
    match place {
        None if is_played(job) => stream(rt, alloc, job, texts, reader, output, errors),
        place => {
            let name = reader.name.as_str();
            match report_heard(progress, rt, alloc, job, texts, name, errors) {
                Ok(report) => {
                    let none = Vec::new(alloc);
                    give(
                        alloc, job, texts, &report, none, place, reader, folder, output, errors,
                    )
                }
                Err(lack) => tell(&Fault::Serve(lack), output, errors),
            }
        }
    }
}

// Does a job whose report is written while it is made.
fn stream<O: Write, E: Write, R: Threads + Wait + Sync>(
    rt: &R,
    alloc: Global,
    job: &Job,
    texts: &Texts,
    reader: &Reader,
    output: &mut O,
    errors: &mut E,
) -> Answered
    requires { is_played job.now ≡ true }
    ensures { (watched : Bool) (known : Files) → IsDelivered watched reader.now None job.now texts.now result
        record { output = O.contents output.old; errors = E.contents errors.old; files = known }
        record { output = O.contents output.new; errors = E.contents errors.new; files = known }
        ⊎ IsNotDone job.now texts.now result
        record { output = O.contents output.old; errors = E.contents errors.old; files = known }
        record { output = O.contents output.new; errors = E.contents errors.new; files = known } }
{
    match serve(rt, alloc, job, texts, output) {
        Ok(status) => {
            let hint = hint_unkept(rt, alloc, job, texts, reader, status);
            Answered {
                status,
                is_told: say(hint.as_slice(), errors),
            }
        }
        Err(fault) => tell(&Fault::Serve(fault), output, errors),
    }
}

// Delivers a report; beside it a line is told, and what there is to tell of the report. That of a refusal goes to no file.
fn give<D: Folder, O: Write, E: Write>(
    alloc: Global,
    job: &Job,
    texts: &Texts,
    report: &JobReport,
    line: Vec<u8>,
    place: Option<String>,
    reader: &Reader,
    folder: &mut D,
    output: &mut O,
    errors: &mut E,
) -> Answered
    ensures { IsGiven D.is_watched reader.now line.items place job.now texts.now.program.items report.now result
        record { output = O.contents output.old; errors = E.contents errors.old; files = D.known folder.old }
        record { output = O.contents output.new; errors = E.contents errors.new; files = D.known folder.new }
        ⊎ IsToldAlone (Fault.Serve ServeFault.OutOfMemory) result
        record { output = O.contents output.old; errors = E.contents errors.old; files = D.known folder.old }
        record { output = O.contents output.new; errors = E.contents errors.new; files = D.known folder.new } }
{
    let (bytes, status) = (report.bytes(), report.status());
    match told_beside(alloc, job, texts, reader, report, line) {
        Ok(beside) => {
            let place = place_of(place, is_refusal(job, status, bytes));
            let said = said_at(&place, bytes);
            let beside = beside.as_slice();
            hand_over(
                alloc, place, bytes, said, beside, status, folder, output, errors,
            )
        }
        Err(AllocError) => tell(&Fault::Serve(ServeFault::OutOfMemory), output, errors),
    }
}

// The file that takes a report: none takes a refusal.
fn place_of(place: Option<String>, is_refusal: bool) -> Option<String>
    ensures { result ≡ place_of place is_refusal }
{
    match place {
        Some(path) if !is_refusal => Some(path),
        _ => None,
    }
}

// What standard output gets of a report that this file takes.
fn said_at<'a>(place: &Option<String>, bytes: &'a [u8]) -> &'a [u8]
    ensures { result.now ≡ said_at place.now bytes.now }
{
    match place {
        Some(_) => &[],
        None => bytes,
    }
}

// A file takes `kept`, if there is one; then standard output takes `said`, and standard error `beside`.
fn hand_over<D: Folder, O: Write, E: Write>(
    alloc: Global,
    place: Option<String>,
    kept: &[u8],
    said: &[u8],
    beside: &[u8],
    status: u8,
    folder: &mut D,
    output: &mut O,
    errors: &mut E,
) -> Answered
    ensures { IsDelivery D.is_watched place kept.now said.now beside.now status result
        record { output = O.contents output.old; errors = E.contents errors.old; files = D.known folder.old }
        record { output = O.contents output.new; errors = E.contents errors.new; files = D.known folder.new } }
{
    if let Err(fault) = file(alloc, place, kept, folder) {
        return tell(&fault, output, errors);
    }
    if write_whole(said, output).is_err() {
        return tell(&Fault::Serve(ServeFault::Write), output, errors);
    }
    Answered {
        is_told: say(beside, errors),
        status,
    }
}

// A file takes these bytes, if there is one.
fn file<D: Folder>(
    alloc: Global,
    place: Option<String>,
    bytes: &[u8],
    folder: &mut D,
) -> Result<(), Fault>
    ensures filed { OnOk result (IsFiled D.is_watched place bytes.now (D.known folder.old) (D.known folder.new)) }
    ensures unfiled { IfErr result (λ fault. IsUnfiled place fault (D.known folder.old) (D.known folder.new)) }
{
    let Some(path) = place else {
        return Ok(());
    };
    match replace(alloc, folder, path.as_str(), bytes) {
        Ok(()) => Ok(()),
        Err(reason) => Err(Fault::NotWritten(path, reason)),
    }
}
