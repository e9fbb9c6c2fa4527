//! The texts of a job, from its files.
ghost use Rattle.std.specs.Prelude.{◌≡◌, ◌≤◌, List, ℕ, Result, Ok, Err, IfOk, MatchResult};
ghost use Rattle.std.specs.Result.{result_map_both};
ghost use Rattle.std.specs.String.{string_bytes};
ghost use Rattle.jobs.specs.Files.{has_certificate};
ghost use Rattle.program_edge.specs.FileTexts.{IsFound, AreTextsOf, last_part, program_name, text_of, most_program, most_file};
ghost use Rattle.program_edge.specs.declared.unread.UnreadReason.{UnreadReason};

use crate::asked::STANDARD_INPUT;
use crate::named_files::NamedFiles;
use crate::unread::{Unread, UnreadReason, reason_of_opening};
use annotated_asm::assembler::MOST_TEXT;
use jobs::job::{Job, Paths, Texts};
use std::alloc::{AllocError, Global};
use std::marker::Sync;
use std::thread::Threads;
use text_pieces::serial::fetch;
use text_pieces::shared::fetch_shared;
use text_pieces::text::Text;

/// The most bytes that a program text may have.
pub const MOST_PROGRAM: u64 = MOST_TEXT as u64;

/// The most bytes that any other file may have: 128 MiB.
pub const MOST_FILE: u64 = 134_217_728;

/// The texts of a job, with the name of its program's file.
#[derive(Drop)]
pub struct NamedTexts {
    /// The name, as the words have it.
    pub name: String,
    /// The texts.
    pub texts: Texts,
}

/// The texts of a job, from the files that its paths name. Of a program text that is too long only the bytes up to the
/// first one too many are read, so that the assembler refuses it.
///
/// # Errors
///
/// The first file, in the order program, certificate, script, that cannot be read or is too long, and why.
pub fn read_texts<F: NamedFiles, R: Threads + Sync>(
    rt: &R,
    alloc: Global,
    files: &F,
    job: &Job,
    paths: Paths,
) -> Result<NamedTexts, Unread>
    ensures texts { AreTextsOf (F.known files.now) job.now paths (result_map_both (λ read. read.texts) (λ unread. unread) result) }
    ensures name { IfOk result (λ read. read.name ≡ paths.program) }
{
    let Paths {
        program,
        certificate,
        script,
    } = paths;
    let (text, name) = match read_named(alloc, files, program.as_str()) {
        Ok(read) => read,
        Err(reason) => {
            return Err(Unread {
                path: program,
                reason,
            });
        }
    };
    let texts = Texts {
        name,
        program: text,
        certificate: read_certificate(rt, alloc, files, certificate, job)?,
        script: read_other(alloc, files, script, job.has_script())?,
    };
    Ok(NamedTexts {
        name: program,
        texts,
    })
}

// The program text in the file of this path, and the program's name; or why there is none.
fn read_named<F: NamedFiles>(
    alloc: Global,
    files: &F,
    path: &str,
) -> Result<(Vec<u8>, String), UnreadReason>
    ensures { (found : Result (List ℕ) UnreadReason) × IsFound (F.known files.now path.now) most_program found
        × MatchResult result (λ read. (found ≡ Ok read.0.items) × (string_bytes read.1 ≡ program_name path.now))
        (λ reason. found ≡ Err reason) }
{
    let text = read_file(alloc, files, path, MOST_PROGRAM)?;
    match String::from_str(alloc, program_name(path)) {
        Ok(name) => Ok((text, name)),
        Err(AllocError) => Err(UnreadReason::OutOfMemory),
    }
}

/// The name that pictures give the program in the file of this path: the last part of the path; empty for standard input.
pub fn program_name(path: &str) -> &str
    ensures { result.now ≡ program_name path.now }
{
    if path == STANDARD_INPUT {
        ""
    } else {
        last_part(path)
    }
}

// What follows the last slash of a path: all of it, where there is none.
fn last_part(path: &str) -> &str
    ensures { result.now ≡ last_part path.now }
{
    match path.rsplit_once('/') {
        Some((_, name)) => name,
        None => path,
    }
}

// The text of a file beside the program, empty where the job has none; or why there is none.
fn read_other<F: NamedFiles>(
    alloc: Global,
    files: &F,
    path: String,
    is_there: bool,
) -> Result<Vec<u8>, Unread>
    ensures { (found : Result (List ℕ) UnreadReason) × IsFound (F.known files.now (string_bytes path)) most_file found
        × MatchResult result (λ text. text_of is_there found ≡ Ok text.items)
        (λ unread. (text_of is_there found ≡ Err unread.reason) × (unread.path ≡ path)) }
{
    if !is_there {
        return Ok(Vec::new(alloc));
    }
    match read_file(alloc, files, path.as_str(), MOST_FILE) {
        Ok(text) if text.len() as u64 <= MOST_FILE => Ok(text),
        Ok(_) => Err(Unread {
            path,
            reason: UnreadReason::TooLong,
        }),
        Err(reason) => Err(Unread { path, reason }),
    }
}

// The certificate in pieces, fetched by as many threads as share the job, empty where the job has none; or
// why there is none.
fn read_certificate<F: NamedFiles, R: Threads + Sync>(
    rt: &R,
    alloc: Global,
    files: &F,
    path: String,
    job: &Job,
) -> Result<Text, Unread>
    ensures { (found : Result (List ℕ) UnreadReason) × IsFound (F.known files.now (string_bytes path)) most_file found
        × MatchResult result (λ text. text_of (has_certificate job.now) found ≡ Ok text)
        (λ unread. (text_of (has_certificate job.now) found ≡ Err unread.reason) × (unread.path ≡ path)) }
{
    if !job.has_certificate() {
        return Ok(Text::new(alloc, Vec::new(alloc)));
    }
    match read_pieces(rt, alloc, files, path.as_str(), fetchers(job)) {
        Ok(text) if text.is_within(MOST_FILE as usize) => Ok(text),
        Ok(_) => Err(Unread {
            path,
            reason: UnreadReason::TooLong,
        }),
        Err(reason) => Err(Unread { path, reason }),
    }
}

// How many threads fetch the certificate: those of `check`, and else one.
fn fetchers(job: &Job) -> u32 {
    match job {
        Job::Check { workers, .. } => workers.get(),
        _ => 1,
    }
}

// The file of this name in pieces, or its first `MOST_FILE + 1` bytes; or why it can't be read.
fn read_pieces<F: NamedFiles, R: Threads + Sync>(
    rt: &R,
    alloc: Global,
    files: &F,
    name: &str,
    workers: u32,
) -> Result<Text, UnreadReason>
    ensures { IsFound (F.known files.now name.now) most_file result }
{
    let mut opened = files
        .open(name)
        .map_err(|error| reason_of_opening(error.kind()))?;
    fetch_shared(rt, alloc, &mut opened, MOST_FILE, workers).map_err(|fault| files.why_unread(
        name, fault,
    ))
}

// The file of this name, or its first `most + 1` bytes; or why it can't be read.
pub(crate) fn read_file<F: NamedFiles>(
    alloc: Global,
    files: &F,
    name: &str,
    most: u64,
) -> Result<Vec<u8>, UnreadReason>
    requires { most ≤ 134217728 }
    ensures { IsFound (F.known files.now name.now) most (result_map_both (λ v. v.items) (λ reason. reason) result) }
{
    let mut file = files
        .open(name)
        .map_err(|error| reason_of_opening(error.kind()))?;
    fetch(alloc, &mut file, most).map_err(|fault| files.why_unread(name, fault))
}
