//! The job for several programs, one after another.
ghost use Rattle.std.specs.Prelude.{◌≡◌, ◌≤◌, IfErr, IfOk, OnOk};
ghost use Rattle.result_files.specs.Files.{Files};
ghost use Rattle.program_edge.specs.Several.{EndsAt, IsEach, IsLast, IsPartOf, Part as PartOf, Sums};
ghost use Rattle.program_edge.specs.Streams.{IsCut, IsWritten};
ghost use Rattle.program_edge.specs.Summaries.{all_of};

use crate::fault::Fault;
use crate::named_files::NamedFiles;
use crate::part::part_of;
use crate::streams::{say, write_whole};
use crate::summary::{
    ProgramTally, ProgramVerdict, count, empty_tally, summary_line, worst_status,
};
use crate::told::{Answered, tell};
use explain_report::logging::{LoggedProgram, log_of};
use jobs::job::{CheckFormat, Format, Job};
use std::alloc::{AllocError, Global};
use std::io::Write;
use std::sync::Wait;
use std::thread::Threads;
use verdict_report::fault::ServeFault;

/// Does a job for each of several programs, in the order of their names: standard output gets their reports, and last
/// a line that sums them up, or one log of all; the status is the worst. A file that gives no program is reported on
/// standard error, and the others have their turn. Want of memory, or a stream that fails, ends it, with status 2.
pub(crate) fn answer_each<F: NamedFiles, O: Write, E: Write, R: Threads + Wait + Sync>(
    rt: &R,
    alloc: Global,
    job: &Job,
    names: &[String],
    files: &F,
    output: &mut O,
    errors: &mut E,
    is_terminal: bool,
) -> Answered
    ensures { (known : Files) → IsEach is_terminal (F.known files.now) job.now names.now result
        record { output = O.contents output.old; errors = E.contents errors.old; files = known }
        record { output = O.contents output.new; errors = E.contents errors.new; files = known } }
{
    let mut tally = empty_tally();
    let mut log = Vec::new(alloc);
    for name in names {
        match answer_one(
            rt,
            alloc,
            job,
            name.as_str(),
            files,
            output,
            errors,
            is_terminal,
            &mut log,
        ) {
            Ok(judged) => tally = count(tally, judged),
            Err(ending) => return ending,
        }
    }
    sum_up(alloc, job, tally, log.as_slice(), output, errors)
}

// Does a job for one of several programs, or ends it all.
fn answer_one<F: NamedFiles, O: Write, E: Write, R: Threads + Wait + Sync>(
    rt: &R,
    alloc: Global,
    job: &Job,
    name: &str,
    files: &F,
    output: &mut O,
    errors: &mut E,
    is_terminal: bool,
    log: &mut Vec<LoggedProgram>,
) -> Result<ProgramVerdict, Answered>
    ensures one { IfOk result (λ judged. (part : PartOf) × IsPartOf is_terminal (F.known files.now) job.now name.now part × (part.judged ≡ judged)
        × ((known : Files) → IsWritten part.output part.errors
        record { output = O.contents output.old; errors = E.contents errors.old; files = known }
        record { output = O.contents output.new; errors = E.contents errors.new; files = known })) }
    ensures end { IfErr result (λ ending. (known : Files) → EndsAt is_terminal (F.known files.now) job.now name.now ending
        record { output = O.contents output.old; errors = E.contents errors.old; files = known }
        record { output = O.contents output.new; errors = E.contents errors.new; files = known }) }
{
    match part_of(rt, alloc, job, name, files, is_terminal, log) {
        Ok(part) => {
            let said = part.output.as_slice();
            let told = part.errors.as_slice();
            match write_both(said, told, output, errors) {
                Ok(()) => Ok(part.judged),
                Err(ending) => Err(ending),
            }
        }
        Err(lack) => Err(tell(&Fault::Serve(lack), output, errors)),
    }
}

// Writes what comes last of several programs.
fn sum_up<O: Write, E: Write>(
    alloc: Global,
    job: &Job,
    tally: ProgramTally,
    log: &[LoggedProgram],
    output: &mut O,
    errors: &mut E,
) -> Answered
    requires { all_of tally ≤ usize.MAX }
    ensures { (known : Files) → Sums job.now tally result
        record { output = O.contents output.old; errors = E.contents errors.old; files = known }
        record { output = O.contents output.new; errors = E.contents errors.new; files = known } }
{
    match last_of(alloc, job, tally, log) {
        Ok(last) => match write_both(last.as_slice(), &[], output, errors) {
            Ok(()) => Answered {
                status: worst_status(tally),
                is_told: true,
            },
            Err(ending) => ending,
        },
        Err(AllocError) => tell(&Fault::Serve(ServeFault::OutOfMemory), output, errors),
    }
}

// What comes last: after objects nothing, else a log of all, or a line that sums up.
fn last_of(
    alloc: Global,
    job: &Job,
    tally: ProgramTally,
    log: &[LoggedProgram],
) -> Result<Vec<u8>, AllocError>
    requires { all_of tally ≤ usize.MAX }
    ensures { IfOk result (λ last. IsLast job.now last.items) }
{
    match job {
        Job::Explain {
            format: Format::Sarif,
            ..
        } => log_of(alloc, log, worst_status(tally)),
        Job::Explain {
            format: Format::Json,
            ..
        }
        | Job::Check {
            format: CheckFormat::Json,
            ..
        } => Ok(Vec::new(alloc)),
        _ => Ok(summary_line(alloc, tally)?.into_bytes()),
    }
}

// Writes to both streams; or how it ends where one of them fails.
fn write_both<O: Write, E: Write>(
    said: &[u8],
    told: &[u8],
    output: &mut O,
    errors: &mut E,
) -> Result<(), Answered>
    ensures whole { OnOk result ((known : Files) → IsWritten said.now told.now
        record { output = O.contents output.old; errors = E.contents errors.old; files = known }
        record { output = O.contents output.new; errors = E.contents errors.new; files = known }) }
    ensures cut { IfErr result (λ ending. (known : Files) → IsCut said.now told.now ending
        record { output = O.contents output.old; errors = E.contents errors.old; files = known }
        record { output = O.contents output.new; errors = E.contents errors.new; files = known }) }
{
    if write_whole(said, output).is_err() {
        return Err(tell(&Fault::Serve(ServeFault::Write), output, errors));
    }
    if say(told, errors) {
        Ok(())
    } else {
        Err(Answered {
            status: 2,
            is_told: false,
        })
    }
}
