//! The text of `annotate` with the releases that pay.
ghost use Rattle.std.specs.Prelude.{◌≡◌, Err, IfOk, OnErr};
ghost use Rattle.program_edge.specs.Releases.{IsReportWith};

use crate::reader::Reader;
use crate::reports::report_of;
use jobs::job::{Job, Texts};
use release_proposals::releasing::{Released, with_releases};
use release_proposals::trial::TRIAL_UNITS;
use report_texts::report::JobReport;
use shown_names::name::shown_name;
use std::alloc::{AllocError, Global};
use std::sync::Wait;
use std::thread::Threads;
use verdict_report::fault::ServeFault;

/// A report with the releases that pay, and what is told of them.
#[derive(Drop)]
pub(crate) struct Made {
    pub(crate) report: JobReport,
    pub(crate) line: Vec<u8>,
}

/// What a job with its texts writes, with the releases that pay; that of a refusal as it is.
///
/// # Errors
///
/// `OutOfMemory` where memory was refused.
pub(crate) fn report_with_releases<R: Threads + Wait + Sync>(
    rt: &R,
    alloc: Global,
    job: &Job,
    texts: &Texts,
    reader: &Reader,
) -> Result<Made, ServeFault>
    ensures made { IfOk result (λ made. IsReportWith job.now texts.now made.report) }
    ensures memory { OnErr result (result ≡ Err ServeFault.OutOfMemory) }
{
    let report = report_of(rt, alloc, job, texts)?;
    let line = Vec::new(alloc);
    if report.status() != 0 {
        return Ok(Made { report, line });
    }
    let released = with_releases(alloc, report.bytes())?;
    let line = line_of(alloc, reader, &released)?.into_bytes();
    let report = JobReport::new(released.text, 0);
    Ok(Made { report, line })
}

// Whether releases were put in, and what for, where that is asked for.
fn line_of(alloc: Global, reader: &Reader, released: &Released) -> Result<String, AllocError> {
    let mut line = String::new(alloc);
    if !reader.wants_rest {
        return Ok(line);
    }
    let name = shown_name(alloc, reader.name.as_str())?;
    match released.steps {
        None => writeln!(line, "multiscalar: {name}: no release put in")?,
        Some((before, after)) if after < before => {
            writeln!(
                line,
                "multiscalar: {name}: releases put in: a run on {TRIAL_UNITS} units takes {after} steps, without them {before}"
            )?
        }
        Some((before, _)) => {
            writeln!(
                line,
                "multiscalar: {name}: no release put in: a run on {TRIAL_UNITS} units takes {before} steps"
            )?
        }
    }
    Ok(line)
}
