//! What a job writes.
ghost use Rattle.std.specs.Prelude.{◌≡◌, Err, IfOk, OnErr, false};
ghost use Rattle.verdict_report.specs.JobTexts.{IsReportOf};

use jobs::job::{Job, Texts};
use report_texts::report::JobReport;
use shown_names::name::shown_name;
use std::alloc::Global;
use std::io::{Write, sink};
use std::sync::Wait;
use std::thread::Threads;
use verdict_report::fault::ServeFault;
use verdict_report::serve::report_told;

/// What a job with its texts writes.
pub(crate) fn report_of<R: Threads + Wait + Sync>(
    rt: &R,
    alloc: Global,
    job: &Job,
    texts: &Texts,
) -> Result<JobReport, ServeFault>
    ensures report { IfOk result (IsReportOf job.now texts.now) }
    ensures memory { OnErr result (result ≡ Err ServeFault.OutOfMemory) }
{
    let told = report_told(rt, alloc, job, texts, "", &mut sink())?;
    Ok(told.report)
}

/// What a job with its texts writes; if `progress` says so, `errors` hears on the way how far it is, of the program of
/// this name.
pub(crate) fn report_heard<E: Write, R: Threads + Wait + Sync>(
    progress: bool,
    rt: &R,
    alloc: Global,
    job: &Job,
    texts: &Texts,
    name: &str,
    errors: &mut E,
) -> Result<JobReport, ServeFault>
    ensures report { IfOk result (IsReportOf job.now texts.now) }
    ensures quiet { progress ≡ false → E.contents errors.new ≡ E.contents errors.old }
    ensures memory { OnErr result (result ≡ Err ServeFault.OutOfMemory) }
{
    if !progress {
        return report_of(rt, alloc, job, texts);
    }
    let name = shown_name(alloc, name)?;
    let told = report_told(rt, alloc, job, texts, name.as_str(), errors)?;
    Ok(told.report)
}
