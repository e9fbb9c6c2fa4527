//! The jobs that may use threads, done on the caller's thread: they need no runtime.
ghost use Rattle.std.specs.Prelude.{◌≡◌, IfOk};
ghost use Rattle.jobs.specs.declared.job.Schedule.TheVariants.{Steps};
ghost use Rattle.report_texts.specs.CertificateTexts.{OfCertificate};
ghost use Rattle.report_texts.specs.CheckText.{check_text};
ghost use Rattle.verdict_report.specs.RunText.{IsRunReport, IsRunText};

use crate::running::report_of_run;
use crate::scheduled::run_in_steps;
use jobs::job::{CertificateSource, Prediction, RunEmit, Texts};
use limits::ranges::{Budget, Units};
use mark_checker::accept::Accepted;
use report_texts::judging::{Judged, judge};
use report_texts::report::JobReport;
use report_texts::verdict_text::accepted_program;
use std::alloc::{AllocError, Global};

/// The report of `check` on a program text and the text of its certificate, made on the caller's thread.
///
/// # Errors
///
/// `AllocError` where memory was refused.
pub fn check_alone(
    alloc: Global,
    source: CertificateSource,
    texts: &Texts,
) -> Result<JobReport, AllocError>
    ensures { IfOk result (λ report. OfCertificate source texts.now.program.items texts.now.certificate (λ certificate.
        report ≡ check_text texts.now.program.items certificate)) }
{
    match judge(alloc, source, texts)? {
        Judged::Refused(report) => Ok(report),
        Judged::Accepted(accepted) => accepted_program(alloc, accepted.program()),
    }
}

/// The parameters of a run in steps.
#[derive(Clone, Copy)]
pub struct StepsRun<'a> {
    /// The number of units of the machine.
    pub units: Units,
    /// The most events of the run.
    pub budget: Budget,
    /// How the sequencer predicts the next task.
    pub predict: &'a Prediction,
    /// The text that is written for the run.
    pub emit: RunEmit,
}

/// The report of `run --schedule steps` on a program text, the name of the program and the text of its certificate, made
/// on the caller's thread.
///
/// # Errors
///
/// `AllocError` where memory was refused.
pub fn run_alone(
    alloc: Global,
    steps: &StepsRun<'_>,
    source: CertificateSource,
    texts: &Texts,
) -> Result<JobReport, AllocError>
    ensures { IfOk result (λ report. OfCertificate source texts.now.program.items texts.now.certificate (λ certificate.
        IsRunText Steps steps.now.units steps.now.budget steps.now.predict.now steps.now.emit texts.now.program.items certificate report)) }
{
    match judge(alloc, source, texts)? {
        Judged::Refused(report) => Ok(report),
        Judged::Accepted(accepted) => {
            let name = texts.name.as_str();
            run_accepted(alloc, steps, name, texts.program.as_slice(), &accepted)
        }
    }
}

// What `run --schedule steps` writes for an accepted program with its name and text.
fn run_accepted(
    alloc: Global,
    steps: &StepsRun<'_>,
    name: &str,
    text: &[u8],
    accepted: &Accepted,
) -> Result<JobReport, AllocError>
    ensures { IfOk result (λ report. IsRunReport Steps steps.now.units steps.now.budget steps.now.predict.now steps.now.emit accepted.now.program report) }
{
    let ran = run_in_steps(alloc, steps.units, steps.budget, steps.predict, accepted)?;
    report_of_run(
        alloc,
        steps.emit,
        steps.units,
        steps.budget,
        steps.predict,
        &ran,
        name,
        text,
        accepted,
    )
}
