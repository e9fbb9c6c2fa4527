//! The judge of releases: the checker, and a run in steps.

ghost use Rattle.std.specs.Prelude.{◌≡◌, ◌<◌, true, Ok, IfOk, IfSome};
ghost use Rattle.annotated_asm.specs.ProgramText.{parse};
ghost use Rattle.task_graph.specs.Soundness.{Sound};
ghost use Rattle.unit_turns.specs.Reports.{IsStepsReportOf};
ghost use Rattle.release_proposals.specs.Paying.{IsTrialOf, IsTried};

use annotated_asm::assembler::assemble;
use annotated_asm::fault::AsmFault;
use annotator::certify::certify;
use limits::ranges::{Budget, Units};
use machine_model::event::Standing;
use mark_checker::accept::Accepted;
use std::alloc::{AllocError, Global};
use unit_turns::predictor::Predictor;
use unit_turns::report::StepsReport;
use unit_turns::runner::run_steps_on;

/// How many units the machine of a trial has.
pub const TRIAL_UNITS: u32 = 4;

/// The most events of a trial.
pub const MOST_TRIED: u32 = 100_000;

/// A run in steps that halts.
#[derive(Debug, Drop)]
pub struct Trial {
    /// The number of its steps.
    pub steps: u32,
    /// The words that it puts out.
    pub output: Vec<u32>,
}

/// The program that a text spells, if its marks are right.
///
/// # Errors
///
/// `AllocError` where memory was refused.
pub(crate) fn accepted_of(alloc: Global, text: &[u8]) -> Result<Option<Accepted>, AllocError>
    ensures spelled { IfOk result (λ found. IfSome found (λ accepted. parse text.now ≡ Ok accepted.program)) }
    ensures sound { IfOk result (λ found. IfSome found (λ accepted. Sound accepted.program)) }
{
    let program = match assemble(alloc, text) {
        Ok(program) => program,
        Err(AsmFault::OutOfMemory) => return Err(AllocError),
        Err(_) => return Ok(None),
    };
    let least = certify(alloc, &program)?;
    match Accepted::new(program, least) {
        Ok(accepted) => {
            // Reading the program gives that its marks are sound.
            let _ = accepted.program();
            Ok(Some(accepted))
        }
        Err(_) => Ok(None),
    }
}

/// The run of a trial.
///
/// # Errors
///
/// `AllocError` where memory was refused.
pub(crate) fn run_of(alloc: Global, accepted: &Accepted) -> Result<StepsReport<'_>, AllocError>
    ensures { IfOk result (IsStepsReportOf accepted.now 4 100000 Predictor.First) }
{
    let (units, budget) = (Units::of(TRIAL_UNITS), Budget::of(MOST_TRIED));
    run_steps_on(alloc, accepted, units, budget, Predictor::First)
}

/// What the run of a trial comes to; `None` where it does not halt.
///
/// # Errors
///
/// `AllocError` where memory was refused.
pub(crate) fn trial_of(
    alloc: Global,
    accepted: &Accepted,
    report: &StepsReport<'_>,
) -> Result<Option<Trial>, AllocError>
    requires { IsStepsReportOf accepted.now 4 100000 Predictor.First report.now }
    ensures { IfOk result (λ found. IfSome found (IsTrialOf accepted.now.program)) }
{
    match report.machine.outcome() {
        Standing::Halted => {
            let (steps, output) = (report.steps, report.machine.output().to_vec(alloc)?);
            Ok(Some(Trial { steps, output }))
        }
        _ => Ok(None),
    }
}

/// The trial of the program that a text spells; `None` where the marks are wrong, or it does not halt.
///
/// # Errors
///
/// `AllocError` where memory was refused.
pub(crate) fn tried(alloc: Global, text: &[u8]) -> Result<Option<Trial>, AllocError>
    ensures { IfOk result (λ found. IfSome found (IsTried text.now)) }
{
    match accepted_of(alloc, text)? {
        Some(accepted) => {
            let report = run_of(alloc, &accepted)?;
            trial_of(alloc, &accepted, &report)
        }
        None => Ok(None),
    }
}

/// Whether a trial puts out the same as another, in fewer steps.
pub(crate) fn is_faster(trial: &Trial, than: &Trial) -> bool
    ensures same { result ≡ true → trial.now.output.items ≡ than.now.output.items }
    ensures fewer { result ≡ true → trial.now.steps < than.now.steps }
{
    trial.steps < than.steps && trial.output.as_slice() == than.output.as_slice()
}
