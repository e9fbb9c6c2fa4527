//! The result of a run in steps.

ghost use Rattle.std.specs.Prelude.{◌≤◌, IfOk};
ghost use Rattle.unit_turns.specs.Reports.{IsStepsReportOf};
ghost use Rattle.speed_curve.specs.Curve.{IsRowOf};

use limits::ranges::{Budget, Units};
use machine_model::event::Standing;
use mark_checker::accept::Accepted;
use std::alloc::{AllocError, Global};
use task_lives::laws::{histories_fit, lives_add_up};
use task_lives::lives::lives_of_runs;
use task_lives::tally::add_up;
use unit_turns::predictor::Predictor;
use unit_turns::report::StepsReport;
use unit_turns::runner::run_steps_on;

/// The result of a run of a program in steps.
#[derive(Clone, Copy, Debug, PartialEq, Eq)]
pub struct Row {
    /// How many units the machine has, 1 to 16.
    pub units: u32,
    /// How many steps the run took, at most 1,000,000.
    pub steps: u32,
    /// How many instructions the tasks executed that retired, at most 1,000,000.
    pub retired: u32,
    /// How many instructions the tasks executed that were squashed or dropped, at most 1,000,000. What the
    /// tasks executed that are unfinished counts neither here nor in `retired`.
    pub wasted: u32,
    /// How the run is after the last step; `Standing::Running` if it is out of budget.
    pub standing: Standing,
}

/// The result of a run of an accepted program in steps, as `run_steps` makes it, on a machine of `units` units, 1 to 16,
/// up to `budget` events, 1 to 1,000,000.
///
/// # Errors
///
/// `AllocError` where memory was refused.
pub fn row_of(
    alloc: Global,
    accepted: &Accepted,
    units: u32,
    budget: u32,
    predictor: Predictor,
) -> Result<Row, AllocError>
    requires units { (1 ≤ units) × (units ≤ 16) }
    requires budget { (1 ≤ budget) × (budget ≤ 1000000) }
    ensures { IfOk result (IsRowOf accepted.now.program budget predictor units) }
{
    let report = run(alloc, accepted, units, budget, predictor)?;
    histories_fit();
    lives_add_up();
    let lives = lives_of_runs(alloc, report.machine.history(), units)?;
    let tally = add_up(&lives);
    Ok(Row {
        units,
        steps: report.steps,
        retired: tally.useful,
        wasted: tally.wasted,
        standing: report.machine.outcome(),
    })
}

/// Runs the accepted program in steps. The error says that memory was refused.
fn run<'a>(
    alloc: Global,
    accepted: &'a Accepted,
    units: u32,
    budget: u32,
    predictor: Predictor,
) -> Result<StepsReport<'a>, AllocError>
    requires units { (1 ≤ units) × (units ≤ 16) }
    requires budget { (1 ≤ budget) × (budget ≤ 1000000) }
    ensures { IfOk result (IsStepsReportOf accepted.now units budget predictor) }
{
    match run_steps_on(
        alloc,
        accepted,
        Units::of(units),
        Budget::of(budget),
        predictor,
    ) {
        Ok(report) => Ok(report),
        Err(AllocError) => Err(AllocError),
    }
}
