//! A run of an accepted program, by threads or in steps.
ghost use Rattle.std.specs.Prelude.{◌≡◌, ◌≤◌, Err, IfOk, OnErr, None, length, min};
ghost use Rattle.sequencer.specs.Machines.{units_of};
ghost use Rattle.threaded_runner.specs.Reports.{AreLate};
ghost use Rattle.verdict_report.specs.RunText.{IsRunOf, IsScheduled, predictor_of};
ghost use Rattle.verdict_report.specs.Runs.{run_of, run_by_threads as run_by_threads_of, ended_as};

use crate::fault::ServeFault;
use crate::ran::{Extent, Ran};
use jobs::job::{Prediction, Schedule};
use limits::ranges::{Budget, Units, Workers};
use mark_checker::accept::Accepted;
use sequencer::predict::Script;
use std::alloc::{AllocError, Global};
use std::sync::Wait;
use std::thread::Threads;
use threaded_runner::gate::Open;
use threaded_runner::report::{How, Report};
use threaded_runner::runner::run_by;
use unit_turns::predictor::Predictor;
use unit_turns::report::{StepsEnd, StepsReport};
use unit_turns::runner::run_steps_on;

/// Runs an accepted program with the schedule and the predictor that are asked for.
///
/// # Errors
///
/// `OutOfMemory` where memory was refused, or a thread could not be made.
pub fn run_scheduled<'a, R: Threads + Wait + Sync>(
    rt: &R,
    alloc: Global,
    extent: Extent,
    predict: &Prediction,
    accepted: &'a Accepted,
) -> Result<Ran<'a>, ServeFault>
    ensures over { IfOk result (λ ran. (ran.machine.accepted ≡ accepted.now) × (units_of ran.machine ≤ 16) × (units_of ran.machine ≡ extent.units)) }
    ensures run { IfOk result (λ ran. IsRunOf accepted.now.program extent.units extent.budget (run_of ran)) }
    ensures scheduled { IfOk result (λ ran. IsScheduled extent.schedule accepted.now.program extent.units extent.budget predict.now (run_of ran)) }
    ensures memory { OnErr result (result ≡ Err ServeFault.OutOfMemory) }
{
    match extent.schedule {
        Schedule::Threads => run_by_threads(rt, alloc, extent, predict, accepted),
        Schedule::Steps => Ok(run_in_steps(alloc, extent.units, extent.budget, predict, accepted)?),
    }
}

// Runs an accepted program by threads.
fn run_by_threads<'a, R: Threads + Wait + Sync>(
    rt: &R,
    alloc: Global,
    extent: Extent,
    predict: &Prediction,
    accepted: &'a Accepted,
) -> Result<Ran<'a>, ServeFault>
    ensures over { IfOk result (λ ran. (ran.machine.accepted ≡ accepted.now) × (units_of ran.machine ≤ 16) × (units_of ran.machine ≡ extent.units)) }
    ensures run { IfOk result (λ ran. IsRunOf accepted.now.program extent.units extent.budget (run_of ran)) }
    ensures threads { IfOk result (λ ran. (ran.steps ≡ None) × AreLate extent.budget (run_of ran).history) }
    ensures memory { OnErr result (result ≡ Err ServeFault.OutOfMemory) }
{
    let predictor = predictor_of(alloc, predict)?;
    let Report {
        machine,
        counts: _,
        how,
    } = run_with(rt, alloc, extent, accepted, predictor)?;
    Ok(Ran {
        machine,
        how,
        steps: None,
    })
}

// Runs an accepted program by threads with a predictor.
fn run_with<'a, R: Threads + Wait + Sync>(
    rt: &R,
    alloc: Global,
    extent: Extent,
    accepted: &'a Accepted,
    predictor: Predictor,
) -> Result<Report<'a>, ServeFault>
    ensures over { IfOk result (λ report. (report.machine.accepted ≡ accepted.now) × (units_of report.machine ≤ 16) × (units_of report.machine ≡ extent.units)) }
    ensures run { IfOk result (λ report. IsRunOf accepted.now.program extent.units extent.budget (run_by_threads_of report)) }
    ensures threads { IfOk result (λ report. length report.counts.items ≡ min extent.workers extent.units) }
    ensures late { IfOk result (λ report. AreLate extent.budget report.machine.history) }
    ensures memory { OnErr result (result ≡ Err ServeFault.OutOfMemory) }
{
    let threads = threads_of(extent.workers, extent.units);
    match run_by(
        rt,
        alloc,
        accepted,
        extent.units,
        threads,
        extent.budget,
        predictor,
        &Open,
    ) {
        Ok(report) => Ok(report),
        Err(AllocError) => Err(ServeFault::OutOfMemory),
    }
}

// The threads of a run by this many workers: where there are more of them than units, one for each unit.
fn threads_of(workers: Workers, units: Units) -> Workers
    ensures threads { result ≡ min workers units }
    ensures within { result ≤ units }
    ensures few { units ≤ 16 }
{
    Workers::of(workers.get().min(units.get()))
}

/// Runs an accepted program in steps, with the predictor that is asked for.
///
/// # Errors
///
/// `AllocError` where memory was refused.
pub(crate) fn run_in_steps<'a>(
    alloc: Global,
    units: Units,
    budget: Budget,
    predict: &Prediction,
    accepted: &'a Accepted,
) -> Result<Ran<'a>, AllocError>
    ensures over { IfOk result (λ ran. (ran.machine.accepted ≡ accepted.now) × (units_of ran.machine ≤ 16) × (units_of ran.machine ≡ units)) }
    ensures run { IfOk result (λ ran. IsRunOf accepted.now.program units budget (run_of ran)) }
    ensures scheduled { IfOk result (λ ran. IsScheduled Schedule.Steps accepted.now.program units budget predict.now (run_of ran)) }
{
    let predictor = predictor_of(alloc, predict)?;
    // That the units are at most 16 is known where they are read.
    let _ = units.get();
    match run_steps_on(alloc, accepted, units, budget, predictor) {
        Ok(
            StepsReport {
                machine,
                how,
                steps,
            },
        ) => Ok(Ran {
            machine,
            how: ended_as(how),
            steps: Some(steps),
        }),
        Err(AllocError) => Err(AllocError),
    }
}

// How a run in steps ended.
fn ended_as(how: StepsEnd) -> How
    ensures { result ≡ ended_as how }
{
    match how {
        StepsEnd::Ended => How::Ended,
        StepsEnd::OutOfBudget => How::OutOfBudget,
    }
}

/// The predictor that is asked for.
pub(crate) fn predictor_of(alloc: Global, predict: &Prediction) -> Result<Predictor, AllocError>
    ensures { IfOk result (λ predictor. predictor ≡ predictor_of predict.now) }
{
    match predict {
        Prediction::First => Ok(Predictor::First),
        Prediction::Last => Ok(Predictor::Last),
        Prediction::List(list) => {
            let numbers = list.as_slice().to_vec(alloc)?;
            Ok(Predictor::Script(Script::new(numbers)))
        }
    }
}
