//! The run of a program in steps, on one thread.

ghost use Rattle.std.specs.Prelude.{◌≡◌, ◌<◌, ◌≤◌, ◌⊎◌, ◌↔◌, true, length, OnOk, IfOk, IfErr};
ghost use Rattle.machine_model.specs.Answer.{most_events};
ghost use Rattle.machine_model.specs.declared.event.Refused.TheVariants as refused;
ghost use Rattle.machine_model.specs.declared.event.Standing.TheVariants as standing;
ghost use Rattle.sequencer.specs.Machines.{state, units_of, SameRing};
ghost use Rattle.unit_turns.specs.Steps.{goes_on as goes_on_by, step as step_of, after_steps, Takes};
ghost use Rattle.unit_turns.specs.Reports.{IsStepsReportOf};
ghost use Rattle.unit_turns.specs.Courses.{course};

use crate::predictor::Predictor;
use crate::report::{StepsEnd, StepsFault, StepsReport};
use crate::turns::{goes_on, turn_behind, turn_of_head};
use limits::ranges::{Budget, MOST_BUDGET, MOST_UNITS, Units};
use machine_model::event::{Refused, Standing};
use mark_checker::accept::Accepted;
use sequencer::machine::Machine;
use std::alloc::{AllocError, Global};

/// Runs the accepted program on a machine with 1 to 16 units, in steps, until the run has ended or the history
/// has `budget` events, 1 to 1,000,000. In a step each unit does at most one event. The same program, units,
/// budget and predictor give the same events, output and number of steps.
///
/// # Errors
///
/// `Units` exactly where there are not 1 to 16 units, else `Budget` exactly where the budget is not 1 to
/// 1,000,000, else `OutOfMemory` where memory was refused. The predictor and the machine are gone then.
pub fn run_steps<'a>(
    alloc: Global,
    accepted: &'a Accepted,
    units: u32,
    budget: u32,
    predictor: Predictor,
) -> Result<StepsReport<'a>, StepsFault>
    ensures units { (result ≡ Err StepsFault.Units) ↔ ((units ≡ 0) ⊎ (16 < units)) }
    ensures budget { (result ≡ Err StepsFault.Budget) ↔ ((0 < units) × (units ≤ 16) × ((budget ≡ 0) ⊎ (1000000 < budget))) }
    ensures report { IfOk result (IsStepsReportOf accepted.now units budget predictor) }
{
    if units == 0 || units > MOST_UNITS {
        return Err(StepsFault::Units);
    }
    if budget == 0 || budget > MOST_BUDGET {
        return Err(StepsFault::Budget);
    }
    let size = Units::of(units);
    let most = Budget::of(budget);
    match run_steps_on(alloc, accepted, size, most, predictor) {
        Ok(report) => Ok(report),
        Err(AllocError) => Err(StepsFault::OutOfMemory),
    }
}

/// Runs the accepted program in steps, as `run_steps` does, on a machine of so many units, up to so many
/// events.
///
/// # Errors
///
/// `AllocError` where memory was refused; the predictor and the machine are gone then.
pub fn run_steps_on<'a>(
    alloc: Global,
    accepted: &'a Accepted,
    units: Units,
    budget: Budget,
    mut predictor: Predictor,
) -> Result<StepsReport<'a>, AllocError>
    ensures { IfOk result (IsStepsReportOf accepted.now units budget predictor) }
{
    let size = units.get();
    let most = budget.get();
    let mut machine = match Machine::with_units(alloc, accepted, units) {
        Ok(machine) => machine,
        Err(AllocError) => return Err(AllocError),
    };
    let steps = match run(&mut machine, &mut predictor, size, most) {
        Ok(steps) => steps,
        Err(Refused::OutOfMemory) => return Err(AllocError),
        Err(_) => unreachable!(),
    };
    // Reading a machine's history gives that the machine is its replay.
    let _ = machine.history();
    let how = how_of(&machine);
    Ok(StepsReport {
        machine,
        how,
        steps,
    })
}

/// How a run ended, by the machine that it left.
fn how_of(machine: &Machine<'_>) -> StepsEnd
    ensures ended { (result ≡ StepsEnd.Ended) ↔ ((state machine.now).outcome ≡ standing.Running → ⊥) }
    ensures running { result ≡ StepsEnd.OutOfBudget → (state machine.now).outcome ≡ standing.Running }
{
    if machine.outcome() == Standing::Running {
        StepsEnd::OutOfBudget
    } else {
        StepsEnd::Ended
    }
}

/// Steps until the run is over; answers how many.
///
/// # Errors
///
/// `OutOfMemory`, for want of memory alone.
fn run(
    machine: &mut Machine<'_>,
    predictor: &mut Predictor,
    units: u32,
    budget: u32,
) -> Result<u32, Refused>
    requires units { (0 < units) × (units ≡ units_of machine.old) }
    requires budget { budget ≤ most_events }
    ensures steps { IfOk result (λ steps. Takes machine.old.accepted.program units budget (course machine.old predictor.old) steps) }
    ensures course { IfOk result (λ steps. course machine.new predictor.new ≡ after_steps machine.old.accepted.program units budget steps (course machine.old predictor.old)) }
    ensures fault { IfErr result (λ why. why ≡ refused.OutOfMemory) }
    ensures kept { SameRing machine.old machine.new }
{
    let mut steps = 0;
    while goes_on(machine, budget) {
        step(machine, predictor, units, budget)?;
        steps += 1;
    }
    Ok(steps)
}

/// One step: each unit has its turn, the head last.
///
/// # Errors
///
/// `OutOfMemory`, for want of memory alone.
fn step(
    machine: &mut Machine<'_>,
    predictor: &mut Predictor,
    units: u32,
    budget: u32,
) -> Result<(), Refused>
    requires units { (0 < units) × (units ≡ units_of machine.old) }
    requires budget { budget ≤ most_events }
    requires goes_on { goes_on_by budget (state machine.old) (length machine.old.history) ≡ true }
    ensures done { OnOk result (course machine.new predictor.new ≡ step_of machine.old.accepted.program units budget (course machine.old predictor.old)) }
    ensures grows { OnOk result (length machine.old.history < length machine.new.history) }
    ensures fault { IfErr result (λ why. why ≡ refused.OutOfMemory) }
    ensures kept { SameRing machine.old machine.new }
{
    for position in (1..units).rev() {
        turn_behind(machine, predictor, budget, position)?;
    }
    turn_of_head(machine, budget)
}
