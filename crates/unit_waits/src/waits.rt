//! Who waits in the steps of a history.

ghost use Rattle.std.specs.Prelude.{◌≡◌, ℕ, ◌+◌, ◌<◌, ◌≤◌, [], length, IfOk};
ghost use Rattle.machine_model.specs.Machine.{State, opening};
ghost use Rattle.machine_model.specs.Answer.{most_events};
ghost use Rattle.machine_model.specs.Replay.{Replays};
ghost use Rattle.sequencer.specs.Machines.{state, units_of};
ghost use Rattle.unit_waits.specs.Waits.{waits as waits_of};

use crate::acting::{behind, step_of};
use crate::one_step::waits_in_step;
use crate::steps::apply_all;
use crate::waiting::Waiting;
use limits::ranges::Units;
use machine_model::event::Event;
use machine_model::laws::next_is_after;
use mark_checker::accept::Accepted;
use sequencer::machine::Machine;
use std::alloc::{AllocError, Global};

/// A machine of `units` units, 1 to 16, at the start of an accepted program. An error means that memory was refused.
pub(crate) fn machine_at_start<'a>(
    alloc: Global,
    accepted: &'a Accepted,
    units: u32,
) -> Result<Machine<'a>, AllocError>
    requires { (0 < units) × (units ≤ 16) }
    ensures accepted { IfOk result (λ machine. machine.accepted ≡ accepted.now) }
    ensures units { IfOk result (λ machine. units_of machine ≡ units) }
    ensures history { IfOk result (λ machine. machine.history ≡ []) }
    ensures opening { IfOk result (λ machine. state machine ≡ opening accepted.now.program) }
{
    match Machine::with_units(alloc, accepted, Units::of(units)) {
        Ok(machine) => Ok(machine),
        Err(AllocError) => Err(AllocError),
    }
}

/// The waits in the steps of a history of `units` units, 1 to 16, at the start of an accepted program: each unit after the
/// head that does nothing in a step, with the reason, step after step, and within a step from the head to the tail.
///
/// Each event of the history is allowed when it occurs, and there are at most 1,000,000. An event at position 0 ends a step;
/// what comes after the last such event does not count.
///
/// # Errors
///
/// `AllocError` where memory was refused.
pub fn waits(
    alloc: Global,
    accepted: &Accepted,
    units: u32,
    history: &[Event],
) -> Result<Vec<Waiting>, AllocError>
    requires some { 0 < units }
    requires few { units ≤ 16 }
    requires replay { (s : State) × Replays accepted.now.program units history.now s }
    requires room { length history.now ≤ most_events }
    ensures { IfOk result (λ waits. waits.items ≡ waits_of accepted.now.program units history.now) }
{
    next_is_after();
    let mut machine = machine_at_start(alloc, accepted, units)?;
    let mut waits = Vec::new(alloc);
    let mut start = 0;
    let mut number = 1;
    while start < history.len() {
        let left = behind(history, start);
        let Some(events) = step_of(machine.active(), left) else {
            return Ok(waits);
        };
        let in_step = waits_in_step(alloc, accepted, &machine, units, number, events)?;
        apply_all(&mut machine, events)?;
        waits.extend_from_slice(in_step.as_slice())?;
        start += events.len();
        number += 1;
    }
    Ok(waits)
}
