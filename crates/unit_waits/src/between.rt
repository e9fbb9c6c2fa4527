//! Who waits in some steps of a history.

ghost use Rattle.std.specs.Prelude.{◌≡◌, ℕ, ◌<◌, ◌≤◌, length, filter, IfOk};
ghost use Rattle.machine_model.specs.Machine.{State};
ghost use Rattle.machine_model.specs.Answer.{most_events};
ghost use Rattle.machine_model.specs.Replay.{Replays};
ghost use Rattle.sequencer.specs.Machines.{state, units_of};
ghost use Rattle.unit_waits.specs.Waits.{is_between as is_between_of, waits_between as waits_between_of, waits_in};

use crate::acting::{behind, step_of};
use crate::one_step::waits_in_step;
use crate::steps::apply_all;
use crate::waiting::Waiting;
use crate::waits::machine_at_start;
use machine_model::event::Event;
use machine_model::laws::next_is_after;
use mark_checker::accept::Accepted;
use sequencer::machine::Machine;
use std::alloc::{AllocError, Global};

/// Whether the number of a step is from `first` to `last`.
fn is_between(first: u32, last: u32, step: u32) -> bool
    ensures { result ≡ is_between_of first last step }
{
    first <= step && step <= last
}

/// The waits in the step with this number and these events, which begins with a machine; none if the number is not from
/// `first` to `last`.
fn waits_if_between(
    alloc: Global,
    accepted: &Accepted,
    machine: &Machine<'_>,
    units: u32,
    first: u32,
    last: u32,
    step: u32,
    events: &[Event],
) -> Result<Vec<Waiting>, AllocError>
    requires over { machine.now.accepted ≡ accepted.now }
    requires units { (0 < units) × (units_of machine.now ≡ units) }
    ensures { IfOk result (λ waits. waits.items
        ≡ filter (λ w. is_between_of first last w.step) (waits_in accepted.now.program units step (state machine.now) events.now)) }
{
    if !is_between(first, last, step) {
        return Ok(Vec::new(alloc));
    }
    let waits = waits_in_step(alloc, accepted, machine, units, step, events)?;
    Ok(waits)
}

/// The waits in the steps of a history from the number `first` to `last`, as `waits` tells them.
///
/// # Errors
///
/// `AllocError` where memory was refused.
pub fn waits_between(
    alloc: Global,
    accepted: &Accepted,
    units: u32,
    history: &[Event],
    first: u32,
    last: u32,
) -> Result<Vec<Waiting>, AllocError>
    requires some { 0 < units }
    requires few { units ≤ 16 }
    requires replay { (s : State) × Replays accepted.now.program units history.now s }
    requires room { length history.now ≤ most_events }
    ensures { IfOk result (λ waits. waits.items ≡ waits_between_of accepted.now.program units first last history.now) }
{
    next_is_after();
    let mut machine = machine_at_start(alloc, accepted, units)?;
    let mut waits = Vec::new(alloc);
    let mut start = 0;
    let mut number = 1;
    while start < history.len() {
        let left = behind(history, start);
        let Some(events) = step_of(machine.active(), left) else {
            return Ok(waits);
        };
        let in_step = waits_if_between(
            alloc, accepted, &machine, units, first, last, number, events,
        )?;
        apply_all(&mut machine, events)?;
        waits.extend_from_slice(in_step.as_slice())?;
        start += events.len();
        number += 1;
    }
    Ok(waits)
}
