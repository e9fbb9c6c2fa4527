//! Events applied one after the other.

ghost use Rattle.std.specs.Prelude.{◌≡◌, ◌+◌, ◌<◌, ◌≤◌, length, OnOk};
ghost use Rattle.machine_model.specs.Machine.{State};
ghost use Rattle.machine_model.specs.Answer.{most_events};
ghost use Rattle.machine_model.specs.Replay.{ReplaysFrom};
ghost use Rattle.machine_model.specs.Step.{Next};
ghost use Rattle.sequencer.specs.Machines.{Applies, SameRing, state, units_of};
ghost use Rattle.unit_waits.specs.Waits.{after_all};

use machine_model::event::{Event, Refused};
use machine_model::laws::next_is_after;
use sequencer::machine::Machine;
use std::alloc::AllocError;

/// Applies an event that is allowed.
fn apply(machine: &mut Machine<'_>, event: &Event) -> Result<(), AllocError>
    requires next { (s : State) × Next machine.old.accepted.program (units_of machine.old) (state machine.old) event.now s }
    requires room { length machine.old.history < most_events }
    ensures applied { OnOk result (Applies machine.old event.now machine.new) }
    ensures kept { SameRing machine.old machine.new }
{
    machine.law_answers();
    match machine.apply(*event) {
        Ok(()) => Ok(()),
        Err(Refused::OutOfMemory) => Err(AllocError),
        Err(_) => unreachable!(),
    }
}

/// Applies events, each of which is allowed where it comes. An error means that memory was refused; the events
/// before it stay.
pub(crate) fn apply_all(machine: &mut Machine<'_>, events: &[Event]) -> Result<(), AllocError>
    requires replay { (s : State) × ReplaysFrom machine.old.accepted.program (units_of machine.old) (state machine.old) events.now s }
    requires room { length machine.old.history + length events.now ≤ most_events }
    ensures state { OnOk result (state machine.new ≡ after_all machine.old.accepted.program (state machine.old) events.now) }
    ensures count { OnOk result (length machine.new.history ≡ length machine.old.history + length events.now) }
    ensures kept { SameRing machine.old machine.new }
{
    next_is_after();
    for event in events {
        apply(machine, event)?;
    }
    Ok(())
}
