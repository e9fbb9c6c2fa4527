//! Who waits in one step.

ghost use Rattle.std.specs.Prelude.{◌≡◌, ◌+◌, ◌<◌, ◌≤◌, ◌++◌, length, drop, IfOk, OnOk};
ghost use Rattle.sequencer.specs.Machines.{state, units_of};
ghost use Rattle.unit_waits.specs.Waits.{waits_in, waits_of};

use crate::acting::acts;
use crate::reasons::{reason, unit_at};
use crate::waiting::Waiting;
use machine_model::event::Event;
use mark_checker::accept::Accepted;
use sequencer::machine::Machine;
use std::alloc::{AllocError, Global};

/// Adds the wait of the unit at a position, if a unit is there and waits.
fn add_wait(
    waits: &mut Vec<Waiting>,
    accepted: &Accepted,
    machine: &Machine<'_>,
    units: u32,
    step: u32,
    events: &[Event],
    position: u32,
) -> Result<(), AllocError>
    requires over { machine.now.accepted ≡ accepted.now }
    requires units { (0 < units) × (units_of machine.now ≡ units) }
    requires range { position < 16 }
    ensures { OnOk result (waits.new.items ++ waits_of accepted.now.program units step (state machine.now) events.now (position + 1) (drop (position + 1) (state machine.now).queue)
        ≡ waits.old.items ++ waits_of accepted.now.program units step (state machine.now) events.now position (drop position (state machine.now).queue)) }
{
    let Some(unit) = machine.unit(position) else {
        return Ok(());
    };
    if acts(machine.active(), position, events) {
        return Ok(());
    }
    waits.push(Waiting {
        step,
        unit: unit_at(machine, units, position),
        task: unit.task(),
        place: unit.spot(),
        reason: reason(accepted, machine, units, position, unit),
    })?;
    Ok(())
}

/// The waits in the step with this number and these events, which begins with a machine.
pub(crate) fn waits_in_step(
    alloc: Global,
    accepted: &Accepted,
    machine: &Machine<'_>,
    units: u32,
    step: u32,
    events: &[Event],
) -> Result<Vec<Waiting>, AllocError>
    requires over { machine.now.accepted ≡ accepted.now }
    requires units { (0 < units) × (units_of machine.now ≡ units) }
    ensures few { IfOk result (λ waits. length waits.items ≤ 16) }
    ensures exact { IfOk result (λ waits. waits.items ≡ waits_in accepted.now.program units step (state machine.now) events.now) }
{
    let mut waits = Vec::new(alloc);
    for position in 1..machine.active() {
        add_wait(&mut waits, accepted, machine, units, step, events, position)?;
    }
    Ok(waits)
}
