//! All signals of a step.

ghost use Rattle.std.specs.Prelude.{◌≡◌, ◌++◌, ◌<◌, ◌≤◌, IfOk, OnOk};
ghost use Rattle.sequencer.specs.Machines.{state};
ghost use Rattle.unit_waits.specs.Signals.{ring_signals as ring_signals_of, signals as signals_of, unit_signals as unit_signals_of};

use crate::ring::ring_signals;
use crate::unit::unit_signals;
use machine_model::event::Event;
use mark_checker::accept::Accepted;
use sequencer::machine::Machine;
use std::alloc::{AllocError, Global};

/// Adds what the signals of the ring show.
fn push_ring(
    shown: &mut Vec<Option<u64>>,
    machine: &Machine<'_>,
    units: u32,
) -> Result<(), AllocError>
    requires { 0 < units }
    ensures { OnOk result (shown.new.items ≡ shown.old.items ++ ring_signals_of units (state machine.now)) }
{
    let ring = ring_signals(machine, units);
    shown.extend_from_slice(&ring)
}

/// Adds what the signals of the unit with a given number round the ring show.
fn push_unit(
    shown: &mut Vec<Option<u64>>,
    accepted: &Accepted,
    machine: &Machine<'_>,
    units: u32,
    events: &[Event],
    unit: u32,
) -> Result<(), AllocError>
    requires over { machine.now.accepted ≡ accepted.now }
    requires some { 0 < units }
    requires few { units ≤ 16 }
    requires within { unit < units }
    ensures { OnOk result (shown.new.items ≡ shown.old.items ++ unit_signals_of accepted.now.program units (state machine.now) events.now unit) }
{
    let of_unit = unit_signals(accepted, machine, units, events, unit);
    shown.extend_from_slice(&of_unit)
}

/// What all signals show, in a step with these events that begins with a machine.
pub(crate) fn signals(
    alloc: Global,
    accepted: &Accepted,
    machine: &Machine<'_>,
    units: u32,
    events: &[Event],
) -> Result<Vec<Option<u64>>, AllocError>
    requires over { machine.now.accepted ≡ accepted.now }
    requires some { 0 < units }
    requires few { units ≤ 16 }
    ensures { IfOk result (λ shown. shown.items ≡ signals_of accepted.now.program units (state machine.now) events.now) }
{
    let mut shown = Vec::new(alloc);
    push_ring(&mut shown, machine, units)?;
    for unit in 0..units {
        push_unit(&mut shown, accepted, machine, units, events, unit)?;
    }
    Ok(shown)
}
