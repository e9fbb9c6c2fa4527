//! What an event changed, read off the machine after it.

ghost use Rattle.std.specs.Prelude.{◌≡◌, ◌++◌, Some, slice_get, IfOk, OnOk};
ghost use Rattle.mips_instructions.specs.Words.{has};
ghost use Rattle.unit_core.specs.Units.{active_of};
ghost use Rattle.sequencer.specs.Machines.{state};
ghost use Rattle.event_trace.specs.Changes.{arrived, became_head, began, drained};
ghost use Rattle.event_trace.specs.Foresight.{realized};

use crate::change::{Change, add, alone, at_unit};
use crate::foreseen::Foreseen;
use crate::instruction::{executed, index_of};
use crate::registers::{add_first_takings, add_takings};
use crate::unit_change::UnitChange;
use mips_instructions::number::{Reg, RegSet};
use sequencer::machine::Machine;
use std::alloc::{AllocError, Global};
use unit_core::unit::Unit;

/// What an event changed, by what was foreseen of it and by the machine after it. An error says that memory was
/// refused.
pub(crate) fn changes(
    alloc: Global,
    machine: &Machine<'_>,
    foreseen: Foreseen,
) -> Result<Vec<Change>, AllocError>
    ensures { IfOk result (λ changes. changes.items ≡ realized machine.now.accepted.program foreseen (state machine.now)) }
{
    match foreseen {
        Foreseen::Begins(position) => began(alloc, machine, position),
        Foreseen::Executes(execution) => executed(alloc, machine, &execution),
        Foreseen::Takes(position, register) => arrived(alloc, machine, position, register),
        Foreseen::Sends(position, register) => drained(alloc, machine, position, register),
        Foreseen::Retires(changes, before) => succeeded(machine, changes, before),
        Foreseen::Known(changes) => Ok(changes),
        Foreseen::Ends => {
            let standing = machine.outcome();
            alone(alloc, Change::Ended { standing })
        }
    }
}

/// That the unit at a position took its task, and the registers that arrived with it, if a unit is there.
fn began(alloc: Global, machine: &Machine<'_>, position: u32) -> Result<Vec<Change>, AllocError>
    ensures { IfOk result (λ changes. changes.items ≡ began position (slice_get (state machine.now).queue position)) }
{
    let Some(unit) = machine.unit(position) else {
        return Ok(Vec::new(alloc));
    };
    let index = index_of(unit.spot());
    let change = UnitChange::Began { index };
    let mut changes = at_unit(alloc, position, unit.task(), change)?;
    add_first_takings(&mut changes, unit)?;
    Ok(changes)
}

/// Adds that a unit became the head, and the registers that arrived at it beside those that were there before.
fn add_succession(changes: &mut Vec<Change>, unit: &Unit, before: RegSet) -> Result<(), AllocError>
    ensures { OnOk result (changes.new.items ≡ changes.old.items ++ became_head (has before) (Some (active_of unit.now))) }
{
    let task = unit.task();
    let change = UnitChange::BecameHead;
    add(
        changes,
        Change::AtUnit {
            position: 1,
            task,
            change,
        },
    )?;
    add_takings(changes, unit, before)?;
    Ok(())
}

/// Adds to these changes that the unit that is the head now became it, and the registers that arrived at it beside those
/// that were there before.
fn succeeded(
    machine: &Machine<'_>,
    mut changes: Vec<Change>,
    before: RegSet,
) -> Result<Vec<Change>, AllocError>
    ensures { IfOk result (λ all. all.items ≡ changes.items ++ became_head (has before) (slice_get (state machine.now).queue 0)) }
{
    let Some(unit) = machine.unit(0) else {
        return Ok(changes);
    };
    add_succession(&mut changes, unit, before)?;
    Ok(changes)
}

/// That a register arrived at the unit at a position, if a unit is there.
fn arrived(
    alloc: Global,
    machine: &Machine<'_>,
    position: u32,
    register: Reg,
) -> Result<Vec<Change>, AllocError>
    ensures { IfOk result (λ changes. changes.items ≡ arrived position register (slice_get (state machine.now).queue position)) }
{
    let Some(unit) = machine.unit(position) else {
        return Ok(Vec::new(alloc));
    };
    let word = unit.arrived(register).unwrap_or(0);
    at_unit(
        alloc,
        position,
        unit.task(),
        UnitChange::Arrived { register, word },
    )
}

/// That the unit at a position sent a register, if a unit is there.
fn drained(
    alloc: Global,
    machine: &Machine<'_>,
    position: u32,
    register: Reg,
) -> Result<Vec<Change>, AllocError>
    ensures { IfOk result (λ changes. changes.items ≡ drained position register (slice_get (state machine.now).queue position)) }
{
    let Some(unit) = machine.unit(position) else {
        return Ok(Vec::new(alloc));
    };
    let word = unit.sent(register).unwrap_or(0);
    at_unit(
        alloc,
        position,
        unit.task(),
        UnitChange::Drained { register, word },
    )
}
