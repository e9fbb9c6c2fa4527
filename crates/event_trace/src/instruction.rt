//! An instruction that a unit executes: what the unit has before it, and what it did.

ghost use Rattle.std.specs.Prelude.{◌≡◌, ◌++◌, ◌%◌, ◌^◌, [], ◌∷◌, slice_get, unwrap_or, IfOk, OnOk};
ghost use Rattle.mips_plain.specs.MemoryMap.{byte_of, effective};
ghost use Rattle.mips_instructions.specs.InstructionTable.{store_size};
ghost use Rattle.machine_model.specs.Answer.{index_of_place, instruction_at, operand};
ghost use Rattle.unit_core.specs.Units.{active_of};
ghost use Rattle.sequencer.specs.Machines.{state};
ghost use Rattle.event_trace.specs.Changes.{outside, stands_at, unless_ended};
ghost use Rattle.event_trace.specs.Foresight.{IsOf, effects_of, executed_by};

use crate::change::{Change, add, at_unit};
use crate::foreseen::Execution;
use crate::registers::{add_sendings, add_writes};
use crate::unit_change::UnitChange;
use machine_model::event::{Spot, Standing};
use mips_instructions::instruction::{Op, StoreKind};
use mips_instructions::number::Reg;
use mips_plain::memory::Memory;
use sequencer::machine::Machine;
use std::alloc::{AllocError, Global};
use task_descriptor::descriptor::Marked;
use task_descriptor::program::Program;
use unit_core::unit::Unit;

/// The index at which a unit stands; 0 where it has stopped.
pub(crate) fn index_of(spot: Spot) -> u32
    ensures { result ≡ index_of_place spot }
{
    match spot {
        Spot::Inside(index) => index,
        Spot::Stopped(_) => 0,
    }
}

/// The instruction before which a unit stands; `None` where it has stopped.
pub(crate) fn instruction_at(program: &Program, spot: Spot) -> Option<Marked>
    ensures { result ≡ instruction_at program.now spot }
{
    match spot {
        Spot::Inside(index) => program.code().get(index as usize).copied(),
        Spot::Stopped(_) => None,
    }
}

/// The operand that a unit has for an instruction, 0 where there is none.
fn operand_of(unit: &Unit, register: Option<Reg>) -> u32
    ensures { result ≡ operand (active_of unit.now) (unwrap_or register 0) }
{
    match register {
        Some(register) => unit.value(register).unwrap_or(0),
        None => 0,
    }
}

/// What the unit at a position has before it executes this instruction.
pub(crate) fn execution(position: u32, unit: &Unit, op: &Op) -> Execution
    ensures { IsOf position (active_of unit.now) op.now result }
{
    let (first, second) = op.sources();
    let task = unit.task();
    let index = index_of(unit.spot());
    let a = operand_of(unit, first);
    let b = operand_of(unit, second);
    let sent = unit.sent_set();
    Execution {
        position,
        task,
        index,
        op: *op,
        a,
        b,
        sent,
    }
}

/// The address of a load or a store with the operand a and this offset.
#[tactic(auto, unfolding(mips_plain::specs::MemoryMap::effective))]
fn effective_address(a: u32, n: i16) -> u32
    ensures { result ≡ effective a n }
{
    a.wrapping_add(i32::from(n).cast_unsigned())
}

/// The bytes of a word that a store takes, with zeros above them.
fn stored_bytes(kind: StoreKind, word: u32) -> u32
    ensures { result ≡ word % 256 ^ store_size kind }
{
    match kind {
        StoreKind::Sw => word,
        StoreKind::Sh => word % 0x1_0000,
        StoreKind::Sb => word % 0x100,
    }
}

/// How many bytes a store writes.
fn stored_size(kind: StoreKind) -> u32
    ensures { result ≡ store_size kind }
{
    match kind {
        StoreKind::Sw => 4,
        StoreKind::Sh => 2,
        StoreKind::Sb => 1,
    }
}

/// Adds what an instruction with these operands did outside the registers.
fn add_outside(
    changes: &mut Vec<Change>,
    memory: &Memory,
    op: &Op,
    a: u32,
    b: u32,
) -> Result<(), AllocError>
    ensures { OnOk result (changes.new.items ≡ changes.old.items ++ outside op.now a b (byte_of memory.now.fixed) (byte_of memory.now.bytes)) }
{
    match *op {
        Op::Load(_, _, _, n) => {
            let address = effective_address(a, n);
            if let Ok(word) = memory.load(op, address) {
                add(changes, Change::Loaded { address, word })?;
            }
        }
        Op::Store(kind, _, _, n) => {
            let address = effective_address(a, n);
            let word = stored_bytes(kind, b);
            let size = stored_size(kind);
            add(
                changes,
                Change::Stored {
                    address,
                    word,
                    size,
                },
            )?;
        }
        Op::Out(_) => add(changes, Change::PutOut { word: a })?,
        _ => {}
    }
    Ok(())
}

/// Adds where a unit stands.
fn add_spot(changes: &mut Vec<Change>, spot: Spot) -> Result<(), AllocError>
    ensures { OnOk result (changes.new.items ≡ changes.old.items ++ stands_at spot ∷ []) }
{
    match spot {
        Spot::Inside(index) => add(changes, Change::MovedTo { index }),
        Spot::Stopped(address) => add(changes, Change::StoppedAt { address }),
    }
}

/// Adds what an instruction did to its unit, which `unit` shows after it.
fn add_effects(
    changes: &mut Vec<Change>,
    machine: &Machine<'_>,
    unit: &Unit,
    execution: &Execution,
) -> Result<(), AllocError>
    ensures { OnOk result (changes.new.items ≡ changes.old.items ++ effects_of machine.now.accepted.program (state machine.now) execution.now (active_of unit.now)) }
{
    add_outside(
        changes,
        machine.memory(),
        &execution.op,
        execution.a,
        execution.b,
    )?;
    add_writes(changes, unit, execution.op.dests())?;
    add_sendings(changes, unit, unit.sent_set().minus(execution.sent))?;
    add_spot(changes, unit.spot())?;
    Ok(())
}

/// Adds how the run ended, if it has; else what an instruction did to its unit.
fn add_ending(
    changes: &mut Vec<Change>,
    machine: &Machine<'_>,
    unit: &Unit,
    execution: &Execution,
) -> Result<(), AllocError>
    ensures { OnOk result (changes.new.items ≡ changes.old.items
        ++ unless_ended (state machine.now).outcome (effects_of machine.now.accepted.program (state machine.now) execution.now (active_of unit.now))) }
{
    match machine.outcome() {
        Standing::Running => add_effects(changes, machine, unit, execution),
        standing => add(changes, Change::Ended { standing }),
    }
}

/// That a unit executed an instruction, and what that did, by the machine after it. An error says that memory
/// was refused.
pub(crate) fn executed(
    alloc: Global,
    machine: &Machine<'_>,
    execution: &Execution,
) -> Result<Vec<Change>, AllocError>
    ensures { IfOk result (λ changes. changes.items
        ≡ executed_by machine.now.accepted.program (state machine.now) execution.now (slice_get (state machine.now).queue execution.now.position)) }
{
    let Some(unit) = machine.unit(execution.position) else {
        return Ok(Vec::new(alloc));
    };
    let index = execution.index;
    let change = UnitChange::Executed { index };
    let mut changes = at_unit(alloc, execution.position, execution.task, change)?;
    add_ending(&mut changes, machine, unit, execution)?;
    Ok(changes)
}
