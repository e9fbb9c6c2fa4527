//! The registers that an instruction wrote, those that a unit sent, and those that it took.

ghost use Rattle.std.specs.Prelude.{◌≡◌, ◌<◌, ◌++◌, if◌then◌else◌, [], ◌∷◌, None, unwrap_or, OnOk};
ghost use Rattle.mips_instructions.specs.Words.{has};
ghost use Rattle.machine_model.specs.Answer.{operand};
ghost use Rattle.unit_core.specs.Units.{active_of};
ghost use Rattle.event_trace.specs.Changes.{for_registers, has_arrived, taken, takes};
ghost use Rattle.event_trace.specs.declared.change.Change.TheVariants.{Took, Wrote, Sent};

use crate::change::{Change, add};
use mips_instructions::number::{Reg, RegSet};
use std::alloc::AllocError;
use unit_core::unit::Unit;

/// Adds that a register was written, if it is one of a set.
fn add_write(
    changes: &mut Vec<Change>,
    unit: &Unit,
    set: RegSet,
    number: u8,
) -> Result<(), AllocError>
    requires { number < 34 }
    ensures { OnOk result (changes.new.items ≡ changes.old.items ++ (if has set number then Wrote number (operand (active_of unit.now) number) ∷ [] else [])) }
{
    let Some(register) = Reg::new(number) else {
        unreachable!();
    };
    if set.has(register) {
        let word = unit.value(register).unwrap_or(0);
        add(changes, Change::Wrote { register, word })?;
    }
    Ok(())
}

/// Adds that the registers of a set were written, with the words that the unit has now.
pub(crate) fn add_writes(
    changes: &mut Vec<Change>,
    unit: &Unit,
    set: RegSet,
) -> Result<(), AllocError>
    ensures { OnOk result (changes.new.items ≡ changes.old.items ++ for_registers (has set) (λ r. Wrote r (operand (active_of unit.now) r))) }
{
    for number in 0..34 {
        add_write(changes, unit, set, number)?;
    }
    Ok(())
}

/// Adds that a register was sent, if it is one of a set.
fn add_sending(
    changes: &mut Vec<Change>,
    unit: &Unit,
    set: RegSet,
    number: u8,
) -> Result<(), AllocError>
    requires { number < 34 }
    ensures { OnOk result (changes.new.items ≡ changes.old.items ++ (if has set number then Sent number (unwrap_or ((active_of unit.now).sent number) 0) ∷ [] else [])) }
{
    let Some(register) = Reg::new(number) else {
        unreachable!();
    };
    if set.has(register) {
        let word = unit.sent(register).unwrap_or(0);
        add(changes, Change::Sent { register, word })?;
    }
    Ok(())
}

/// Adds that the registers of a set were sent, with the words that the unit sent.
pub(crate) fn add_sendings(
    changes: &mut Vec<Change>,
    unit: &Unit,
    set: RegSet,
) -> Result<(), AllocError>
    ensures { OnOk result (changes.new.items ≡ changes.old.items ++ for_registers (has set) (λ r. Sent r (unwrap_or ((active_of unit.now).sent r) 0))) }
{
    for number in 0..34 {
        add_sending(changes, unit, set, number)?;
    }
    Ok(())
}

/// Adds that a register was taken, if it has arrived, was not there before, and has a word other than 0.
fn add_taking(
    changes: &mut Vec<Change>,
    unit: &Unit,
    before: RegSet,
    number: u8,
) -> Result<(), AllocError>
    requires { number < 34 }
    ensures { OnOk result (changes.new.items ≡ changes.old.items ++ (if takes (has before) (active_of unit.now) number then Took number (unwrap_or ((active_of unit.now).arrived number) 0) ∷ [] else [])) }
{
    let Some(register) = Reg::new(number) else {
        unreachable!();
    };
    if before.has(register) {
        return Ok(());
    }
    let word = unit.arrived(register).unwrap_or(0);
    if word == 0 {
        return Ok(());
    }
    add(changes, Change::Took { register, word })
}

/// Adds that the registers were taken that have arrived and were not there before, unless they are 0.
pub(crate) fn add_takings(
    changes: &mut Vec<Change>,
    unit: &Unit,
    before: RegSet,
) -> Result<(), AllocError>
    ensures { OnOk result (changes.new.items ≡ changes.old.items ++ taken (has before) (active_of unit.now)) }
{
    for number in 0..34 {
        add_taking(changes, unit, before, number)?;
    }
    Ok(())
}

/// Adds the registers that arrived with the task of a unit, unless they are 0.
pub(crate) fn add_first_takings(changes: &mut Vec<Change>, unit: &Unit) -> Result<(), AllocError>
    ensures { OnOk result (changes.new.items ≡ changes.old.items ++ taken (has_arrived None) (active_of unit.now)) }
{
    add_takings(changes, unit, RegSet::empty())?;
    Ok(())
}
