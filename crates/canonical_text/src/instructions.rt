//! The text of one instruction.

ghost use Rattle.std.specs.Prelude.{◌≡◌, ◌++◌, OnOk, string_bytes, map};
ghost use Rattle.canonical_text.specs.CanonicalText.{spelled, before_operand, operand_text, op_text, forward_text, stop_text, marked_text};

use crate::pieces::{write_place, write_register, write_registers};
use mips_instructions::instruction::{InstructionOperand, Op};
use std::alloc::AllocError;
use task_descriptor::descriptor::{Descriptor, Marked, Stop};

fn write_operand(
    text: &mut String,
    tasks: &[Descriptor],
    operand: InstructionOperand,
) -> Result<(), AllocError>
    ensures { OnOk result (string_bytes text.new ≡ string_bytes text.old ++ operand_text tasks.now operand) }
{
    match operand {
        InstructionOperand::Register(register) => write_register(text, register.get()),
        InstructionOperand::Amount(amount) => {
            let amount = amount.get();
            write!(text, "{amount}")
        }
        InstructionOperand::Signed(number) => write!(text, "{number}"),
        InstructionOperand::Unsigned(number) => write!(text, "{number}"),
        InstructionOperand::Offset(number, base) => {
            let base = base.get();
            write!(text, "{number}(${base})")
        }
        InstructionOperand::Place(place) => write_place(text, tasks, place),
        InstructionOperand::Registers(set) => {
            write_registers(text, set)?;
            Ok(())
        }
    }
}

fn before(is_first: bool) -> &'static str
    ensures { result.now ≡ before_operand is_first }
{
    if is_first { " " } else { "," }
}

fn write_next_operand(
    text: &mut String,
    is_first: bool,
    tasks: &[Descriptor],
    operand: InstructionOperand,
) -> Result<(), AllocError>
    ensures { OnOk result (string_bytes text.new ≡ string_bytes text.old ++ (before_operand is_first ++ operand_text tasks.now operand)) }
{
    text.push_str(before(is_first))?;
    write_operand(text, tasks, operand)
}

/// A mnemonic, and the operands after it.
fn write_spelled(
    text: &mut String,
    tasks: &[Descriptor],
    name: &str,
    operands: &[InstructionOperand],
) -> Result<(), AllocError>
    ensures { OnOk result (string_bytes text.new ≡ string_bytes text.old ++ spelled name.now (map (operand_text tasks.now) operands.now)) }
{
    text.push_str(name)?;
    for (index, operand) in operands.iter().enumerate() {
        write_next_operand(text, index == 0, tasks, *operand)?;
    }
    Ok(())
}

fn write_op(text: &mut String, tasks: &[Descriptor], op: &Op) -> Result<(), AllocError>
    ensures { OnOk result (string_bytes text.new ≡ string_bytes text.old ++ op_text tasks.now op.now) }
{
    write_spelled(text, tasks, op.name(), op.operands().as_slice())
}

fn forward_mark(forward: bool) -> &'static str
    ensures { result.now ≡ forward_text forward }
{
    if forward { " !f" } else { "" }
}

fn stop_mark(stop: Stop) -> &'static str
    ensures { result.now ≡ stop_text stop }
{
    match stop {
        Stop::None => "",
        Stop::Always => " !s",
        Stop::Taken => " !st",
        Stop::NotTaken => " !sn",
    }
}

/// An instruction with its marks, without the line's end.
pub(crate) fn write_marked(
    text: &mut String,
    tasks: &[Descriptor],
    marked: &Marked,
) -> Result<(), AllocError>
    ensures { OnOk result (string_bytes text.new ≡ string_bytes text.old ++ marked_text tasks.now marked.now) }
{
    write_op(text, tasks, &marked.op)?;
    text.push_str(forward_mark(marked.forward))?;
    text.push_str(stop_mark(marked.stop))
}
