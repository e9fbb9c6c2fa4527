//! The ranges of a program's numbers, and its tasks' names. The values' types have them, and a proof
//! learns them where the values are looked at: that is all that these functions do.

ghost use Rattle.std.specs.Prelude.{◌<◌, ◌≤◌, ◌^◌};
ghost use Rattle.std.specs.List.{All};
ghost use Rattle.canonical_text.specs.Ranges.{IsHalf, IsOperandInRange, IsInRange, IsTaskInRange};

use mips_instructions::instruction::{InstructionOperand, Op};
use mips_instructions::number::{Amount, Gpr, Place, RegSet};
use task_descriptor::descriptor::{Descriptor, Marked};

fn general(register: Gpr)
    ensures { register < 32 }
{
    let _ = register.get();
}

fn shift(amount: Amount)
    ensures { amount < 32 }
{
    let _ = amount.get();
}

fn within(place: Place)
    ensures { place ≤ 4096 }
{
    let _ = place.get();
}

fn registers(set: RegSet)
    ensures { set < 2 ^ 34 }
{
    let _ = set.bits();
}

fn signed(number: i16)
    ensures { IsHalf number }
{
    let _ = number;
}

fn unsigned(number: u16)
    ensures { number < 2 ^ 16 }
{
    let _ = number;
}

fn offset(number: i16, base: Gpr)
    ensures { IsHalf number × (base < 32) }
{
    signed(number);
    general(base);
}

fn operand_in_range(operand: InstructionOperand)
    ensures { IsOperandInRange operand }
{
    match operand {
        InstructionOperand::Register(register) => general(register),
        InstructionOperand::Amount(amount) => shift(amount),
        InstructionOperand::Signed(number) => signed(number),
        InstructionOperand::Unsigned(number) => unsigned(number),
        InstructionOperand::Offset(number, base) => offset(number, base),
        InstructionOperand::Place(place) => within(place),
        InstructionOperand::Registers(set) => registers(set),
    }
}

fn operands_in_range(operands: &[InstructionOperand])
    ensures { All IsOperandInRange operands.now }
{
    for operand in operands {
        operand_in_range(*operand);
    }
}

fn op_in_range(op: &Op)
    ensures { IsInRange op.now }
{
    operands_in_range(op.operands().as_slice());
}

/// Each instruction's numbers.
pub(crate) fn code_in_range(code: &[Marked])
    ensures { All (λ m. IsInRange m.op) code.now }
{
    for marked in code {
        op_in_range(&marked.op);
    }
}

fn places_in_range(places: &[Place])
    ensures { All (λ place. place ≤ 4096) places.now }
{
    for place in places {
        within(*place);
    }
}

fn task_in_range(task: &Descriptor)
    ensures { IsTaskInRange task.now }
{
    let _ = task.name.bytes();
    registers(task.create);
    places_in_range(task.targets.as_slice());
}

/// Each task's name, create mask and targets.
pub(crate) fn tasks_in_range(tasks: &[Descriptor])
    ensures { All IsTaskInRange tasks.now }
{
    for task in tasks {
        task_in_range(task);
    }
}

/// Each byte.
pub(crate) fn bytes_in_range(bytes: &[u8])
    ensures { All (λ byte. byte < 256) bytes.now }
{
    let _ = bytes;
}
