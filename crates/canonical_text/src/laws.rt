//! The law of the round trip, and the round trip as a function.

ghost use Rattle.std.specs.Prelude.{◌≡◌, Ok};
ghost use Rattle.annotated_asm.specs.Steps.{Answers};
ghost use Rattle.annotated_asm.specs.ProgramText.{Spells};
ghost use Rattle.canonical_text.specs.CanonicalText.{canonical_text};

use crate::print::print;
use crate::ranges::{bytes_in_range, code_in_range, tasks_in_range};
use annotated_asm::assembler::assemble;
use annotated_asm::fault::AsmFault;
use std::alloc::Global;
use task_descriptor::program::Program;

/// Law: the canonical text of a program spells that program, and so no other. The call does nothing but look at
/// the program; its contract is the theorem.
pub fn reads_back(program: &Program)
    ensures { Spells (canonical_text program.now) program.now }
{
    tasks_in_range(program.tasks());
    code_in_range(program.code());
    bytes_in_range(program.bytes());
    bytes_in_range(program.fixed());
}

/// The program that a program's canonical text spells, which is the program itself.
///
/// # Errors
///
/// `OutOfMemory` where memory was refused, and no other fault.
pub fn print_and_assemble(alloc: Global, program: &Program) -> Result<Program, AsmFault>
    ensures { Answers (λ p. p) result (Ok program.now) }
{
    let text = print(alloc, program)?;
    reads_back(program);
    assemble(alloc, &text)
}
