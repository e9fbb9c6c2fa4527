//! The job `print`.
ghost use Rattle.std.specs.Prelude.{◌≡◌, IfOk};
ghost use Rattle.report_texts.specs.PrintText.{print_text};

use crate::report::{JobReport, refused_program};
use annotated_asm::assembler::assemble;
use annotated_asm::fault::AsmFault;
use std::alloc::{AllocError, Global};

/// The report of `print` on a program text: the canonical text of the program.
///
/// # Errors
///
/// `AllocError` where memory was refused.
pub fn print(alloc: Global, text: &[u8]) -> Result<JobReport, AllocError>
    ensures { IfOk result (λ report. report ≡ print_text text.now) }
{
    match assemble(alloc, text) {
        Ok(program) => Ok(JobReport::new(canonical_text::print::print(alloc, &program)?, 0)),
        Err(AsmFault::OutOfMemory) => Err(AllocError),
        Err(fault) => refused_program(alloc, fault),
    }
}
