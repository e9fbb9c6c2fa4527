//! A text with the marks of a program.

ghost use Rattle.std.specs.Prelude.{Ok, Err, MatchResult};
ghost use Rattle.canonical_text.specs.MarkedText.{IsAnswer};

use crate::fault::MarksFault;
use crate::reading::marked_text;
use annotated_asm::assembler::{MOST_TEXT, assemble};
use annotated_asm::fault::AsmFault;
use std::alloc::Global;
use task_descriptor::program::Program;

/// The text in the author's layout that spells a program: the text with the create masks and forward bits of the
/// program, and no other byte changed.
///
/// # Errors
///
/// `TooLong` if this has more bytes than a program text may have. `Differs` if it does not spell the program, as
/// when the two differ in more than these marks. `OutOfMemory` may be reported in place of either.
pub fn with_marks_of(alloc: Global, text: &[u8], program: &Program) -> Result<Vec<u8>, MarksFault>
    ensures { MatchResult result (λ v. IsAnswer text.now program.now (Ok v.items)) (λ fault. IsAnswer text.now program.now (Err fault)) }
{
    if text.len() > MOST_TEXT {
        return Err(MarksFault::TooLong);
    }
    let written = match marked_text(alloc, text, program) {
        Ok(written) => written,
        Err(AsmFault::OutOfMemory) => return Err(MarksFault::OutOfMemory),
        Err(_) => return Err(MarksFault::Differs),
    };
    if written.len() > MOST_TEXT {
        return Err(MarksFault::TooLong);
    }
    match assemble(alloc, &written) {
        Ok(again) if again.is_same(program) => Ok(written),
        Err(AsmFault::OutOfMemory) => Err(MarksFault::OutOfMemory),
        _ => Err(MarksFault::Differs),
    }
}
