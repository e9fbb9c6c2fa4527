//! The positions of instructions in a program text.

ghost use Rattle.std.specs.Prelude.{◌≡◌, IfOk};
ghost use Rattle.event_trace.specs.Entries.{places_of};

use annotated_asm::fault::AsmFault;
use annotated_asm::position::Position;
use annotated_asm::reading::source_map;
use std::alloc::{AllocError, Global};

/// The positions of the instructions in a program text, by code index; none if the text spells no program.
///
/// # Errors
///
/// `AllocError` where memory was refused.
pub fn places(alloc: Global, text: &[u8]) -> Result<Vec<Position>, AllocError>
    ensures { IfOk result (λ places. places.items ≡ places_of text.now) }
{
    match source_map(alloc, text) {
        Ok(map) => Ok(map.code),
        Err(AsmFault::OutOfMemory) => Err(AllocError),
        Err(_) => Ok(Vec::new(alloc)),
    }
}
