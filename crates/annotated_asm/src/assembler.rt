//! The assembler.

ghost use Rattle.std.specs.Prelude.{◌≡◌, ◌⊎◌, Ok, Err, IfOk};
ghost use Rattle.task_descriptor.specs.Listing.{Listing, listing_of, build_fault};
ghost use Rattle.annotated_asm.specs.Steps.{Answers};
ghost use Rattle.annotated_asm.specs.ProgramText.{built, program_of, parse, Spells};

use crate::fault::AsmFault;
use crate::item::{PlacedStatement, items_of};
use crate::layout::{Layout, is_beyond, laid_out};
use crate::resolve::{check_names, parts_of};
use std::alloc::Global;
use task_descriptor::program::{BuildFault, Parts, Program};

/// The most bytes of a program text.
pub const MOST_TEXT: usize = 4_194_304;

/// The most lines of a program text: an LF for each byte, and the line after the last.
pub const MOST_LINES: usize = 4_194_305;

/// The program that the parts make. This takes no memory, so each refusal is the parts' own.
fn built(parts: Parts) -> Result<Program, AsmFault>
    ensures { result ≡ built (listing_of parts) (build_fault (listing_of parts)) }
{
    match Program::build(parts) {
        Ok(program) => Ok(program),
        Err((_, fault)) => Err(AsmFault::Build(fault)),
    }
}

/// The program of items whose layout is known.
#[tactic(auto, unfolding(crate::specs::ProgramText::program_of))]
fn program_of(
    alloc: Global,
    items: &[PlacedStatement],
    layout: &Layout,
) -> Result<Program, AsmFault>
    ensures { Answers (λ p. p) result (program_of items.now layout.now) }
{
    if is_beyond(layout.sizes) {
        check_names(&layout.labels, items)?;
        return Err(AsmFault::Build(BuildFault::TooMany));
    }
    let parts = match parts_of(alloc, &layout.labels, items) {
        Ok(parts) => parts,
        Err(fault) => {
            // An unknown name comes before any other fault.
            check_names(&layout.labels, items)?;
            return Err(fault);
        }
    };
    built(parts)
}

/// The program that a text spells, or its first fault.
#[tactic(auto, unfolding(crate::specs::ProgramText::parse))]
fn assembled(alloc: Global, text: &[u8]) -> Result<Program, AsmFault>
    ensures { Answers (λ p. p) result (parse text.now) }
{
    if text.len() > MOST_TEXT {
        return Err(AsmFault::TooLong);
    }
    let items = items_of(alloc, text)?;
    let layout = laid_out(alloc, &items)?;
    program_of(alloc, &items, &layout)
}

/// The program that a text spells.
///
/// # Errors
///
/// The first fault of the text (see `AsmFault`); nothing is left behind. `OutOfMemory`, where memory was
/// refused, may come in place of any other answer.
pub fn assemble(alloc: Global, text: &[u8]) -> Result<Program, AsmFault>
    // The result is the text's program or fault, unless memory ran out.
    ensures exact { Answers (λ p. p) result (parse text.now) }
    // A program that is returned is spelled by the text.
    ensures found { IfOk result (λ p. Spells text.now p) }
    // A program that the text spells is returned, unless memory ran out.
    ensures only { (p : Listing) → Spells text.now p → Answers (λ q. q) result (Ok p) }
{
    assembled(alloc, text)
}
