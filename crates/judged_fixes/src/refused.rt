//! The fix of the first fault in a text that the assembler refuses.

ghost use Rattle.std.specs.Prelude.{◌≡◌, ◌↔◌, false, true, None, Some, IfOk, IfSome};
ghost use Rattle.std.specs.List.{find, list_any, position};
ghost use Rattle.annotated_asm.specs.ProgramText.{parse};
ghost use Rattle.text_diagnostics.specs.Refusals.{tells};
ghost use Rattle.judged_fixes.specs.Fixed.{AreSameErrors};
ghost use Rattle.judged_fixes.specs.Proposed.{has_fix};
ghost use Rattle.judged_fixes.specs.declared.judge.Marks.TheVariants.{Right};
ghost use Rattle.judged_fixes.specs.Right.{IsRight};
ghost use Rattle.judged_fixes.specs.Further.{IsFirstInWords, IsFixedFurther, IsFurther, build_stage, is_below, is_later, is_operand, stage};

use crate::fixed::Fixed;
use crate::judge::{Marks, marks_in};
use crate::judged::{Judged, tell_in_words};
use crate::mended::mended;
use crate::proposal::{has_fix, proposal};
use annotated_asm::assembler::assemble;
use annotated_asm::fault::AsmFault;
use diagnostics::diagnostic::{Diagnostic, Span};
use diagnostics::listed::Listed;
use std::alloc::{AllocError, Global};
use task_descriptor::program::BuildFault;
use text_diagnostics::refusal::{first_token, tells};

// When the assembler looks for a fault of the program as a whole.
fn build_stage(fault: BuildFault) -> (u8, u32)
    ensures { result ≡ build_stage fault }
{
    match fault {
        BuildFault::TooMany => (4, 0),
        BuildFault::NoTask => (5, 0),
        BuildFault::BadEntry => (6, 0),
        BuildFault::DuplicateEntry => (7, 0),
        BuildFault::BadMask => (8, 0),
        BuildFault::BadMark(index) => (9, index),
        BuildFault::BadStart => (10, 0),
    }
}

// When the assembler looks for a fault, and in which line.
fn stage(fault: AsmFault) -> (u8, u32)
    ensures { result ≡ stage fault }
{
    match fault {
        AsmFault::NotAscii(line)
        | AsmFault::Token(line)
        | AsmFault::Mnemonic(line)
        | AsmFault::Operand(line)
        | AsmFault::Number(line)
        | AsmFault::Mark(line) => (1, line),
        AsmFault::Duplicate(line) => (2, line),
        AsmFault::Unknown(line) => (3, line),
        AsmFault::Build(fault) => build_stage(fault),
        AsmFault::TooLong | AsmFault::OutOfMemory => (0, 0),
    }
}

// Whether both are operands of one line.
fn is_operand(old: AsmFault, new: AsmFault) -> bool
    ensures { result ≡ is_operand old new }
{
    match (old, new) {
        (AsmFault::Operand(line), AsmFault::Operand(other)) => line == other,
        _ => false,
    }
}

// Whether one comes before another.
fn is_below(at: (u8, u32), other: (u8, u32)) -> bool
    ensures { result ≡ is_below at other }
{
    at.0 < other.0 || (at.0 == other.0 && at.1 < other.1)
}

// Whether the assembler looks later for the one fault than for the other.
fn is_later(old: AsmFault, new: AsmFault) -> bool
    ensures { result ≡ is_later old new }
{
    is_below(stage(old), stage(new)) || is_operand(old, new)
}

// What the marks of a text are, if the assembler comes further in it than to this fault.
fn marks_further(alloc: Global, text: &[u8], first: AsmFault) -> Result<Option<Marks>, AllocError>
    ensures right { IfOk result (λ found. IfSome found (λ marks. (marks ≡ Right) ↔ IsRight text.now)) }
    ensures further { IfOk result (λ found. IfSome found (λ _. IsFurther first (parse text.now))) }
{
    match assemble(alloc, text) {
        Ok(program) => Ok(Some(marks_in(alloc, &program)?)),
        Err(AsmFault::OutOfMemory) => Err(AllocError),
        Err(fault) if is_later(first, fault) => Ok(Some(Marks::Unread)),
        Err(_) => Ok(None),
    }
}

// A text with the fixes of the errors at these places made in it, if the assembler comes further in it than to this fault.
fn made_further(
    alloc: Global,
    text: &[u8],
    first: AsmFault,
    said: &[Diagnostic],
    places: &[usize],
) -> Result<Option<Fixed>, AllocError>
    ensures { IfOk result (λ found. IfSome found (IsFixedFurther text.now first said.now)) }
{
    let some = proposal(alloc, text, said, Some(places))?;
    if some.from.is_empty() {
        return Ok(None);
    }
    let Some(new) = mended(alloc, text, &some.edits)? else {
        return Ok(None);
    };
    let Some(marks) = marks_further(alloc, &new, first)? else {
        return Ok(None);
    };
    Ok(Some(Fixed {
        text: Listed::new(new),
        fixes: some.from.len(),
        is_right: marks.are_right(),
    }))
}

// The places of the errors that tell a fault at its token.
fn told_places(
    alloc: Global,
    said: &[Diagnostic],
    first: AsmFault,
    token: Option<Span>,
) -> Result<Vec<usize>, AllocError> {
    said.iter()
        .enumerate()
        .filter(|(_, one)| tells(first, token, one))
        .map(|(place, _)| place)
        .collect(alloc)
}

// A text with the fix of its first error, at this place, if it has one: alone, or where the assembler comes no further with
// it, since more than one name in a line is unknown, with those of all that tell the same fault.
fn fixed_further(
    alloc: Global,
    text: &[u8],
    first: AsmFault,
    token: Option<Span>,
    said: &[Diagnostic],
    place: usize,
) -> Result<Option<Fixed>, AllocError>
    ensures { IfOk result (λ found. IfSome found (IsFixedFurther text.now first said.now)) }
{
    if !said.get(place).is_some_and(has_fix) {
        return Ok(None);
    }
    let alone = made_further(alloc, text, first, said, &[place])?;
    if alone.is_some() {
        return Ok(alone);
    }
    let places = told_places(alloc, said, first, token)?;
    made_further(alloc, text, first, said, &places)
}

/// Judges the fix of a refused text's first fault: the first of the errors that tell this fault proposes it. It is made in
/// a copy of the text, in which the assembler must come further; if it does not, that error has its help in words alone.
///
/// # Errors
///
/// `AllocError` where memory was refused.
pub fn judge_refusal(
    alloc: Global,
    text: &[u8],
    first: AsmFault,
    errors: Vec<Diagnostic>,
) -> Result<Judged, AllocError>
    ensures same { IfOk result (λ judged. AreSameErrors judged.errors.items errors.items) }
    ensures fixed { IfOk result (λ judged. IfSome judged.fixed (IsFixedFurther text.now first errors.items)) }
    ensures words { IfOk result (λ judged. judged.fixed ≡ None → IsFirstInWords text.now first judged.errors.items) }
{
    if proposes(errors.as_slice()) {
        judge_first(alloc, text, first, errors)
    } else {
        Ok(Judged {
            errors,
            fixed: None,
        })
    }
}

// Whether one of some errors proposes something to write.
fn proposes(said: &[Diagnostic]) -> bool
    ensures { result ≡ list_any has_fix said.now }
{
    said.iter().any(|one| has_fix(one))
}

// Judges the fix of the first error that tells a fault.
fn judge_first(
    alloc: Global,
    text: &[u8],
    first: AsmFault,
    mut errors: Vec<Diagnostic>,
) -> Result<Judged, AllocError>
    ensures same { IfOk result (λ judged. AreSameErrors judged.errors.items errors.items) }
    ensures fixed { IfOk result (λ judged. IfSome judged.fixed (IsFixedFurther text.now first errors.items)) }
    ensures words { IfOk result (λ judged. judged.fixed ≡ None → IsFirstInWords text.now first judged.errors.items) }
{
    let token = first_token(alloc, text, first)?;
    match first_place(errors.as_slice(), first, token) {
        None => Ok(Judged {
            errors,
            fixed: None,
        }),
        Some(place) => {
            match fixed_further(alloc, text, first, token, &errors, place)? {
                Some(fixed) => Ok(Judged {
                    errors,
                    fixed: Some(fixed),
                }),
                None => {
                    tell_first(alloc, &mut errors, first, token, place);
                    Ok(Judged {
                        errors,
                        fixed: None,
                    })
                }
            }
        }
    }
}

// Tells the first error that tells a fault, at this place, in words alone.
fn tell_first(
    alloc: Global,
    errors: &mut Vec<Diagnostic>,
    first: AsmFault,
    token: Option<Span>,
    place: usize,
)
    requires { position (tells first token) errors.old.items ≡ Some place }
    ensures same { AreSameErrors errors.new.items errors.old.items }
    ensures words { IfSome (find (tells first token) errors.new.items) (λ d. has_fix d ≡ false) }
{
    if let Some(said) = errors.get_mut(place) {
        tell_in_words(alloc, said);
    }
}

// The place of the first error that tells a fault at its token.
fn first_place(said: &[Diagnostic], first: AsmFault, token: Option<Span>) -> Option<usize>
    ensures { result ≡ position (tells first token) said.now }
{
    said.iter().position(|one| tells(first, token, one))
}
