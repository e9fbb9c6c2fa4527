//! The bytes of a line that its fault is about.

ghost use Rattle.std.specs.Prelude.{◌≡◌, IfOk};
ghost use Rattle.operand_forms.specs.LinePlaces.{is_label, after_labels, word_place, word_in, shape_named, line_place};

use crate::bytes::{byte_at, byte_span, bytes_at, token_span, whole_word};
use crate::line_fault::LineFaultKind;
use crate::meant::{mark_index, number_index, operand_span, span_at};
use crate::rows::Reading;
use crate::shape::{OperandShape, shape_of};
use program_tokens::span::TokenSpan;
use std::alloc::{AllocError, Global};
use task_descriptor::name::begins_name;

/// What stands after a label.
const COLON: &[u8] = b":";

/// Whether two places of a line are those of a label: a name and a colon.
fn is_label(line: &[u8], name: TokenSpan, colon: TokenSpan) -> bool
    ensures { result ≡ is_label line.now name colon }
{
    let first = byte_at(line, name);
    begins_name(first) && bytes_at(line, colon) == COLON
}

/// The places of a line's tokens without those of the labels, a name and a colon each, at its front.
pub fn after_labels<'a>(line: &[u8], places: &'a [TokenSpan]) -> &'a [TokenSpan]
    ensures { result.now ≡ after_labels line.now places.now }
{
    let mut rest = places;
    while let [first, second, others @ ..] = rest {
        if !is_label(line, *first, *second) {
            break;
        }
        rest = others;
    }
    rest
}

/// The place of the first word of a line's statement, which follows the labels; the line's first byte where there is none.
pub fn word_place(line: &[u8], places: &[TokenSpan]) -> TokenSpan
    ensures { result ≡ word_place line.now places.now }
{
    span_at(after_labels(line, places), 0)
}

/// The bytes of the first word of a line's statement.
pub fn word_in<'a>(line: &'a [u8], reading: &Reading) -> &'a [u8]
    ensures { result.now ≡ word_in line.now reading.now }
{
    bytes_at(line, word_place(line, reading.places.as_slice()))
}

/// The shape of the operands that follow a word; `OperandShape::Nothing` where it begins no statement.
pub fn shape_named(word: &[u8]) -> OperandShape
    ensures { result ≡ shape_named word.now }
{
    shape_of(word).unwrap_or(OperandShape::Nothing)
}

/// The place in a line that a fault of this kind is about.
///
/// # Errors
///
/// `AllocError` where memory was refused.
#[tactic(auto, unfolding(crate::specs::LinePlaces::line_place))]
pub fn line_place(
    alloc: Global,
    kind: LineFaultKind,
    line: &[u8],
    reading: &Reading,
) -> Result<TokenSpan, AllocError>
    ensures { IfOk result (λ place. place ≡ line_place kind line.now reading.now) }
{
    let tokens = reading.tokens.as_slice();
    let places = reading.places.as_slice();
    let shape = shape_named(word_in(line, reading));
    match kind {
        LineFaultKind::NotAscii => Ok(byte_span(line)),
        LineFaultKind::Token => Ok(whole_word(line, token_span(alloc, line)?)),
        LineFaultKind::Mnemonic => Ok(whole_word(line, word_place(line, places))),
        LineFaultKind::Operand => Ok(operand_span(shape, tokens, places)),
        LineFaultKind::Number => Ok(span_at(places, number_index(shape, tokens))),
        LineFaultKind::Mark => Ok(span_at(places, mark_index(tokens))),
    }
}
