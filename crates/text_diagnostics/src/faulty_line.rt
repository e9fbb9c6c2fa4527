//! A line that cannot be read, and which texts mend it in place of what is wrong in it.

ghost use Rattle.std.specs.Prelude.{◌≡◌, IfOk};
ghost use Rattle.text_diagnostics.specs.Mending.{reads, replaced, goes_further, mends};

use crate::advice::Made;
use crate::place::up_to_end;
use crate::section::reads;
use operand_forms::bytes::{byte_at, bytes_at};
use operand_forms::line_fault::LineFaultKind;
use operand_forms::line_place::{shape_named, word_in, word_place};
use operand_forms::meant::{operand_span, span_at};
use operand_forms::rows::{Reading, read};
use operand_forms::slices::{after, first};
use program_statements::statement::Section;
use program_tokens::span::TokenSpan as Place;
use program_tokens::token::Token;
use std::alloc::Global;

/// A line that cannot be read.
#[derive(Clone, Copy)]
pub(crate) struct FaultyLine<'a> {
    pub(crate) alloc: Global,
    /// What is wrong with it.
    pub(crate) kind: LineFaultKind,
    /// The section in which it was to be read.
    pub(crate) section: Section,
    /// Its bytes.
    pub(crate) line: &'a [u8],
    /// What is read of it.
    pub(crate) reading: &'a Reading,
    /// Which of its bytes are meant.
    pub(crate) place: Place,
}

/// A line with a text in place of a part.
fn replaced(alloc: Global, line: &[u8], place: Place, text: &[u8]) -> Made<Vec<u8>>
    ensures { IfOk result (λ bytes. bytes.items ≡ replaced line.now place text.now) }
{
    let before = place.column.saturating_sub(1);
    let mut bytes = first(line, before).to_vec(alloc)?;
    bytes.extend_from_slice(text)?;
    bytes.extend_from_slice(after(after(line, before), place.len))?;
    Ok(bytes)
}

/// Whether the first token of a line that is no operand stands after a part of it.
#[tactic(auto, unfolding(crate::specs::Mending::goes_further))]
fn goes_further(alloc: Global, place: Place, line: &[u8]) -> Made<bool>
    ensures { IfOk result (λ yes. yes ≡ goes_further place line.now) }
{
    let reading = read(alloc, line)?;
    let shape = shape_named(word_in(line, &reading));
    let next = operand_span(shape, reading.tokens.as_slice(), reading.places.as_slice());
    Ok(place.column.saturating_add(place.len) <= next.column)
}

impl<'a> FaultyLine<'a> {
    /// The first word of its statement.
    pub(crate) fn word(&self) -> &'a [u8] {
        word_in(self.line, self.reading)
    }

    /// The bytes that are meant.
    pub(crate) fn meant(&self) -> &'a [u8] {
        bytes_at(self.line, self.place)
    }

    /// The first byte of those, or the one after them.
    pub(crate) fn first(&self) -> u8 {
        byte_at(self.line, self.place)
    }

    /// The bytes of its statement before those.
    pub(crate) fn before(&self) -> &'a [u8] {
        let Place { column, .. } = word_place(self.line, self.reading.places.as_slice());
        let len = self.place.column.saturating_sub(column);
        bytes_at(self.line, Place { column, len })
    }

    /// Its tokens.
    pub(crate) fn tokens(&self) -> &'a [Token] {
        self.reading.tokens.as_slice()
    }

    /// The place from the one that is meant to the end of the last token.
    pub(crate) fn rest(&self) -> Place {
        let places = self.reading.places.as_slice();
        let last = span_at(places, places.len().saturating_sub(1));
        up_to_end(self.place.column, last)
    }

    /// Whether it can be read with a text in place of a part.
    pub(crate) fn reads_with(&self, place: Place, text: &[u8]) -> Made<bool>
        ensures { IfOk result (λ yes. yes ≡ reads self.now.section (replaced self.now.line.now place text.now)) }
    {
        let changed = replaced(self.alloc, self.line, place, text)?;
        reads(self.alloc, self.section, &changed)
    }

    /// Whether a text mends it in place of a part.
    pub(crate) fn mends(&self, place: Place, text: &[u8]) -> Made<bool>
        ensures { IfOk result (λ yes. yes ≡ mends self.now.kind self.now.section self.now.line.now place text.now) }
    {
        let mended = replaced(self.alloc, self.line, place, text)?;
        if reads(self.alloc, self.section, &mended)? {
            return Ok(true);
        }
        let len = text.len();
        match self.kind {
            LineFaultKind::Operand if text != " ".as_bytes() => {
                goes_further(self.alloc, Place { len, ..place }, &mended)
            }
            _ => Ok(false),
        }
    }
}
