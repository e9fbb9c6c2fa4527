//! What to write in a line that cannot be read.

ghost use Rattle.std.specs.Prelude.{◌≡◌, true, IfOk, IfSome};
ghost use Rattle.std.specs.List.{All};
ghost use Rattle.text_diagnostics.specs.Mending.{mends};

use crate::advice::Made;
use crate::faulty_line::FaultyLine;
use diagnostics::quotation::as_shown;
use diagnostics::words::Words;
use operand_forms::bytes::{byte_at, bytes_at};
use operand_forms::candidates::candidates;
use operand_forms::line_fault::LineFaultKind;
use operand_forms::slices::{after, first};
use program_tokens::span::TokenSpan as Place;

/// The most bytes that are written anew at the end of a line, as much as a message quotes.
const MOST_WRITTEN: usize = 40;

/// What stands from the place on, with one comma before each operand and a space before each mark.
fn separated(wrong: &FaultyLine<'_>) -> Made<Vec<u8>> {
    let mut text = Vec::new(wrong.alloc);
    for place in wrong.reading.places.as_slice() {
        let first = byte_at(wrong.line, *place);
        if place.column >= wrong.place.column && first != b',' {
            text.push(if first == b'!' { b' ' } else { b',' })?;
            text.extend_from_slice(bytes_at(wrong.line, *place))?;
        }
    }
    Ok(text)
}

/// Whether only marks and commas stand from the place on.
fn has_marks_alone(wrong: &FaultyLine<'_>) -> bool {
    wrong.reading.places.as_slice().iter().all(|place| {
        place.column < wrong.place.column || matches!(byte_at(wrong.line, *place), b',' | b'!')
    })
}

/// Whether the commas from the place on are to be written anew: where one comma more does not do, or one before a mark less.
fn has_wrong_commas(wrong: &FaultyLine<'_>) -> Made<bool> {
    match wrong.first() {
        b'!' => Ok(false),
        b',' => Ok(has_marks_alone(wrong) && !wrong.reads_with(wrong.place, b" ")?),
        _ => {
            let column = wrong.place.column;
            Ok(!wrong.reads_with(Place { column, len: 0 }, b",")?)
        }
    }
}

/// What stands from the place on without braces.
fn without_braces(wrong: &FaultyLine<'_>) -> Made<Vec<u8>> {
    let bytes = bytes_at(wrong.line, wrong.rest()).iter().copied();
    bytes
        .filter(|byte| !matches!(*byte, b'{' | b'}'))
        .collect(wrong.alloc)
}

/// A text as it is shown, where it mends a line in this place.
fn judged(wrong: &FaultyLine<'_>, place: Place, text: &[u8]) -> Made<Option<Words>>
    ensures { IfOk result (λ fix. IfSome fix (λ words. mends wrong.now.kind wrong.now.section wrong.now.line.now place words ≡ true)) }
{
    let words = as_shown(wrong.alloc, text)?;
    if wrong.mends(place, words.as_str().as_bytes())? {
        return Ok(Some(words));
    }
    Ok(None)
}

/// Whether a name with dots may have this byte.
fn is_dotted(byte: u8) -> bool {
    matches!(byte, b'.' | b'_' | b'0'..=b'9' | b'a'..=b'z' | b'A'..=b'Z')
}

/// The name with dots that stands where a line is wrong, if one does.
fn dotted_place(wrong: &FaultyLine<'_>) -> Option<Place> {
    let at = wrong.place.column.saturating_sub(1);
    let before = first(wrong.line, at).iter().rev();
    let front = before.take_while(|byte| is_dotted(**byte)).count();
    let begin = at.saturating_sub(front);
    let rest = after(wrong.line, begin);
    let len = rest.iter().take_while(|byte| is_dotted(**byte)).count();
    let name = first(rest, len);
    let begins = matches!(name, [b'_' | b'a'..=b'z' | b'A'..=b'Z', ..]);
    let column = begin.saturating_add(1);
    (begins && name.contains(&b'.')).then_some(Place { column, len })
}

/// A name with dots, and what is to stand in its place: the name with `_` for each dot.
pub(crate) fn dotted_fix(wrong: &FaultyLine<'_>) -> Made<Option<(Place, Words)>>
    ensures { IfOk result (λ fix. IfSome fix (λ found. mends wrong.now.kind wrong.now.section wrong.now.line.now found.0 found.1 ≡ true)) }
{
    let Some(place) = dotted_place(wrong) else {
        return Ok(None);
    };
    let name = bytes_at(wrong.line, place).iter();
    let letters = name.map(|byte| if *byte == b'.' { b'_' } else { *byte });
    let text: Vec<u8> = letters.collect(wrong.alloc)?;
    match judged(wrong, place, &text)? {
        Some(words) => Ok(Some((place, words))),
        None => Ok(None),
    }
}

/// What is to stand from a line's place on to its end: operands with all their commas, marks without commas, or lists without
/// braces.
pub(crate) fn rest_fix(wrong: &FaultyLine<'_>, rest: Place) -> Made<Option<Words>>
    ensures { IfOk result (λ fix. IfSome fix (λ words. mends wrong.now.kind wrong.now.section wrong.now.line.now rest words ≡ true)) }
{
    if rest.len > MOST_WRITTEN {
        return Ok(None);
    }
    let text = match wrong.kind {
        LineFaultKind::Operand if has_wrong_commas(wrong)? => separated(wrong)?,
        LineFaultKind::Token if matches!(wrong.word(), b".task" | b"release") => {
            without_braces(wrong)?
        }
        _ => return Ok(None),
    };
    let is_empty_list = text.is_empty() && matches!(wrong.kind, LineFaultKind::Token);
    let words = as_shown(wrong.alloc, &text)?;
    if !is_empty_list && wrong.reads_with(rest, words.as_str().as_bytes())? {
        return Ok(Some(words));
    }
    Ok(None)
}

/// The texts that mend a line, in place of what is wrong in it.
pub(crate) fn fixes(wrong: &FaultyLine<'_>) -> Made<Vec<Words>>
    ensures { IfOk result (λ list. All (λ words. mends wrong.now.kind wrong.now.section wrong.now.line.now wrong.now.place words ≡ true) list.items) }
{
    let mut list = Vec::new(wrong.alloc);
    for text in candidates(wrong.alloc, wrong.kind, wrong.meant())? {
        if let Some(words) = judged(wrong, wrong.place, &text)? {
            list.push(words)?;
        }
    }
    Ok(list)
}
