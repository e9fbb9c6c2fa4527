//! What is said of a line that cannot be read, and what to do about it: rows by what is wrong.

ghost use Rattle.std.specs.Prelude.{IfOk};
ghost use Rattle.std.specs.List.{All};
ghost use Rattle.text_diagnostics.specs.Mending.{Mends};

use crate::advice::{Made, filled};
use crate::faulty_line::FaultyLine;
use crate::line_fix::{dotted_fix, fixes, rest_fix};
use crate::place::span_in;
use diagnostics::diagnostic::Help;
use diagnostics::helps::{by_text, in_words};
use diagnostics::quotation::{as_shown, quoted};
use diagnostics::words;
use diagnostics::words::Words;
use operand_forms::foreign_words::{instead, operand_instead};
use operand_forms::line_fault::LineFaultKind;
use operand_forms::line_place::shape_named;
use operand_forms::meant::{is_directive, mark_index, number_index};
use operand_forms::own_words::own_words;
use operand_forms::shape::{form_text, range_text, shape_of, takes_none};
use operand_forms::slices::{after, first};
use program_statements::statement::Section;
use program_tokens::span::TokenSpan as Place;
use program_tokens::token::{Mark, Token};
use std::fmt::Write;

/// What is wrong with a line.
pub(crate) fn line_message(wrong: &FaultyLine<'_>) -> Made<Words> {
    let first = wrong.first();
    let row = match wrong.kind {
        LineFaultKind::NotAscii if first == b'\r' => "a CR is not allowed here",
        LineFaultKind::NotAscii => "a program text cannot have the byte {byte}",
        LineFaultKind::Token => match first {
            b'$' => "there is no register {meant}",
            b'!' => "there is no mark {meant}",
            _ => "this is not a name, a register or a number: {meant}",
        },
        LineFaultKind::Mnemonic if shape_of(wrong.meant()).is_none() => {
            "there is no instruction or directive {meant}"
        }
        LineFaultKind::Mnemonic => match wrong.section {
            Section::Text => ".text cannot hold {meant}",
            Section::Data => ".data cannot hold {meant}",
            Section::Rodata => ".rodata cannot hold {meant}",
        },
        LineFaultKind::Operand if wrong.place.len > 0 => "{word} cannot take {meant} here",
        LineFaultKind::Operand if wrong.reads_with(wrong.place, b")")? => "`)` is missing",
        LineFaultKind::Operand => "{word} needs more operands",
        LineFaultKind::Number => "{meant} is out of its range",
        LineFaultKind::Mark if is_directive(wrong.tokens()) => {
            "a directive cannot have the mark {meant}"
        }
        LineFaultKind::Mark => match bad_mark(wrong) {
            Some(Mark::Unknown) => "there is no mark {meant}",
            Some(Mark::Forward) => "the line has a second {meant}",
            _ => "the line has a second stop, {meant}",
        },
    };
    let words = [
        ("word", quoted(wrong.alloc, wrong.word())?),
        ("meant", quoted(wrong.alloc, wrong.meant())?),
        ("byte", words!(in wrong.alloc; "{first}")?),
    ];
    filled(wrong.alloc, row, &words)
}

/// The mark that cannot stand where it does.
fn bad_mark(wrong: &FaultyLine<'_>) -> Option<Mark> {
    match wrong.tokens().get(mark_index(wrong.tokens())) {
        Some(Token::Mark(mark)) => Some(*mark),
        _ => None,
    }
}

/// What tokens that begin with this byte are.
fn token_help(first: u8) -> &'static str {
    match first {
        b'$' => "a register is $0 to $31 or has a name, such as $sp or $t0",
        b'@' => "a place is @ and decimal digits, such as @7",
        b'-' | b'0'..=b'9' => {
            "a number is decimal digits, or 0x and hexadecimal digits, such as -4 or 0x1f; a name begins with a letter or _"
        }
        b'_' | b'a'..=b'z' | b'A'..=b'Z' => "a name has at most 32 letters, digits and _",
        b'!' => "a mark is !f, !s, !st or !sn, in small letters",
        b'.' => "a label begins with a letter or _; a directive has small letters",
        _ => "a line has names, registers, numbers, places, directives, marks and , : = ( ) -",
    }
}

/// What to do about a byte that cannot stand where it does: 239 begins a byte order mark.
fn byte_help(byte: u8) -> &'static str {
    match byte {
        239 => "save the file as plain ASCII, without a byte order mark",
        b'\r' => "a CR is allowed only directly before the end of a line",
        0..=127 => "a program has printable ASCII characters, spaces and tabs",
        _ => "write an ASCII character in its place, such as - for a dash",
    }
}

/// What to do about what is no token.
fn token_row(wrong: &FaultyLine<'_>) -> &'static str {
    let own = instead(wrong.word()).or(instead(wrong.meant()));
    own.unwrap_or(token_help(wrong.first()))
}

/// What to do about a word that begins no statement of its section.
fn word_row(wrong: &FaultyLine<'_>) -> Made<&'static str> {
    if shape_of(wrong.meant()).is_some() {
        return Ok(match wrong.section {
            Section::Text => "write .data before it and its label, and .text after it",
            Section::Data | Section::Rodata => "write .text before it and its label",
        });
    }
    if let Some(text) = instead(wrong.meant()) {
        return Ok(text);
    }
    let column = wrong.place.column.saturating_add(wrong.place.len);
    let behind = Place { column, len: 0 };
    if wrong.reads_with(behind, b":")? {
        return Ok("if this is to be a label, write {meant}: with a colon");
    }
    if matches!(wrong.meant(), [b'0'..=b'9', ..]) {
        return Ok("there are no numbered labels: write a name that begins with a letter or _");
    }
    Ok(match wrong.section {
        Section::Text => {
            ".text holds instructions; .start, .task and section lines are allowed anywhere"
        }
        Section::Data | Section::Rodata => {
            ".data and .rodata hold .word, .byte and .space; .start, .task and section lines are allowed anywhere"
        }
    })
}

/// What to do about an operand that does not fit: a form that the assembler reads.
fn operand_row(wrong: &FaultyLine<'_>) -> &'static str {
    let shape = shape_named(wrong.word());
    match operand_instead(wrong.word(), form_text(shape), wrong.meant()) {
        Some(text) => text,
        None if takes_none(shape) => "{word} takes no operand",
        None => "write it as in {word}{form}",
    }
}

/// The range of a number.
fn number_row(wrong: &FaultyLine<'_>) -> &'static str {
    let shape = shape_named(wrong.word());
    match wrong.tokens().get(number_index(shape, wrong.tokens())) {
        Some(Token::Index(_)) => "a place is @0 to @4096",
        _ => range_text(shape),
    }
}

/// What to do about a mark.
fn mark_row(wrong: &FaultyLine<'_>) -> &'static str {
    if is_directive(wrong.tokens()) {
        return "remove it: only instructions have marks";
    }
    match bad_mark(wrong) {
        Some(Mark::Unknown) => instead(wrong.meant()).unwrap_or(
            "the marks are !f (forward), !s (stop), !st (stop if taken) and !sn (stop if not taken)",
        ),
        Some(Mark::Forward) => "write !f once",
        _ => "keep one stop: !s stops always, !st if the branch is taken, !sn if it is not",
    }
}

/// What to do about operands that end too early before a comment with a number, if it is meant: other assemblers write # before
/// a number.
fn comment_words(wrong: &FaultyLine<'_>) -> Made<Option<Words>> {
    let rest = after(wrong.line, wrong.place.column.saturating_sub(1));
    let begin = rest.iter().take_while(|byte| **byte != b'#').count();
    let comment = after(rest, begin.saturating_add(1));
    let letters = comment
        .iter()
        .take_while(|byte| byte.is_ascii_alphanumeric() || **byte == b'-');
    let number = first(comment, letters.count());
    if wrong.place.len > 0 || !matches!(number, [b'0'..=b'9' | b'-', ..]) {
        return Ok(None);
    }
    let mut text = b" ".to_vec(wrong.alloc)?;
    text.extend_from_slice(number)?;
    if !wrong.mends(wrong.place, &text)? {
        return Ok(None);
    }
    let shown = as_shown(wrong.alloc, number)?;
    words!(in wrong.alloc; "# begins a comment: write {shown}").map(Some)
}

/// What to do about a line, in its own words, where they are known.
fn own_line(wrong: &FaultyLine<'_>) -> Made<Option<Words>> {
    let commented = match wrong.kind {
        LineFaultKind::NotAscii | LineFaultKind::Mark => return Ok(None),
        LineFaultKind::Mnemonic if shape_of(wrong.meant()).is_some() => return Ok(None),
        LineFaultKind::Operand => comment_words(wrong)?,
        _ => None,
    };
    match commented {
        Some(words) => Ok(Some(words)),
        None => own_words(wrong.alloc, wrong.line, wrong.reading),
    }
}

/// What to do about a line, in words.
fn line_words(wrong: &FaultyLine<'_>) -> Made<Words> {
    if let Some(words) = own_line(wrong)? {
        return Ok(words);
    }
    let row = match wrong.kind {
        LineFaultKind::NotAscii => byte_help(wrong.first()),
        LineFaultKind::Token => token_row(wrong),
        LineFaultKind::Mnemonic => word_row(wrong)?,
        LineFaultKind::Operand => operand_row(wrong),
        LineFaultKind::Number => number_row(wrong),
        LineFaultKind::Mark => mark_row(wrong),
    };
    let form = form_text(shape_named(wrong.word()));
    let words = [
        ("word", as_shown(wrong.alloc, wrong.word())?),
        ("meant", as_shown(wrong.alloc, wrong.meant())?),
        ("form", Words::of(wrong.alloc, form)?),
    ];
    filled(wrong.alloc, row, &words)
}

/// The help that names the one text that mends a line.
fn fix_row(text: &[u8]) -> &'static str {
    match text {
        b" " => "remove it",
        [b',', ..] => "a comma is missing: write {fix}",
        [b'!', ..] => "write {fix}",
        [b'0'..=b'9', ..] => "numbers are decimal, or hexadecimal after 0x: write {fix}",
        _ => "did you mean {fix}?",
    }
}

/// The help that says what is to stand from a place on to the end of the line.
fn rest_row(kind: LineFaultKind, text: &[u8]) -> &'static str {
    match (kind, text) {
        (LineFaultKind::Operand, [b' ', ..]) => "no comma comes before a mark: write {front}{fix}",
        (LineFaultKind::Operand, _) => "one comma separates two operands: write {fix}",
        _ => "lists have no braces: write {fix}",
    }
}

/// A row that names a text, and what stands before the bytes that are meant.
fn fix_words(wrong: &FaultyLine<'_>, row: &'static str, text: &str) -> Made<Words> {
    let words = [
        ("front", as_shown(wrong.alloc, wrong.before())?),
        ("fix", Words::of(wrong.alloc, text)?),
    ];
    filled(wrong.alloc, row, &words)
}

/// That one of several texts may be meant.
fn either(wrong: &FaultyLine<'_>, first: &Words, others: &[Words]) -> Made<Words> {
    let mut text = String::new(wrong.alloc);
    text.push_str(first.as_str())?;
    for other in others {
        write!(text, " or {other}")?;
    }
    fix_words(wrong, "did you mean {fix}?", text.as_str())
}

/// What to do about the line of this number: a text that mends it, if there is one alone, or words.
pub(crate) fn line_help(number: u32, wrong: &FaultyLine<'_>) -> Made<Help>
    ensures { IfOk result (λ help. All (Mends wrong.now.kind wrong.now.section wrong.now.line.now) help.replacements) }
{
    let alloc = wrong.alloc;
    if let Some((place, text)) = dotted_fix(wrong)? {
        let row = "a name has no dots: write {fix}, here and wherever it is used";
        let message = fix_words(wrong, row, text.as_str())?;
        return by_text(alloc, message, span_in(number, place), text);
    }
    let rest = wrong.rest();
    if let Some(text) = rest_fix(wrong, rest)? {
        let row = rest_row(wrong.kind, text.as_str().as_bytes());
        let message = fix_words(wrong, row, text.as_str())?;
        return by_text(alloc, message, span_in(number, rest), text);
    }
    let texts = fixes(wrong)?;
    match texts.as_slice() {
        [] => Ok(in_words(alloc, line_words(wrong)?)),
        [text] => {
            let row = fix_row(text.as_str().as_bytes());
            let message = fix_words(wrong, row, text.as_str())?;
            let text = Words::of(alloc, text.as_str())?;
            by_text(alloc, message, span_in(number, wrong.place), text)
        }
        [first, others @ ..] => Ok(in_words(alloc, either(wrong, first, others)?)),
    }
}
