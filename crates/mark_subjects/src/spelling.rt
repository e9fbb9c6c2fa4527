//! How the text of a program writes its registers, and the labels by which messages name instructions.

use crate::mark_place::line_in;
use crate::parts::{first_of, rest_after};
use crate::subject::Made;
use annotated_asm::position::Position;
use diagnostics::words;
use diagnostics::words::Words;
use mips_instructions::number::Reg;
use program_tokens::line::line_tokens;
use program_tokens::span::read_spans;
use program_tokens::token::{Token, TokenFault};
use std::alloc::{AllocError, Global};
use task_descriptor::name::Name;

/// A register of the text, with how it is written there, such as `$8` or `$t0`.
#[derive(Drop)]
struct RegisterSpelling {
    register: Reg,
    word: Words,
}

/// Adds the registers of a line that are not there yet; of one that has a fault none.
fn add_line(alloc: Global, list: &mut Vec<RegisterSpelling>, line: &[u8]) -> Made<()> {
    let tokens = match line_tokens(alloc, line) {
        Ok(tokens) => tokens,
        Err(TokenFault::OutOfMemory) => return Err(AllocError),
        Err(_) => return Ok(()),
    };
    let mut places = Vec::new(alloc);
    read_spans(&mut places, line)?;
    for (token, place) in tokens.iter().zip(places.iter()) {
        if let Token::Register(register) = token {
            if list.iter().any(|known| known.register == *register) {
                continue;
            }
            let bytes = first_of(rest_after(line, place.column.saturating_sub(1)), place.len);
            let word = Words::of(alloc, str::from_utf8(bytes).unwrap_or(""))?;
            list.push(RegisterSpelling {
                register: *register,
                word,
            })?;
        }
    }
    Ok(())
}

/// Whether a text begins with the word of a register that is there.
fn begins_known(list: &[RegisterSpelling], text: &[u8]) -> bool {
    let digits = rest_after(text, 1);
    let end = digits.iter().position(|byte| !byte.is_ascii_alphanumeric());
    let word = first_of(text, end.unwrap_or(digits.len()).saturating_add(1));
    list.iter()
        .any(|known| known.word.as_str().as_bytes() == word)
}

/// Whether a line names no register that is not there.
fn has_known(list: &[RegisterSpelling], line: &[u8]) -> bool {
    line.iter().enumerate().all(|(place, byte)| *byte != b'$'
        || begins_known(list, rest_after(line, place)))
}

/// The names of all registers, register 0 first: each as the text first writes it; where it does not, by its number, HI and
/// LO as `$hi` and `$lo`.
pub(crate) fn names_in(alloc: Global, rows: &[&[u8]]) -> Made<Vec<Words>> {
    let mut spelled = Vec::new(alloc);
    for row in rows {
        if !has_known(&spelled, *row) {
            add_line(alloc, &mut spelled, *row)?;
        }
    }
    let names = (0..34u8).map(|number| {
        let mut spelled = spelled.iter();
        let first = spelled.find(|spelling| spelling.register.get() == number);
        match (first, number) {
            (Some(first), _) => Words::of(alloc, first.word.as_str()),
            (None, 32) => Words::of(alloc, "$hi"),
            (None, 33) => Words::of(alloc, "$lo"),
            (None, _) => words!(in alloc; "${number}"),
        }
    });
    names.try_collect(alloc)
}

/// The label at the front of the line of this number, or one that is all of it; a line that has a fault has none. Only a
/// line with a colon can have one.
fn label_in(alloc: Global, rows: &[&[u8]], number: u32, alone: bool) -> Made<Option<Name>> {
    let line = line_in(rows, number);
    if !line.contains(&b':') {
        return Ok(None);
    }
    let tokens = match line_tokens(alloc, line) {
        Ok(tokens) => tokens,
        Err(TokenFault::OutOfMemory) => return Err(AllocError),
        Err(_) => return Ok(None),
    };
    match tokens.as_slice() {
        [Token::Name(name), Token::Colon] => Ok(Some(*name)),
        [Token::Name(name), Token::Colon, ..] if !alone => Ok(Some(*name)),
        _ => Ok(None),
    }
}

/// The labels of the instructions at these positions of a text, in order: of each its line's label, or else the label that
/// is alone on the line above. Only the first of the instructions of a line has one.
pub(crate) fn labels_of(
    alloc: Global,
    rows: &[&[u8]],
    code: &[Position],
) -> Made<Vec<Option<Name>>> {
    let mut labels = Vec::new(alloc);
    let mut before = 0;
    for at in code {
        let mut label = None;
        if at.line != before {
            label = label_in(alloc, rows, at.line, false)?;
            if label.is_none() {
                label = label_in(alloc, rows, at.line.saturating_sub(1), true)?;
            }
        }
        labels.push(label)?;
        before = at.line;
    }
    Ok(labels)
}
