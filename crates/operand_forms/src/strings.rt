//! The bytes of a string, by which a string directive of other assemblers is written as a `.byte`.

use diagnostics::words;
use diagnostics::words::Words;
use std::alloc::{AllocError, Global};
use std::fmt::Write;

/// The parts of a line with a string.
#[derive(Clone, Copy, Debug, PartialEq, Eq)]
enum Part {
    /// What stands before the string.
    Before,
    /// The string.
    Inside,
    /// In the string, what stands after a `\`.
    Escaped,
    /// What stands after the string.
    After,
    /// A comment after it.
    Comment,
    /// What cannot stand where it does.
    Wrong,
}

/// The most letters of a string that are written as numbers.
const MOST: usize = 64;

/// The letter that one after `\` stands for.
fn escaped(letter: u8) -> Option<u8> {
    match letter {
        b'n' => Some(10),
        b't' => Some(9),
        b'r' => Some(13),
        b'"' | b'\\' => Some(letter),
        _ => None,
    }
}

/// The part of the line after a byte, and the letter of the string that the byte is.
fn next_part(part: Part, byte: u8) -> (Part, Option<u8>) {
    match part {
        Part::Before if byte == b'"' => (Part::Inside, None),
        Part::Inside => match byte {
            b'"' => (Part::After, None),
            b'\\' => (Part::Escaped, None),
            _ => (Part::Inside, Some(byte)),
        },
        Part::Escaped => match escaped(byte) {
            Some(letter) => (Part::Inside, Some(letter)),
            None => (Part::Wrong, None),
        },
        Part::After => match byte {
            b' ' | b'\t' => (Part::After, None),
            b'#' => (Part::Comment, None),
            _ => (Part::Wrong, None),
        },
        Part::Before | Part::Comment | Part::Wrong => (part, None),
    }
}

/// The letters of the string of a line, if the line ends after one whole string.
fn letters(alloc: Global, line: &[u8]) -> Result<Option<Vec<u8>>, AllocError> {
    let mut list = Vec::new(alloc);
    let mut part = Part::Before;
    for byte in line {
        let (next, letter) = next_part(part, *byte);
        part = next;
        if let Some(letter) = letter {
            list.push(letter)?;
        }
    }
    if matches!(part, Part::After | Part::Comment) {
        return Ok(Some(list));
    }
    Ok(None)
}

/// What is written in place of a line with a string directive, if the line has one string of at most 64 letters.
pub(crate) fn string_words(
    alloc: Global,
    word: &[u8],
    line: &[u8],
) -> Result<Option<Words>, AllocError> {
    let ends_in_zero = word == ".asciiz".as_bytes() || word == ".string".as_bytes();
    if !ends_in_zero && word != ".ascii".as_bytes() {
        return Ok(None);
    }
    let Some(mut bytes) = letters(alloc, line)? else {
        return Ok(None);
    };
    if bytes.len() > MOST {
        return Ok(None);
    }
    if ends_in_zero {
        bytes.push(0)?;
    }
    let [first, others @ ..] = bytes.as_slice() else {
        return Ok(None);
    };
    let mut numbers = String::new(alloc);
    write!(numbers, "{first}")?;
    for other in others {
        write!(numbers, ",{other}")?;
    }
    let words =
        words!(in alloc; "write .byte {numbers}, and before the next .word .space with the bytes that are missing to a multiple of 4")?;
    Ok(Some(words))
}
