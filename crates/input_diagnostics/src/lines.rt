//! The lines of a text, and the numbers in them.

use std::alloc::{AllocError, Global};

/// The lines of a text, each without its LF, which the last may lack.
pub(crate) fn lines_of(alloc: Global, text: &[u8]) -> Result<Vec<&[u8]>, AllocError> {
    let lines = text.split_inclusive(|byte| *byte == b'\n');
    lines
        .map(|line| line.strip_suffix(b"\n").unwrap_or(line))
        .collect(alloc)
}

/// The line of this number, counted from 1; nothing where there is none.
pub(crate) fn row_at<'a>(rows: &[&'a [u8]], number: usize) -> &'a [u8] {
    match rows.get(number.saturating_sub(1)) {
        Some(row) => row,
        None => &[],
    }
}

/// What stands after the first `count` bytes.
pub(crate) fn after(row: &[u8], count: usize) -> &[u8] {
    &row[count.min(row.len())..]
}

/// The number that digits spell in a base of at most 16, if it has 32 bits at most.
pub(crate) fn number_in(digits: &[u8], base: u32) -> Option<u32> {
    if digits.is_empty() {
        return None;
    }
    let mut value: u32 = 0;
    for byte in digits {
        let digit = char::from(*byte).to_digit(16)?;
        if digit >= base {
            return None;
        }
        value = value.checked_mul(base)?.checked_add(digit)?;
    }
    Some(value)
}

/// The number that a word spells, if it has at most `most` digits and no leading zeros.
pub(crate) fn decimal_in(word: &[u8], most: usize) -> Option<u32> {
    if word.len() > most || matches!(word, [b'0', _, ..]) {
        return None;
    }
    number_in(word, 10)
}
