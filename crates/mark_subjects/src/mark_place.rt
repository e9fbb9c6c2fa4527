//! The places of an instruction's marks in its line.

use crate::parts::{first_of, rest_after};
use crate::subject::Subject;
use diagnostics::diagnostic::Span;

/// The line of this number, from 1; empty where there is none.
pub fn line_in<'a>(rows: &[&'a [u8]], number: u32) -> &'a [u8] {
    match rows.get(number.saturating_sub(1) as usize) {
        Some(line) => line,
        None => &[],
    }
}

/// The part of a line that begins some bytes after the beginning of another part, and has this width.
pub fn part(span: Span, before: usize, width: usize) -> Span {
    Span {
        line: span.line,
        column: span.column.saturating_add(before),
        width,
    }
}

/// The place, 0 bytes wide, at the end of a line.
pub fn line_end(subject: &Subject, line: u32) -> Span {
    Span {
        line,
        column: line_in(subject.rows(), line).len().saturating_add(1),
        width: 0,
    }
}

/// The bytes of an instruction.
pub(crate) fn bytes_of<'a>(subject: &'a Subject, index: u32) -> &'a [u8] {
    let span = subject.span(index);
    let line = line_in(subject.rows(), span.line);
    first_of(rest_after(line, span.column.saturating_sub(1)), span.width)
}

/// How many bytes stand before an instruction's first mark that begins with `!` and this letter; `None` if it has no such
/// mark.
pub(crate) fn mark_in(subject: &Subject, index: u32, letter: u8) -> Option<usize> {
    bytes_of(subject, index)
        .windows(2)
        .position(|two| matches!(two, [b'!', other] if *other == letter))
}

/// How many bytes of an instruction are before its first mark; `None` if it has no mark.
pub fn first_mark(subject: &Subject, index: u32) -> Option<usize> {
    let mut bytes = bytes_of(subject, index).iter();
    bytes.position(|byte| *byte == b'!')
}
