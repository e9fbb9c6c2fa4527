//! Diagnostics: reports of one mistake each, or of one thing that could be better.

use crate::code::Code;
use crate::listed::Listed;
use crate::words::Words;

/// A part of one line of a text.
#[derive(Clone, Copy, Debug, PartialEq, Eq)]
pub struct Span {
    /// The number of the line, from 1.
    pub line: u32,
    /// The column of its first byte, in bytes, from 1.
    pub column: usize,
    /// How many bytes it has; 0 is the place before the byte at `column`.
    pub width: usize,
}

/// How severe a diagnostic is.
#[derive(Clone, Copy, Debug, PartialEq, Eq)]
pub enum Severity {
    /// Something is wrong.
    Error,
    /// Something is right, but could be better.
    Warning,
    /// Something to know, such as how many more there are.
    Note,
}

/// The text that a diagnostic is about.
#[derive(Clone, Copy, Debug, PartialEq, Eq)]
pub enum Source {
    /// The program text.
    Program,
    /// The certificate.
    Certificate,
    /// The event script.
    Script,
}

/// A further place, in the same text, that shows what is reported.
#[derive(Debug, Drop)]
pub struct Note {
    /// The place; `None` where the note is about the text as a whole.
    pub span: Option<Span>,
    /// What it states: one sentence without a period, which begins with a lower-case letter.
    pub message: Words,
    /// The places on the path, in order; empty where there is no path.
    pub path: Listed<Span>,
}

/// A replacement for a part of the text that the diagnostic is about. At a span of width 0 it is inserted; an
/// empty text removes the span.
#[derive(Debug, Drop)]
pub struct Replacement {
    /// What is replaced.
    pub span: Span,
    /// What is put there. A line feed in it begins a line of its own.
    pub text: Words,
}

/// What to do about a mistake.
#[derive(Debug, Drop)]
pub struct Help {
    /// What to do, in words.
    pub message: Words,
    /// Where the remedy is exact, the changes that make it, which are made together; empty where it is not. No two
    /// of their spans have a byte in common.
    pub replacements: Listed<Replacement>,
}

/// A report of one mistake, or of one thing that could be better.
#[derive(Debug, Drop)]
pub struct Diagnostic {
    /// How severe it is.
    pub severity: Severity,
    /// What it is an instance of.
    pub code: Code,
    /// The text that it is about.
    pub source: Source,
    /// The part of that text that is meant; `None` where the text as a whole is.
    pub span: Option<Span>,
    /// The message: one sentence without a period, which begins with a lower-case letter.
    pub message: Words,
    /// Further places that show it, in the order in which they are reported.
    pub notes: Listed<Note>,
    /// What to do, if that can be stated.
    pub help: Option<Help>,
}
