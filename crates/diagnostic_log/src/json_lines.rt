//! Diagnostics as lines of JSON: an object for each.

use crate::paths::{is_listed, left_out};
use crate::results::severity_word;
use diagnostics::diagnostic::{Diagnostic, Help, Note, Severity, Source, Span};
use diagnostics::files::Files;
use json_text::{JsonText, Written};
use std::alloc::{AllocError, Global};

/// Adds where a part of a line is, or that none is meant.
fn write_place(out: &mut JsonText, span: Option<Span>) -> Written {
    let Some(span) = span else {
        out.null("line")?;
        out.null("column")?;
        return out.null("width");
    };
    out.number("line", span.line as usize)?;
    out.number("column", span.column)?;
    out.number("width", span.width)
}

/// Adds a note.
fn write_note(out: &mut JsonText, note: &Note) -> Written {
    let path = note.path.as_slice();
    out.begin()?;
    write_place(out, note.span)?;
    out.text("message", note.message.as_str())?;
    out.list("path")?;
    for (number, span) in path.iter().enumerate() {
        if is_listed(path, number) {
            out.begin()?;
            write_place(out, Some(*span))?;
            out.end()?;
        }
    }
    out.end_list()?;
    out.number("left_out", left_out(path))?;
    out.end()
}

/// Adds what to do, if that is given; and where all that is to be written makes the marks right, that it does.
fn write_help(out: &mut JsonText, help: &Option<Help>, mends: bool) -> Written {
    let Some(help) = help else {
        return out.null("help");
    };
    out.object("help")?;
    out.text("message", help.message.as_str())?;
    out.list("replacements")?;
    for change in help.replacements.as_slice() {
        out.begin()?;
        write_place(out, Some(change.span))?;
        out.text("text", change.text.as_str())?;
        out.end()?;
    }
    out.end_list()?;
    if mends && !help.replacements.as_slice().is_empty() {
        out.boolean("makes_marks_right", true)?;
    }
    out.end()
}

/// The line of a diagnostic of a file of this name. `mends` where what helps say of the marks makes them right.
fn line_of(
    alloc: Global,
    file: &str,
    said: &Diagnostic,
    mends: bool,
) -> Result<Vec<u8>, AllocError> {
    let mut out = JsonText::new(alloc);
    out.begin()?;
    out.number("version", 1)?;
    out.text("severity", severity_word(said.severity))?;
    out.text("code", said.code.id())?;
    out.text("file", file)?;
    write_place(&mut out, said.span)?;
    out.text("message", said.message.as_str())?;
    out.list("notes")?;
    for note in said.notes.as_slice() {
        write_note(&mut out, note)?;
    }
    out.end_list()?;
    let is_of_marks = said.source == Source::Program && said.severity == Severity::Error;
    write_help(&mut out, &said.help, mends && is_of_marks)?;
    out.end()?;
    out.into_line()
}

/// The diagnostics about these texts as lines of JSON: an object for each, in order. `mends` tells whether all that their
/// helps propose to write makes the marks right.
///
/// # Errors
///
/// `AllocError` where memory was refused.
pub fn lines_text(
    alloc: Global,
    files: &Files<'_>,
    diagnostics: &[Diagnostic],
    mends: bool,
) -> Result<Vec<u8>, AllocError> {
    let mut text = Vec::new(alloc);
    for said in diagnostics {
        let file = files.text_of(said.source).name;
        text.extend_from_slice(line_of(alloc, file, said, mends)?.as_slice())?;
    }
    Ok(text)
}
