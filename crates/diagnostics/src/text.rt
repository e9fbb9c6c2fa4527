//! The text form of diagnostics, as gcc and clang write it.

use crate::code::Code;
use crate::colour::{BOLD, Colour};
use crate::diagnostic::{Diagnostic, Note, Severity, Span};
use crate::excerpt::write_excerpt;
use crate::files::{Files, TextFile};
use shown_names::name::shown_name;
use std::alloc::{AllocError, Global};

/// The most places after the first in a path that is shown whole.
const LONGEST_REST: usize = 11;

/// How many of the places after the first are shown at either end of a longer path.
const SHOWN_OF_REST: usize = 5;

/// A text form that grows, and the text that is told of.
#[derive(Drop)]
struct Page<'a> {
    alloc: Global,
    colour: Colour,
    name: String,
    file: &'a TextFile<'a>,
    text: &'a mut String,
}

/// What a line calls itself, and in which style.
type Label = (&'static str, &'static str);

/// What a diagnostic calls itself: in red, magenta and cyan, all bold.
fn label_of(severity: Severity) -> Label {
    match severity {
        Severity::Error => ("error:", "1;31"),
        Severity::Warning => ("warning:", "1;35"),
        Severity::Note => ("note:", "1;36"),
    }
}

/// What a remedy calls itself: in green.
const HELP: Label = ("help:", "1;32");

/// Whether two places are one span.
fn is_same(place: Option<Span>, other: Option<Span>) -> bool {
    match (place, other) {
        (Some(place), Some(other)) => place == other,
        _ => false,
    }
}

/// Adds the number and the name of a rule or a fault in brackets, as the other subcommands give them, with its line
/// where they name it; nothing for what only `explain` finds.
fn write_code(text: &mut String, code: Code, span: Option<Span>) -> Result<(), AllocError> {
    if let Some(rule) = code.id().strip_prefix("rule") {
        return write!(text, " [rule {rule}]");
    }
    let Some((kind, fault)) = code.id().split_once('-') else {
        return Ok(());
    };
    let before = match kind {
        "refused" => " line ",
        "certificate" | "script" => " ",
        _ => return Ok(()),
    };
    if matches!(code, Code::Unfit) {
        return Ok(());
    }
    text.push_str(" [")?;
    for (index, word) in fault.split('-').enumerate() {
        text.push_str(if index > 0 { " " } else { "" })?;
        text.push_str(word)?;
    }
    match span {
        Some(span) if code.names_line() => write!(text, "{before}{}]", span.line),
        _ => text.push(']'),
    }
}

/// Adds further places of a path.
fn write_steps(text: &mut String, spans: &[Span]) -> Result<(), AllocError> {
    for span in spans {
        write!(text, " -> {}", span.line)?;
    }
    Ok(())
}

/// Adds a path: of more than twelve places the first six and the last five.
fn write_path(text: &mut String, path: &[Span]) -> Result<(), AllocError> {
    let [start, rest @ ..] = path else {
        return Ok(());
    };
    write!(text, ", on the path {}", start.line)?;
    if rest.len() <= LONGEST_REST {
        return write_steps(text, rest);
    }
    let last = rest.len() - SHOWN_OF_REST;
    write_steps(text, &rest[..SHOWN_OF_REST])?;
    write!(text, " -> ... {} more ...", last - SHOWN_OF_REST)?;
    write_steps(text, &rest[last..])
}

impl<'a> Page<'a> {
    /// Adds the place and the label that begin a line.
    fn heading(&mut self, span: Option<Span>, label: Label) -> Result<(), AllocError> {
        let (word, style) = label;
        self.colour.begin(self.text, BOLD)?;
        match span {
            Some(span) => write!(self.text, "{}:{}:{}:", self.name, span.line, span.column)?,
            None => write!(self.text, "{}:", self.name)?,
        }
        self.colour.end(self.text)?;
        self.text.push(' ')?;
        self.colour.begin(self.text, style)?;
        self.text.push_str(word)?;
        self.colour.end(self.text)?;
        self.text.push(' ')
    }

    /// Adds the line of a span, unless the excerpt before shows exactly this.
    fn excerpt(&mut self, before: Option<Span>, span: Option<Span>) -> Result<(), AllocError> {
        match span {
            Some(there) if !is_same(before, span) => {
                write_excerpt(self.alloc, self.text, self.colour, self.file.rows, there)
            }
            _ => Ok(()),
        }
    }

    /// Adds a note, after the excerpt of this place.
    fn note(&mut self, before: Option<Span>, note: &Note) -> Result<(), AllocError> {
        self.heading(note.span, label_of(Severity::Note))?;
        self.text.push_str(note.message.as_str())?;
        write_path(self.text, note.path.as_slice())?;
        self.text.push('\n')?;
        self.excerpt(before, note.span)
    }

    /// Adds a diagnostic: the message, the line, the notes, and what to do.
    fn diagnostic(&mut self, said: &Diagnostic) -> Result<(), AllocError> {
        self.heading(said.span, label_of(said.severity))?;
        self.colour.begin(self.text, BOLD)?;
        self.text.push_str(said.message.as_str())?;
        self.colour.end(self.text)?;
        write_code(self.text, said.code, said.span)?;
        self.text.push('\n')?;
        self.excerpt(None, said.span)?;
        let mut before = said.span;
        for note in said.notes.as_slice() {
            self.note(before, note)?;
            before = note.span;
        }
        let Some(help) = &said.help else {
            return Ok(());
        };
        let first = help.replacements.as_slice().first();
        self.heading(first.map_or(said.span, |change| Some(change.span)), HELP)?;
        self.text.push_str(help.message.as_str())?;
        self.text.push('\n')
    }
}

/// The text form of diagnostics, as gcc and clang write it: for each, what is wrong, its place, and the line with a caret
/// below the part that is meant; its notes; and its help. With `Colour::Never` it has no sequence that begins with ESC.
///
/// # Errors
///
/// `AllocError` where memory was refused.
pub fn text_of(
    alloc: Global,
    files: &Files<'_>,
    diagnostics: &[Diagnostic],
    colour: Colour,
) -> Result<String, AllocError> {
    let mut text = String::new(alloc);
    for said in diagnostics {
        let file = files.text_of(said.source);
        let mut page = Page {
            alloc,
            colour,
            name: shown_name(alloc, file.name)?,
            file,
            text: &mut text,
        };
        page.diagnostic(said)?;
    }
    Ok(text)
}
