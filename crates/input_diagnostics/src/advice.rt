//! Advice as rows of a table: what is said of a mistake, what to do, and what to write in the marked place.

ghost use Rattle.std.specs.Prelude.{◌≡◌, IfOk};
ghost use Rattle.input_diagnostics.specs.Advice.{IsErrorAt, span};

use crate::lines::after;
use diagnostics::code::Code;
use diagnostics::diagnostic::{Diagnostic, Help, Replacement, Severity, Source, Span};
use diagnostics::listed::Listed;
use diagnostics::words::Words;
use std::alloc::{AllocError, Global};

/// The most diagnostics that are shown of one text; of the rest only the number is shown.
pub(crate) const MOST_SHOWN: usize = 1_000;

/// The command that makes a certificate.
pub(crate) const ANEW: &str = "make a new one: multiscalar annotate --emit keep PROGRAM > CERT";

/// What is said of a kind of mistake. In each text `{name}` stands for a word that the place gives, and in `help`
/// `{fix}` for what is written.
#[derive(Clone, Copy)]
pub(crate) struct Row {
    /// What is wrong.
    pub(crate) says: &'static str,
    /// What to do.
    pub(crate) help: &'static str,
    /// What to write, where that mends it.
    pub(crate) fix: Option<&'static str>,
    /// Where to write it, if not in the marked place.
    pub(crate) mended: Option<Span>,
}

/// A row whose help is words alone.
pub(crate) fn advice(says: &'static str, help: &'static str) -> Row {
    Row {
        says,
        help,
        fix: None,
        mended: None,
    }
}

/// A row that says what to write.
pub(crate) fn mend(says: &'static str, help: &'static str, fix: &'static str) -> Row {
    Row {
        fix: Some(fix),
        ..advice(says, help)
    }
}

/// A template with each `{name}` replaced by its word; `{fix}` by `fix`.
fn filled(
    alloc: Global,
    template: &str,
    words: &[(&str, Words)],
    fix: &str,
) -> Result<Words, AllocError> {
    let mut text = String::new(alloc);
    for piece in template.split('{') {
        match piece.split_once('}') {
            Some((name, behind)) => {
                let word = words.iter().find(|word| word.0 == name);
                text.push_str(word.map_or(fix, |word| word.1.as_str()))?;
                text.push_str(behind)?;
            }
            None => text.push_str(piece)?,
        }
    }
    Ok(Words::new(text))
}

impl Row {
    /// The error that this row is about, at a place.
    pub(crate) fn at(
        self,
        alloc: Global,
        source: Source,
        code: Code,
        span: Span,
        words: &[(&str, Words)],
    ) -> Result<Diagnostic, AllocError>
        ensures { IfOk result (IsErrorAt source code span) }
    {
        let mut replacements = Vec::new(alloc);
        let text = filled(alloc, self.fix.unwrap_or(""), words, "")?;
        let help = filled(alloc, self.help, words, text.as_str())?;
        let message = filled(alloc, self.says, words, "")?;
        if self.fix.is_some() {
            let span = self.mended.unwrap_or(span);
            replacements.push(Replacement { span, text })?;
        }
        Ok(Diagnostic {
            severity: Severity::Error,
            code,
            source,
            span: Some(span),
            message,
            notes: Listed::new(Vec::new(alloc)),
            help: Some(Help {
                message: help,
                replacements: Listed::new(replacements),
            }),
        })
    }
}

/// A part of a line with `before` bytes in front of it.
pub(crate) fn span(line: usize, before: usize, width: usize) -> Span
    ensures { result ≡ span line before width }
{
    Span {
        line: u32::try_from(line).unwrap_or(u32::MAX),
        column: before.saturating_add(1),
        width,
    }
}

/// With which other lines a line is told together.
#[derive(Clone, Copy, Debug, PartialEq, Eq)]
pub(crate) enum Group {
    /// With none.
    Alone,
    /// With all lines of the text, which is a trace.
    Trace,
    /// With those that end with CR.
    Returns,
    /// With those that have what only `replay --strict` reads.
    Strict,
    /// With those that have a comment.
    Comments,
    /// With those whose mask lacks zeros in front.
    Incomplete,
}

/// What is wrong with a line: what is marked, by the bytes before it and its own, what is said of it, and the number
/// that is meant, if there is one.
#[derive(Clone, Copy)]
pub(crate) struct Slip {
    pub(crate) before: usize,
    pub(crate) width: usize,
    pub(crate) row: Row,
    pub(crate) group: Group,
    pub(crate) number: u32,
}

/// A slip of a line that is told alone.
pub(crate) fn marked(before: usize, width: usize, row: Row) -> Slip {
    Slip {
        before,
        width,
        row,
        group: Group::Alone,
        number: 0,
    }
}

impl Slip {
    /// The slip, told together with others.
    pub(crate) fn among(self, group: Group) -> Slip {
        Slip { group, ..self }
    }

    /// The slip where this number is meant.
    pub(crate) fn meaning(self, number: u32) -> Slip {
        Slip { number, ..self }
    }

    /// The bytes of a line that are marked.
    pub(crate) fn bytes(self, line: &[u8]) -> &[u8] {
        let rest = after(line, self.before);
        &rest[..self.width.min(rest.len())]
    }
}

/// How many bytes stand in front of the first space that separates no two words.
pub(crate) fn stray_space(line: &[u8]) -> Option<usize> {
    let mut is_word = false;
    for (before, byte) in line.iter().enumerate() {
        let is_space = *byte == b' ';
        if is_space && (!is_word || before + 1 == line.len()) {
            return Some(before);
        }
        is_word = !is_space;
    }
    None
}

/// What is said of a tab or a comma: that a space is meant, where it separates two words.
pub(crate) fn separator(line: &[u8], before: usize, says: &'static str) -> Slip {
    let sides = [before.saturating_sub(1), before.saturating_add(1)];
    let is_between = sides.iter().all(|place| match line.get(*place) {
        Some(byte) => !matches!(*byte, b' ' | b'\t' | b','),
        None => false,
    });
    let row = if is_between {
        mend(says, "write a space in its place", " ")
    } else {
        mend(says, "remove it", "")
    };
    marked(before, 1, row)
}

/// What is said of a line that ends with CR, if it does.
pub(crate) fn return_slip(line: &[u8]) -> Option<Slip> {
    let before = line.strip_suffix(b"\r")?.len();
    let row = advice(
        "the line ends with CR LF, and not with LF alone",
        "take the CR out of every line: tr -d '\\r' < OLD > NEW",
    );
    Some(marked(before, 1, row).among(Group::Returns))
}
