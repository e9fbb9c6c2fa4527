//! Texts that a compiler wrote.

use crate::advice::Made;
use crate::place::span_in;
use diagnostics::code::Code;
use diagnostics::diagnostic::{Diagnostic, Severity, Source};
use diagnostics::listed::Listed;
use diagnostics::words::Words;
use operand_forms::slices::after;
use program_tokens::span::TokenSpan as Place;
use std::alloc::Global;

/// The directives that compilers alone write.
const DIRECTIVES: [&str; 17] = [
    ".abicalls",
    ".cprestore",
    ".ent",
    ".file",
    ".fmask",
    ".frame",
    ".gnu_attribute",
    ".ident",
    ".loc",
    ".mask",
    ".module",
    ".nan",
    ".option",
    ".size",
    ".type",
    ".cfi_startproc",
    ".cfi_endproc",
];

/// The most lines with such directives that a text may have which nobody takes for a compiler's.
const MOST_BY_HAND: usize = 5;

/// Where the first word of a line stands, if a compiler wrote it. Most words have no dot: they are not compared.
fn compiled_place(row: &[u8]) -> Option<Place> {
    let blanks = row.iter().take_while(|byte| matches!(**byte, b' ' | b'\t'));
    let before = blanks.count();
    let mut words = after(row, before).split(|byte| matches!(*byte, b' ' | b'\t' | b'\r'));
    let word = words.next()?;
    let mut directives = DIRECTIVES.iter();
    let is_compiled = word.starts_with(b".") && directives.any(|it| it.as_bytes() == word);
    let column = before.saturating_add(1);
    let len = word.len();
    is_compiled.then_some(Place { column, len })
}

/// That a compiler wrote the text of these lines, if it did.
pub(crate) fn compiled_note(alloc: Global, rows: &[&[u8]]) -> Made<Option<Diagnostic>> {
    let mut span = None;
    let mut count: usize = 0;
    let mut line: u32 = 0;
    for row in rows {
        line = line.saturating_add(1);
        if let Some(place) = compiled_place(row) {
            span = span.or(Some(span_in(line, place)));
            count = count.saturating_add(1);
        }
    }
    if count <= MOST_BY_HAND {
        return Ok(None);
    }
    let message =
        "this is a compiler's output: compiler/c2ms.py FILE.s -o NEW.s makes a program with marks of it";
    Ok(Some(Diagnostic {
        severity: Severity::Note,
        code: Code::More,
        source: Source::Program,
        span,
        message: Words::of(alloc, message)?,
        notes: Listed::new(Vec::new(alloc)),
        help: None,
    }))
}

/// A diagnostic without what it says to do, if that is said in words alone.
pub(crate) fn in_short(said: &mut Diagnostic) {
    let help = said.help.as_ref();
    if help.is_some_and(|help| help.replacements.as_slice().is_empty()) {
        said.help = None;
    }
}
