//! A certificate or a script of events that is given as a program.

ghost use Rattle.std.specs.Prelude.{◌≡◌, map as each, IfOk};
ghost use Rattle.std.specs.List.{list_any};
ghost use Rattle.std.specs.Str.{bytes_eq};
ghost use Rattle.diagnostics.specs.declared.diagnostic.Source.TheVariants.{Program};
ghost use Rattle.input_diagnostics.specs.Advice.{IsErrorIn};
ghost use Rattle.input_diagnostics.specs.MistakenTexts.{first_row, mistaken_kind};

use crate::advice::{advice, span};
use diagnostics::code::Code;
use diagnostics::diagnostic::{Diagnostic, Source};
use event_script::bad_line::first_word;
use event_script::reading::next_line;
use std::alloc::{AllocError, Global};

/// The words that events begin with.
pub(crate) const VERBS: [&str; 8] = [
    "assign", "exec", "transfer", "drain", "squash", "retire", "fault", "drop",
];

/// The kind of a text that was given as a program and is none.
#[derive(Clone, Copy, Debug, PartialEq, Eq)]
pub enum Mistaken {
    /// A certificate.
    Certificate,
    /// A script of events.
    Script,
}

/// The first line of a text.
fn first_row(text: &[u8]) -> &[u8]
    ensures { result.now ≡ first_row text.now }
{
    if text.is_empty() {
        return text;
    }
    let (line, _) = next_line(text);
    line
}

/// Whether a word is one of some words.
fn is_one_of(word: &[u8], words: &[&str]) -> bool
    ensures { result ≡ list_any (bytes_eq word.now) (each (λ other. other.now) words.now) }
{
    for other in words {
        if word == other.as_bytes() {
            return true;
        }
    }
    false
}

/// The kind of a text that was given as a program, by its beginning; `None` where it begins neither as a certificate, with
/// `cert `, nor as an event script, with the name of an event.
pub fn mistaken_kind(text: &[u8]) -> Option<Mistaken>
    ensures { result ≡ mistaken_kind text.now }
{
    if text.starts_with(b"cert ") {
        return Some(Mistaken::Certificate);
    }
    if is_one_of(first_word(first_row(text)), &VERBS) {
        return Some(Mistaken::Script);
    }
    None
}

/// The diagnostic for a text of this kind that was given as a program.
///
/// # Errors
///
/// `AllocError` where memory was refused.
pub fn mistaken_error(alloc: Global, kind: Mistaken, text: &[u8]) -> Result<Diagnostic, AllocError>
    ensures { IfOk result (IsErrorIn Program 1) }
{
    let row = match kind {
        Mistaken::Certificate => advice(
            "this is a certificate, not a program",
            "multiscalar explain PROGRAM --certificate FILE explains it",
        ),
        Mistaken::Script => advice(
            "this is a script of events, not a program",
            "multiscalar explain PROGRAM --script FILE explains it",
        ),
    };
    let at = span(1, 0, first_row(text).len());
    let said = row.at(alloc, Source::Program, Code::Mnemonic, at, &[])?;
    Ok(said)
}
