//! Advice as rows of a table: what is said of a mistake, what to do, and what to write in its place.

use diagnostics::diagnostic::{Help, Span};
use diagnostics::helps::{by_text, in_words};
use diagnostics::words::Words;
use std::alloc::{AllocError, Global};

/// What is made, or `AllocError` where memory was refused.
pub(crate) type Made<T> = Result<T, AllocError>;

/// What is said of a kind of mistake. In each text `{name}` stands for a word that the place gives.
#[derive(Clone, Copy)]
pub(crate) struct Row {
    /// What is wrong.
    pub(crate) says: &'static str,
    /// What to do.
    pub(crate) help: &'static str,
    /// What to write, where that mends it.
    pub(crate) fix: Option<&'static str>,
}

/// A row whose help is words alone.
pub(crate) fn advice(says: &'static str, help: &'static str) -> Row {
    let fix = None;
    Row { says, help, fix }
}

/// A row that says what to write.
pub(crate) fn mend(says: &'static str, help: &'static str, fix: &'static str) -> Row {
    let fix = Some(fix);
    Row { says, help, fix }
}

/// A template with each `{name}` replaced by its word, and by nothing where there is none.
pub(crate) fn filled(alloc: Global, template: &str, words: &[(&str, Words)]) -> Made<Words> {
    let mut text = String::new(alloc);
    for piece in template.split('{') {
        match piece.split_once('}') {
            Some((name, behind)) => {
                let word = words.iter().find(|word| word.0 == name);
                text.push_str(word.map_or("", |word| word.1.as_str()))?;
                text.push_str(behind)?;
            }
            None => text.push_str(piece)?,
        }
    }
    Ok(Words::new(text))
}

impl Row {
    /// What a row says to do: to write its text at a place, where it has one.
    pub(crate) fn help(self, alloc: Global, span: Span, words: &[(&str, Words)]) -> Made<Help> {
        let message = filled(alloc, self.help, words)?;
        match self.fix {
            Some(fix) => by_text(alloc, message, span, filled(alloc, fix, words)?),
            None => Ok(in_words(alloc, message)),
        }
    }
}
