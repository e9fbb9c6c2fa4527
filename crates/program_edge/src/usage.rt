//! The texts of `clap` for words that give no job.
ghost use Rattle.std.specs.Prelude.{◌≡◌, IfOk};
ghost use Rattle.std.specs.String.{string_bytes};
ghost use Rattle.clap.specs.Values.{kind_of};
ghost use Rattle.program_edge.specs.Telling.{is_shown};

use command_line::words::{UsageFault, request_of};
use shown_names::letters::is_printable;
use shown_names::name::shown_name;
use std::alloc::{AllocError, Global};
use std::fmt::Display;

// What is said where the words, as they are shown, have no fault of their own.
const UNPRINTABLE: &str = "error: an argument of the command line is not printable text\n";

/// The text of one of `clap`'s faults. It is made from the fault itself, so no other text is one.
#[derive(Debug, Drop)]
pub struct UsageText {
    error: clap::Error,
    text: String,
}

impl UsageText {
    /// The text of a fault of these words, which it has as they are shown.
    ///
    /// # Errors
    ///
    /// `AllocError` where memory was refused.
    pub fn new(alloc: Global, words: &[String], error: clap::Error) -> Result<UsageText, AllocError>
        ensures { IfOk result (λ usage. usage.error ≡ error) }
    {
        let text = shown_text(alloc, words, &error)?;
        Ok(UsageText { error, text })
    }

    /// The text.
    pub fn as_str(&self) -> &str
        ensures { result.now ≡ string_bytes self.now.text }
    {
        self.text.as_str()
    }

    /// Whether the text is help or the version, which were asked for, and not a mistake.
    pub fn is_shown(&self) -> bool
        ensures { result ≡ is_shown (kind_of self.now.error) }
    {
        !self.error.use_stderr()
    }
}

// What `clap` says of its fault of these words. It quotes words as they stand; so where one of them is no printable text,
// it is asked again, of the words as they are shown.
fn shown_text(alloc: Global, words: &[String], error: &clap::Error) -> Result<String, AllocError> {
    if words
        .iter()
        .all(|word| is_printable(word.as_str().as_bytes()))
    {
        return text_of(alloc, error);
    }
    let shown = shown_words(alloc, words)?;
    match request_of(alloc, shown.as_slice()) {
        Err(UsageFault::Words(told)) => text_of(alloc, &told),
        _ => String::from_str(alloc, UNPRINTABLE),
    }
}

// The words as they are shown.
fn shown_words(alloc: Global, words: &[String]) -> Result<Vec<String>, AllocError> {
    let mut shown = Vec::new(alloc);
    for word in words {
        shown.push(shown_name(alloc, word.as_str())?)?;
    }
    Ok(shown)
}

// What a value says of itself.
fn text_of<D: Display>(alloc: Global, value: &D) -> Result<String, AllocError> {
    format!(in alloc; "{value}")
}
