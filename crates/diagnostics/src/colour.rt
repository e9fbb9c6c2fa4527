//! Colours of a terminal, by the sequences of ECMA-48 that select a graphic rendition.

use std::alloc::AllocError;

/// Whether a text uses the colours of a terminal.
#[derive(Clone, Copy, Debug, PartialEq, Eq)]
pub enum Colour {
    /// The text has no sequence that begins with ESC.
    Never,
    /// It has sequences that begin with ESC.
    Always,
}

/// What is bold.
pub(crate) const BOLD: &str = "1";

/// Carets and tildes: bold and green.
pub(crate) const CARET: &str = "1;32";

impl Colour {
    /// Adds what begins a style.
    pub(crate) fn begin(self, text: &mut String, style: &str) -> Result<(), AllocError> {
        match self {
            Colour::Never => Ok(()),
            Colour::Always => write!(text, "\x1b[{style}m"),
        }
    }

    /// Adds what ends a style.
    pub(crate) fn end(self, text: &mut String) -> Result<(), AllocError> {
        match self {
            Colour::Never => Ok(()),
            Colour::Always => write!(text, "\x1b[0m"),
        }
    }
}
