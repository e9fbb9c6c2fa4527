//! A part of a text, and what is written in its place.

use diagnostics::words::Words;

/// A change of a text: a part of it, and what is written in its place.
#[derive(Debug, Drop)]
pub struct Edit {
    /// The offset of the part's first byte in the text, from 0.
    pub from: usize,
    /// The offset of the byte behind the part.
    pub to: usize,
    /// The bytes that are written.
    pub text: Words,
}
