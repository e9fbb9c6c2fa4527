//! A text with fixes made in it.

use diagnostics::listed::Listed;

/// A text with fixes made in it.
#[derive(Debug, Drop)]
pub struct Fixed {
    /// The bytes of the text.
    pub text: Listed<u8>,
    /// How many fixes were made: helps whose replacements were written.
    pub fixes: usize,
    /// Whether the text spells a program with right marks.
    pub is_right: bool,
}
