//! Texts of what is seen.

use std::alloc::Global;
use std::fmt::Display;

/// A text that is written piece by piece. Whether memory sufficed for all of it shows at the end.
#[derive(Drop)]
pub(crate) struct Notes {
    text: String,
    is_whole: bool,
}

impl Notes {
    pub(crate) fn new(alloc: Global) -> Notes {
        Notes {
            text: String::new(alloc),
            is_whole: true,
        }
    }

    /// What `write!` and `writeln!` call.
    pub(crate) fn write_fmt<D: Display + Drop>(&mut self, value: D) {
        if self.text.write_fmt(value).is_err() {
            self.is_whole = false;
        }
    }

    /// The text; `None` where memory did not suffice.
    pub(crate) fn as_bytes(&self) -> Option<&[u8]> {
        if self.is_whole {
            Some(self.text.as_bytes())
        } else {
            None
        }
    }

    /// Whether both are the same whole text.
    pub(crate) fn is_same(&self, other: &Notes) -> bool {
        self.is_whole && other.is_whole && self.text == other.text
    }
}
