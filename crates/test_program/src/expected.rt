//! The text that a stream is expected to get.

use std::alloc::{AllocError, Global};

/// An expected text: the whole text, or its beginning and its end.
#[derive(Drop)]
pub struct Expected {
    beginning: Vec<u8>,
    end: Option<Vec<u8>>,
    alloc: Global,
}

impl Expected {
    /// The empty text.
    pub fn new(alloc: Global) -> Expected {
        Expected {
            beginning: Vec::new(alloc),
            end: None,
            alloc,
        }
    }

    /// Adds a line of a table to the expected text.
    ///
    /// # Errors
    ///
    /// `AllocError` where memory was refused; a part may have been added.
    pub fn push(&mut self, line: &str) -> Result<(), AllocError> {
        match &mut self.end {
            Some(end) => push_line(end, line),
            None => push_line(&mut self.beginning, line),
        }
    }

    /// Permits any text here: what is added from here on is how the text ends. False if this was called before.
    pub fn skip(&mut self) -> bool {
        if self.end.is_some() {
            return false;
        }
        self.end = Some(Vec::new(self.alloc));
        true
    }

    /// Whether nothing has been added.
    pub fn is_empty(&self) -> bool {
        self.beginning.is_empty() && self.end.is_none()
    }

    /// Whether a text is as expected.
    pub fn fits(&self, text: &[u8]) -> bool {
        let beginning = self.beginning.as_slice();
        match &self.end {
            Some(end) => match text.strip_prefix(beginning) {
                Some(rest) => rest.ends_with(end.as_slice()),
                None => false,
            },
            None => text == beginning,
        }
    }
}

/// Adds a line of a table to a text: with an LF, unless the line ends in `\`, which is left out.
///
/// # Errors
///
/// `AllocError` where memory was refused; a part may have been added.
pub fn push_line(text: &mut Vec<u8>, line: &str) -> Result<(), AllocError> {
    match line.strip_suffix('\\') {
        Some(rest) => text.extend_from_slice(rest.as_bytes()),
        None => {
            text.extend_from_slice(line.as_bytes())?;
            text.push(b'\n')?;
            Ok(())
        }
    }
}
