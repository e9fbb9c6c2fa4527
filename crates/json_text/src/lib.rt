//! A JSON text that grows token by token; an error of a call means that memory was refused.
#![tactic(auto)]

ghost use Rattle.std.specs.Prelude.{◌≡◌, []};

use json::Writer;
use shown_names::letters::is_readable;
use std::alloc::{AllocError, Global};

/// The result of a call that writes: `AllocError` where memory was refused; the text may then lack the rest.
pub type Written = Result<(), AllocError>;

/// A JSON text that is being written, token after token.
#[derive(Drop)]
pub struct JsonText {
    alloc: Global,
    out: Writer,
    ghost alone: { out.before ≡ [] },
}

impl JsonText {
    /// A text without tokens.
    pub fn new(alloc: Global) -> JsonText {
        JsonText {
            alloc,
            out: Writer::new(Vec::new(alloc)),
        }
    }

    /// The text written so far.
    pub fn into_string(self) -> String {
        let JsonText { out, .. } = self;
        match String::from_utf8(out.into_inner()) {
            Ok(text) => text,
            Err(_) => unreachable!(),
        }
    }

    /// The text as one line, which ends with LF. A character that steers a terminal, or that nobody sees, is
    /// written as its `\u` code.
    ///
    /// # Errors
    ///
    /// `AllocError` where memory was refused.
    pub fn into_line(self) -> Result<Vec<u8>, AllocError> {
        let JsonText { alloc, out } = self;
        let mut line = with_codes(alloc, out.into_inner())?;
        line.push(b'\n')?;
        Ok(line)
    }

    /// Begins an object.
    ///
    /// # Errors
    ///
    /// `AllocError` where memory was refused.
    pub fn begin(&mut self) -> Written {
        self.out.begin_object()
    }

    /// Ends the object that was begun last.
    ///
    /// # Errors
    ///
    /// `AllocError` where memory was refused.
    pub fn end(&mut self) -> Written {
        self.out.end_object()
    }

    /// Begins a member of the object; its value comes next.
    ///
    /// # Errors
    ///
    /// `AllocError` where memory was refused.
    pub fn key(&mut self, name: &str) -> Written {
        self.out.key(name)
    }

    /// Begins a member that is an object.
    ///
    /// # Errors
    ///
    /// `AllocError` where memory was refused.
    pub fn object(&mut self, name: &str) -> Written {
        self.out.key(name)?;
        self.out.begin_object()
    }

    /// Begins a member that is an array.
    ///
    /// # Errors
    ///
    /// `AllocError` where memory was refused.
    pub fn list(&mut self, name: &str) -> Written {
        self.out.key(name)?;
        self.out.begin_array()
    }

    /// Ends the array that was begun last.
    ///
    /// # Errors
    ///
    /// `AllocError` where memory was refused.
    pub fn end_list(&mut self) -> Written {
        self.out.end_array()
    }

    /// Adds a member that is a string; `text` is written with JSON's escapes.
    ///
    /// # Errors
    ///
    /// `AllocError` where memory was refused.
    pub fn text(&mut self, name: &str, text: &str) -> Written {
        self.out.key(name)?;
        self.out.string(text)
    }

    /// Adds a member that is a number.
    ///
    /// # Errors
    ///
    /// `AllocError` where memory was refused.
    pub fn number(&mut self, name: &str, value: usize) -> Written {
        self.out.key(name)?;
        self.out.u64(value as u64)
    }

    /// Adds a member that is `true` or `false`.
    ///
    /// # Errors
    ///
    /// `AllocError` where memory was refused.
    pub fn boolean(&mut self, name: &str, value: bool) -> Written {
        self.out.key(name)?;
        self.out.boolean(value)
    }

    /// Adds a member that is `null`.
    ///
    /// # Errors
    ///
    /// `AllocError` where memory was refused.
    pub fn null(&mut self, name: &str) -> Written {
        self.out.key(name)?;
        self.out.null()
    }

    /// Adds a member that is a message: an object whose `text` is the sentence, with a period if it is no
    /// question.
    ///
    /// # Errors
    ///
    /// `AllocError` where memory was refused.
    pub fn message(&mut self, name: &str, sentence: &str) -> Written {
        let period = if sentence.ends_with('?') { "" } else { "." };
        let text = format!(in self.alloc; "{sentence}{period}")?;
        self.object(name)?;
        self.text("text", text.as_str())?;
        self.end()
    }
}

/// A text of JSON with a code for each character that steers a terminal or that nobody sees: those below U+0020 have
/// theirs already.
fn with_codes(alloc: Global, text: Vec<u8>) -> Result<Vec<u8>, AllocError> {
    if !text.contains(&b'\x7f') && is_readable(text.as_slice()) {
        return Ok(text);
    }
    let text = match String::from_utf8(text) {
        Ok(text) => text,
        Err(fault) => return Ok(fault.into_bytes()),
    };
    let mut coded = String::new(alloc);
    for letter in text.chars() {
        add_letter(&mut coded, letter)?;
    }
    Ok(coded.into_bytes())
}

/// Adds a character to a text of JSON, or its code.
fn add_letter(text: &mut String, letter: char) -> Written {
    let mut bytes = [0; 4];
    let spelled = letter.encode_utf8(&mut bytes);
    if letter != '\u{7f}' && is_readable(spelled.as_bytes()) {
        return text.push(letter);
    }
    for unit in spelled.encode_utf16() {
        write!(text, "\\u{unit:04x}")?;
    }
    Ok(())
}
