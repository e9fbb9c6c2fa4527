//! Texts and lists that a diagnostic has, which a contract sees by their value.

use std::alloc::{AllocError, Global};
use std::fmt;
use std::marker::Model;

/// A text, which a contract sees as its bytes.
#[derive(Debug, Drop)]
pub struct Words {
    text: String,
}

impl Model for Words {
    ghost use Rattle.std.specs.Prelude.{ℕ, List};
    ghost use Rattle.std.specs.Coded.{coded_ℕ, coded_list};
    ghost use Rattle.std.specs.String.{string_bytes};

    ghost Value = { List ℕ };

    ghost coded = { coded_list coded_ℕ };

    ghost view = { λ words. string_bytes words.text };
}

impl Words {
    ghost use Rattle.std.specs.Prelude.{◌≡◌, ◌++◌, IfOk, OnOk};
    ghost use Rattle.std.specs.Fmt.{decimal};
    ghost use Rattle.std.specs.String.{string_bytes};

    /// The words with the bytes of a string.
    pub fn new(text: String) -> Words
        ensures { result ≡ string_bytes text }
    {
        Words { text }
    }

    /// The words with a copy of the bytes of `words`.
    ///
    /// # Errors
    ///
    /// `AllocError` where memory was refused.
    pub fn of(alloc: Global, words: &str) -> Result<Words, AllocError>
        ensures { IfOk result (λ made. made ≡ words.now) }
    {
        let mut text = String::new(alloc);
        text.push_str(words)?;
        Ok(Words::new(text))
    }

    /// The text as a string slice.
    pub fn as_str(&self) -> &str
        ensures { result.now ≡ self.now }
    {
        self.text.as_str()
    }
}

impl fmt::Display for Words {
    ghost use Rattle.std.specs.Prelude.{Some};

    ghost output = { λ words. Some words };

    /// The text.
    fn fmt<W: fmt::Write>(&self, f: &mut fmt::Formatter<W>) -> fmt::Result {
        f.write_str(self.text.as_str())
    }
}

/// Makes `Words` by a format: `words!(in alloc; "add {name} to the create mask")?`; `AllocError` where memory was refused.
#[macro_export]
macro_rules! words {
    (in $alloc:expr; $($format:tt)*) => {
        format!(in $alloc; $($format)*).map($crate::words::Words::new)
    };
}
