//! What to do, in words alone, or with a text to write in place of a part.

ghost use Rattle.std.specs.Prelude.{◌≡◌, IfOk};
ghost use Rattle.diagnostics.specs.Helps.{in_words, by_text};

use crate::diagnostic::{Help, Replacement, Span};
use crate::listed::Listed;
use crate::words::Words;
use std::alloc::{AllocError, Global};

/// A help with a message alone.
pub fn in_words(alloc: Global, message: Words) -> Help
    ensures { result ≡ in_words message }
{
    Help {
        message,
        replacements: Listed::new(Vec::new(alloc)),
    }
}

/// A help that writes `text` in place of one part of the text.
///
/// # Errors
///
/// `AllocError` where memory was refused.
pub fn by_text(alloc: Global, message: Words, span: Span, text: Words) -> Result<Help, AllocError>
    ensures { IfOk result (λ help. help ≡ by_text message span text) }
{
    let mut replacements = Vec::new(alloc);
    replacements.push(Replacement { span, text })?;
    Ok(Help {
        message,
        replacements: Listed::new(replacements),
    })
}
