//! Bytes of a text as a message quotes them, or writes them.

ghost use Rattle.std.specs.Prelude.{◌≡◌, IfOk};
ghost use Rattle.diagnostics.specs.Quotations.{as_shown, quoted};

use crate::excerpt::{front, shown_text};
use crate::words;
use crate::words::Words;
use std::alloc::{AllocError, Global};

/// How many bytes a message quotes at most.
const MOST_QUOTED: usize = 40;

/// Bytes of a text as an excerpt shows them: with no control byte but tabs, and no character that steers a terminal.
///
/// # Errors
///
/// `AllocError` where memory was refused.
#[tactic(auto, unfolding(crate::specs::Quotations::as_shown))]
pub fn as_shown(alloc: Global, bytes: &[u8]) -> Result<Words, AllocError>
    ensures { IfOk result (λ words. words ≡ as_shown bytes.now) }
{
    Ok(Words::new(shown_text(alloc, bytes)?))
}

/// Bytes of a text as a message quotes them, in backquotes: as an excerpt shows them, at most the first 40 bytes.
///
/// # Errors
///
/// `AllocError` where memory was refused.
#[tactic(auto, unfolding(crate::specs::Quotations::quoted))]
pub fn quoted(alloc: Global, bytes: &[u8]) -> Result<Words, AllocError>
    ensures { IfOk result (λ words. words ≡ quoted bytes.now) }
{
    let shown = as_shown(alloc, front(bytes, MOST_QUOTED))?;
    if bytes.len() > MOST_QUOTED {
        return words!(in alloc; "`{shown}..`");
    }
    words!(in alloc; "`{shown}`")
}
