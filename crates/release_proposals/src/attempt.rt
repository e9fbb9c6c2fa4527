//! A text with releases, tried.

ghost use Rattle.std.specs.Prelude.{◌≡◌, true, IfOk, IfSome};
ghost use Rattle.std.specs.List.{All};
ghost use Rattle.release_proposals.specs.Paying.{IsAttempt};

use crate::trial::{Trial, tried};
use diagnostics::diagnostic::Diagnostic;
use judged_fixes::edit::Edit;
use judged_fixes::mended::mended;
use judged_fixes::proposal::proposal;
use std::alloc::{AllocError, Global};

/// A text with insertions, and its trial.
#[derive(Drop)]
pub(crate) struct Attempt {
    pub(crate) text: Vec<u8>,
    pub(crate) trial: Trial,
}

// Whether edits only insert.
fn only_insert(edits: &[Edit]) -> bool
    ensures { result ≡ true → All (λ e. e.from ≡ e.to) edits.now }
{
    edits.iter().all(|edit| edit.from == edit.to)
}

/// The text with the insertions that some diagnostics propose, all of them or those at the indexes `chosen`, and its trial;
/// `None` where the marks are wrong then, or it does not halt.
///
/// # Errors
///
/// `AllocError` where memory was refused.
pub(crate) fn attempted(
    alloc: Global,
    text: &[u8],
    said: &[Diagnostic],
    chosen: Option<&[usize]>,
) -> Result<Option<Attempt>, AllocError>
    ensures { IfOk result (λ found. IfSome found (IsAttempt text.now said.now)) }
{
    let made = proposal(alloc, text, said, chosen)?;
    if !only_insert(&made.edits) {
        return Ok(None);
    }
    let Some(text) = mended(alloc, text, &made.edits)? else {
        return Ok(None);
    };
    match tried(alloc, &text)? {
        Some(trial) => Ok(Some(Attempt { text, trial })),
        None => Ok(None),
    }
}
