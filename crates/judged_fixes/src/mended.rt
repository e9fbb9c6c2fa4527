//! A text with parts of it replaced.

ghost use Rattle.std.specs.Prelude.{◌≡◌, ◌<◌, ◌⊎◌, ◌+◌, ℕ, List, length, IfOk, IfSome, IfNone};
ghost use Rattle.judged_fixes.specs.Mended.{IsCut, IsMended};

use crate::edit::Edit;
use std::alloc::{AllocError, Global};

// What stands before the part that an edit replaces, and what stands behind it, in what is left of a text from its byte `at`
// on; `None` where that part begins before it, or is not all in the text.
fn around<'a>(rest: &'a [u8], at: usize, edit: &Edit) -> Option<(&'a [u8], &'a [u8])>
    ensures some { IfSome result (λ parts. IsCut rest.now at edit.now parts.0.now parts.1.now) }
    ensures none { IfNone result ((before behind : List ℕ) → IsCut rest.now at edit.now before behind → ⊥) }
{
    let from = edit.from.checked_sub(at)?;
    let to = edit.to.checked_sub(at)?;
    if from > to || to > rest.len() {
        return None;
    }
    Some((&rest[..from], &rest[to..]))
}

/// A copy of a text with these edits made; `None` if an edit is not within the text or begins before the one ahead of it
/// ends.
///
/// # Errors
///
/// `AllocError` where memory was refused.
pub fn mended(alloc: Global, text: &[u8], edits: &[Edit]) -> Result<Option<Vec<u8>>, AllocError>
    ensures some { IfOk result (λ made. IfSome made (λ new. IsMended text.now edits.now new.items)) }
    ensures none { IfOk result (λ made. IfNone made ((new : List ℕ) → IsMended text.now edits.now new → ⊥)) }
{
    let mut made = Vec::new(alloc);
    let mut rest = text;
    let mut at = 0;
    for edit in edits {
        let Some((before, behind)) = around(rest, at, edit) else {
            return Ok(None);
        };
        made.extend_from_slice(before)?;
        made.extend_from_slice(edit.text.as_str().as_bytes())?;
        rest = behind;
        at = edit.to;
    }
    made.extend_from_slice(rest)?;
    Ok(Some(made))
}
