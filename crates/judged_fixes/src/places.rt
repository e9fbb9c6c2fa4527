//! Where the lines of a text begin.

ghost use Rattle.std.specs.Prelude.{◌≡◌, ◌+◌, ◌-◌, ◌≤◌, length, slice_index, IfOk, IfSome};
ghost use Rattle.judged_fixes.specs.Proposed.{AreLineStarts};

use diagnostics::diagnostic::Span;
use std::alloc::{AllocError, Global};

/// Where each line of a text begins.
pub(crate) fn line_starts(alloc: Global, text: &[u8]) -> Result<Vec<usize>, AllocError>
    ensures { IfOk result (λ starts. AreLineStarts text.now starts.items) }
{
    let mut starts = Vec::new(alloc);
    starts.push(0)?;
    for (index, byte) in text.iter().enumerate() {
        if *byte == b'\n' {
            starts.push(index + 1)?;
        }
    }
    Ok(starts)
}

/// Where a span begins in a text whose lines begin there; `None` where it names no byte of it.
pub(crate) fn place_of(starts: &[usize], span: Span) -> Option<usize>
    ensures { IfSome result (λ at. (1 ≤ span.line) × (span.line ≤ length starts.now)
        × (at + 1 ≡ slice_index starts.now (span.line - 1) + span.column)) }
{
    let line = (span.line as usize).checked_sub(1)?;
    let start = *starts.get(line)?;
    start.checked_add(span.column)?.checked_sub(1)
}
