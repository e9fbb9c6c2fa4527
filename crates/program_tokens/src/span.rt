//! The columns and widths of a line's tokens.

ghost use Rattle.std.specs.Prelude.{◌≡◌, OnOk};
ghost use Rattle.program_tokens.specs.Spans.{line_spans};

use crate::kind::{is_blank, kind_of, run_len};
use crate::line::without_carriage_return;
use std::alloc::AllocError;

/// The part of its line that a token covers.
#[derive(Clone, Copy, Debug, PartialEq, Eq)]
pub struct TokenSpan {
    /// The column of its first byte, counted in bytes from 1.
    pub column: usize,
    /// Its width in bytes.
    pub len: usize,
}

/// Replaces what the vector holds with the spans of a line's tokens, the line given without its LF; the
/// vector's room is used again. Bytes that are no token have a span, too.
///
/// # Errors
///
/// `AllocError` where memory was refused; what the vector holds then is not known.
pub fn read_spans(spans: &mut Vec<TokenSpan>, line: &[u8]) -> Result<(), AllocError>
    ensures { OnOk result (spans.new.items ≡ line_spans line.now) }
{
    spans.clear();
    let text = without_carriage_return(line);
    let mut column = 1;
    let mut rest = text;
    while let Some((first, after)) = rest.split_first() {
        if is_blank(*first) {
            column += 1;
            rest = after;
            continue;
        }
        if *first == b'#' {
            break;
        }
        let len = 1 + run_len(kind_of(*first, after), after);
        spans.push(TokenSpan { column, len })?;
        let (_, behind) = rest.split_at(len);
        column += len;
        rest = behind;
    }
    Ok(())
}
