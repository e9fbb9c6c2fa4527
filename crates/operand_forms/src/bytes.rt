//! Bytes of a line: those of a place, of a whole word, those that no text has, and those that form no token.

ghost use Rattle.std.specs.Prelude.{◌≡◌, is_ok, length, take_while, IfOk};
ghost use Rattle.std.specs.List.{position};
ghost use Rattle.std.specs.Str.Lines.{strip_carriage_return};
ghost use Rattle.program_tokens.specs.Grammar.{is_name_byte, line_tokens};
ghost use Rattle.operand_forms.specs.Bytes.{is_bad_byte, bytes_at, byte_place, byte_span, byte_at, is_cut, whole_word, token_span, token_from};

use crate::slices::{after, first};
use program_tokens::line::read_tokens;
use program_tokens::span::{TokenSpan, read_spans};
use program_tokens::token::{Token, TokenFault};
use std::alloc::{AllocError, Global};

/// The first byte of a line, which is the place of what has none.
pub const LINE_START: TokenSpan = TokenSpan { column: 1, len: 1 };

/// The bytes of a line at a place; fewer where the line ends before.
pub fn bytes_at(line: &[u8], span: TokenSpan) -> &[u8]
    ensures { result.now ≡ bytes_at line.now span }
{
    first(after(line, span.column.saturating_sub(1)), span.len)
}

/// The line without the CR that may end it.
fn without_carriage_return(line: &[u8]) -> &[u8]
    ensures { result.now ≡ strip_carriage_return line.now }
{
    match line {
        [text @ .., b'\r'] => text,
        _ => line,
    }
}

/// Whether no line may have this byte: it is neither printable ASCII nor the tab.
fn is_bad_byte(byte: u8) -> bool
    ensures { result ≡ is_bad_byte byte }
{
    (byte < 0x20 || byte > 0x7E) && byte != b'\t'
}

/// The index of the first byte that no text has.
fn first_bad(text: &[u8]) -> Option<usize>
    ensures { result ≡ position is_bad_byte text.now }
{
    text.iter().position(|byte| is_bad_byte(*byte))
}

/// The place of the byte with this index; the line's first byte where there is none.
fn byte_place(index: Option<usize>) -> TokenSpan
    ensures { result ≡ byte_place index }
{
    match index {
        Some(index) => TokenSpan {
            column: index.saturating_add(1),
            len: 1,
        },
        None => LINE_START,
    }
}

/// The place of the first byte that no text may have, which is neither printable ASCII nor a tab, nor the CR at the line's
/// end; the line's first byte where there is none.
#[tactic(auto, unfolding(crate::specs::Bytes::byte_span))]
pub fn byte_span(line: &[u8]) -> TokenSpan
    ensures { result ≡ byte_span line.now }
{
    byte_place(first_bad(without_carriage_return(line)))
}

/// The first byte of a place; 0 where the line has no such byte.
pub fn byte_at(line: &[u8], span: TokenSpan) -> u8
    ensures { result ≡ byte_at line.now span }
{
    line.get(span.column.saturating_sub(1))
        .copied()
        .unwrap_or(0)
}

/// Whether a name may have this byte.
fn is_name_byte(byte: u8) -> bool
    ensures { result ≡ is_name_byte byte }
{
    byte.is_ascii_alphanumeric() || byte == b'_'
}

/// How many bytes of a name some bytes begin with.
fn letters(bytes: &[u8]) -> usize
    ensures { result ≡ length (take_while is_name_byte bytes.now) }
{
    bytes.iter().take_while(|byte| is_name_byte(**byte)).count()
}

/// Whether a token that begins with this byte ends before a capital letter, a digit and `_`.
fn is_cut(first: u8) -> bool
    ensures { result ≡ is_cut first }
{
    first == b'.' || first == b'!'
}

/// The place of a token; for a directive or a mark, together with the letters, digits and `_` that follow it.
#[tactic(auto, unfolding(crate::specs::Bytes::whole_word))]
pub fn whole_word(line: &[u8], span: TokenSpan) -> TokenSpan
    ensures { result ≡ whole_word line.now span }
{
    if !is_cut(byte_at(line, span)) {
        return span;
    }
    let more = letters(after(after(line, span.column.saturating_sub(1)), span.len));
    TokenSpan {
        column: span.column,
        len: span.len.saturating_add(more),
    }
}

/// Whether these bytes, as a line of their own, can be read.
fn is_read(tokens: &mut Vec<Token>, bytes: &[u8]) -> Result<bool, AllocError>
    ensures { IfOk result (λ yes. yes ≡ is_ok (line_tokens bytes.now)) }
{
    match read_tokens(tokens, bytes) {
        Ok(()) => Ok(true),
        Err(TokenFault::NotAscii | TokenFault::Token) => Ok(false),
        Err(TokenFault::OutOfMemory) => Err(AllocError),
    }
}

/// The first of these places whose bytes form no token.
fn token_from(alloc: Global, line: &[u8], spans: &[TokenSpan]) -> Result<TokenSpan, AllocError>
    ensures { IfOk result (λ span. span ≡ token_from line.now spans.now) }
{
    let mut tokens = Vec::new(alloc);
    for span in spans {
        if !is_read(&mut tokens, bytes_at(line, *span))? {
            return Ok(*span);
        }
    }
    Ok(LINE_START)
}

/// The place of the first bytes of a line that form no token; the line's first byte where there are none.
///
/// # Errors
///
/// `AllocError` where memory was refused.
#[tactic(auto, unfolding(crate::specs::Bytes::token_span))]
pub fn token_span(alloc: Global, line: &[u8]) -> Result<TokenSpan, AllocError>
    ensures { IfOk result (λ span. span ≡ token_span line.now) }
{
    let mut spans = Vec::new(alloc);
    read_spans(&mut spans, line)?;
    token_from(alloc, line, &spans)
}
