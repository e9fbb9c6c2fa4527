//! The lines of a text, and what is read of one.

ghost use Rattle.std.specs.Prelude.{◌≡◌, map as each, IfOk};
ghost use Rattle.program_tokens.specs.Grammar.{line_tokens};
ghost use Rattle.program_tokens.specs.Spans.{line_spans};
ghost use Rattle.program_tokens.specs.Lines.{lines};
ghost use Rattle.operand_forms.specs.Rows.{line_at, reading_of, tokens_or_none};

use diagnostics::listed::Listed;
use program_tokens::line::{first_line, line_tokens};
use program_tokens::span::{TokenSpan, read_spans};
use program_tokens::token::{Token, TokenFault};
use std::alloc::{AllocError, Global};

/// The lines of a text, each without its LF; a text that ends with LF has an empty line at its end.
///
/// # Errors
///
/// `AllocError` where memory was refused.
pub fn lines_of(alloc: Global, text: &[u8]) -> Result<Vec<&[u8]>, AllocError>
    ensures { IfOk result (λ list. each (λ line. line.now) list.items ≡ lines text.now) }
{
    let mut list = Vec::new(alloc);
    let mut rest = text;
    'lines: loop {
        let (line, after) = first_line(rest);
        list.push(line)?;
        match after {
            Some(more) => rest = more,
            None => return Ok(list),
        }
    }
}

/// The line of this number, from 1; empty where there is none.
pub fn line_at<'a>(rows: &[&'a [u8]], number: u32) -> &'a [u8]
    ensures { result.now ≡ line_at (each (λ row. row.now) rows.now) number }
{
    match rows.get(number.saturating_sub(1) as usize) {
        Some(line) => line,
        None => &[],
    }
}

/// The tokens of a line and their places.
#[derive(Drop)]
pub struct Reading {
    /// Its tokens; none if some of its bytes are no token.
    pub tokens: Listed<Token>,
    /// The places of its tokens, in order, and of bytes that are no token.
    pub places: Listed<TokenSpan>,
}

/// The tokens of a line; none where some bytes are no token.
fn tokens_of(alloc: Global, line: &[u8]) -> Result<Vec<Token>, AllocError>
    ensures { IfOk result (λ tokens. tokens.items ≡ tokens_or_none (line_tokens line.now)) }
{
    match line_tokens(alloc, line) {
        Ok(tokens) => Ok(tokens),
        Err(TokenFault::OutOfMemory) => Err(AllocError),
        Err(TokenFault::NotAscii | TokenFault::Token) => Ok(Vec::new(alloc)),
    }
}

/// The places of the tokens of a line, in order, and of bytes that are no token. The line is without its LF.
///
/// # Errors
///
/// `AllocError` where memory was refused.
pub fn places_of(alloc: Global, line: &[u8]) -> Result<Vec<TokenSpan>, AllocError>
    ensures { IfOk result (λ places. places.items ≡ line_spans line.now) }
{
    let mut places = Vec::new(alloc);
    read_spans(&mut places, line)?;
    Ok(places)
}

/// The tokens of a line and their places. The line is without its LF.
///
/// # Errors
///
/// `AllocError` where memory was refused; a line with bytes that are no token is no error.
pub fn read(alloc: Global, line: &[u8]) -> Result<Reading, AllocError>
    ensures { IfOk result (λ reading. reading ≡ reading_of line.now) }
{
    Ok(Reading {
        tokens: Listed::new(tokens_of(alloc, line)?),
        places: Listed::new(places_of(alloc, line)?),
    })
}
