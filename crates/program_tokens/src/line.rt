//! A text's lines, and the tokens of a line.

ghost use Rattle.std.specs.Prelude.{◌≡◌, ◌<◌, length, [], ◌∷◌, ◌==◌, IfOk, IfErr, IfSome, IfNone, OnOk, OnErr};
ghost use Rattle.std.specs.List.{list_all, position};
ghost use Rattle.std.specs.Str.Lines.{strip_carriage_return};
ghost use Rattle.program_tokens.specs.Grammar.{is_text_byte, token_of, tokens_after, line_tokens};
ghost use Rattle.program_tokens.specs.Lines.{lines};
ghost use Rattle.program_tokens.specs.Faults.{IsFaultOf};

use crate::kind::{Kind, is_blank, is_text_byte, kind_of, run_len};
use crate::number::{number_in, number_of, positive};
use crate::register::register_of;
use crate::token::{Token, TokenFault};
use crate::word::{directive_of, mark_of, sign_of};
use memchr::memchr;
use std::alloc::Global;
use task_descriptor::name::Name;

fn newline_of(text: &[u8]) -> Option<usize>
    ensures { result ≡ position (λ b. b == 10) text.now }
{
    memchr(b'\n', text)
}

/// The first line of a text, without its LF, and the text after the LF: further lines, the last of which is
/// empty where the text ends with an LF. `None` where the line is the text's last.
pub fn first_line(text: &[u8]) -> (&[u8], Option<&[u8]>)
    ensures more { IfSome result.1 (λ rest. lines text.now ≡ result.0.now ∷ lines rest.now) }
    ensures last { IfNone result.1 (lines text.now ≡ result.0.now ∷ []) }
    ensures shorter { IfSome result.1 (λ rest. length rest.now < length text.now) }
{
    match newline_of(text) {
        Some(end) => (&text[..end], Some(&text[end + 1..])),
        None => (text, None),
    }
}

/// The token that these bytes spell, if they spell one of this kind.
#[tactic(auto, unfolding(crate::specs::Grammar::token_of))]
fn token_of(kind: Kind, text: &[u8]) -> Option<Token>
    requires { 0 < length text.now }
    ensures { result ≡ token_of kind text.now }
{
    let word = &text[1..];
    match kind {
        Kind::Name => Name::new(text).map(Token::Name),
        Kind::Register => register_of(word).map(Token::Register),
        Kind::Number => number_of(text).map(Token::Number),
        Kind::Index => number_in(10, word).map(|n| Token::Index(positive(n))),
        Kind::Directive if word.is_empty() => None,
        Kind::Directive => Some(Token::Directive(directive_of(word))),
        Kind::Mark if word.is_empty() => None,
        Kind::Mark => Some(Token::Mark(mark_of(word))),
        Kind::Sign => sign_of(text[0]),
    }
}

/// The tokens of a text in place of those that the vector holds.
fn text_tokens(tokens: &mut Vec<Token>, text: &[u8]) -> Result<(), TokenFault>
    ensures ok { OnOk result (tokens_after 0 text.now ≡ Ok tokens.new.items) }
    ensures err { IfErr result (λ fault. IsFaultOf fault (tokens_after 0 text.now)) }
{
    tokens.clear();
    let mut rest = text;
    while let Some((first, after)) = rest.split_first() {
        if is_blank(*first) {
            rest = after;
            continue;
        }
        if *first == b'#' {
            break;
        }
        let kind = kind_of(*first, after);
        let (bytes, behind) = rest.split_at(1 + run_len(kind, after));
        let Some(token) = token_of(kind, bytes) else {
            return Err(TokenFault::Token);
        };
        tokens.push(token)?;
        rest = behind;
    }
    Ok(())
}

/// Whether a line may have these bytes.
fn is_text(bytes: &[u8]) -> bool
    ensures { result ≡ list_all is_text_byte bytes.now }
{
    let mut all = true;
    for byte in bytes {
        all &= is_text_byte(*byte);
    }
    all
}

/// Replaces what the vector holds with the tokens of a line, given without its LF; the vector's room is used
/// again.
///
/// # Errors
///
/// `NotAscii`: a byte is neither printable ASCII nor a tab, nor the one CR that may end the line; a comment
/// counts. Else `Token`: some bytes before the comment are no token. `OutOfMemory` where memory was refused,
/// whatever the line holds. The vector is empty after an error.
#[tactic(auto, unfolding(crate::specs::Grammar::line_tokens))]
pub fn read_tokens(tokens: &mut Vec<Token>, line: &[u8]) -> Result<(), TokenFault>
    ensures ok { OnOk result (line_tokens line.now ≡ Ok tokens.new.items) }
    ensures err { IfErr result (λ fault. IsFaultOf fault (line_tokens line.now)) }
    ensures emptied { OnErr result (tokens.new.items ≡ []) }
{
    let text = without_carriage_return(line);
    if !is_text(text) {
        tokens.clear();
        return Err(TokenFault::NotAscii);
    }
    let read = text_tokens(tokens, text);
    if read.is_err() {
        tokens.clear();
    }
    read
}

/// The line without the CR that may end it.
pub(crate) fn without_carriage_return(line: &[u8]) -> &[u8]
    ensures { result.now ≡ strip_carriage_return line.now }
{
    match line {
        [text @ .., b'\r'] => text,
        _ => line,
    }
}

/// The tokens of a line, given without its LF, in a vector of their own.
///
/// # Errors
///
/// Those of `read_tokens`.
pub fn line_tokens(alloc: Global, line: &[u8]) -> Result<Vec<Token>, TokenFault>
    ensures ok { IfOk result (λ tokens. line_tokens line.now ≡ Ok tokens.items) }
    ensures err { IfErr result (λ fault. IsFaultOf fault (line_tokens line.now)) }
{
    let mut tokens = Vec::new(alloc);
    read_tokens(&mut tokens, line)?;
    Ok(tokens)
}
