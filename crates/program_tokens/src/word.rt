//! The words of directives and marks, and the signs.

ghost use Rattle.std.specs.Prelude.{◌≡◌};
ghost use Rattle.program_tokens.specs.Grammar.{directive_of, mark_of, sign_of};

use crate::token::{Directive, Mark, Token};

/// The directive of these letters.
pub(crate) fn directive_of(word: &[u8]) -> Directive
    ensures { result ≡ directive_of word.now }
{
    match word {
        b"start" => Directive::Start,
        b"task" => Directive::Task,
        b"text" => Directive::Text,
        b"data" => Directive::Data,
        b"rodata" => Directive::Rodata,
        b"word" => Directive::Word,
        b"byte" => Directive::Byte,
        b"space" => Directive::Space,
        _ => Directive::Unknown,
    }
}

/// The mark of these letters.
pub(crate) fn mark_of(word: &[u8]) -> Mark
    ensures { result ≡ mark_of word.now }
{
    match word {
        b"f" => Mark::Forward,
        b"s" => Mark::Always,
        b"st" => Mark::Taken,
        b"sn" => Mark::NotTaken,
        _ => Mark::Unknown,
    }
}

/// The token of one byte alone.
pub(crate) fn sign_of(byte: u8) -> Option<Token>
    ensures { result ≡ sign_of byte }
{
    match byte {
        b',' => Some(Token::Comma),
        b'(' => Some(Token::Open),
        b')' => Some(Token::Close),
        b':' => Some(Token::Colon),
        b'=' => Some(Token::Equals),
        b'-' => Some(Token::Minus),
        _ => None,
    }
}
