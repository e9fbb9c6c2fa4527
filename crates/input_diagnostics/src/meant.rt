//! What is meant by a word that is wrong.

use diagnostics::near::is_near;
use diagnostics::words::Words;
use mips_instructions::number::Reg;
use program_tokens::line::line_tokens;
use program_tokens::token::{Token, TokenFault};
use std::alloc::{AllocError, Global};

/// The one of some words that is meant by a word: with other capital letters, or else near; to a word of one letter
/// none is near. Empty where none is meant.
pub(crate) fn meant<'a>(
    alloc: Global,
    word: &[u8],
    words: &'a [&'a str],
) -> Result<Words, AllocError> {
    let mut same = words.iter();
    let mut near = words.iter();
    let other = same
        .find(|other| word.eq_ignore_ascii_case(other.as_bytes()))
        .or(near.find(|other| word.len() > 1 && is_near(word, other.as_bytes())));
    match other {
        Some(other) => Words::of(alloc, other),
        None => Words::of(alloc, ""),
    }
}

/// The register that a word names in a program.
pub(crate) fn register_meant(alloc: Global, word: &[u8]) -> Result<Option<Reg>, AllocError> {
    match line_tokens(alloc, word) {
        Ok(tokens) => match tokens.as_slice() {
            [Token::Register(register)] => Ok(Some(*register)),
            _ => Ok(None),
        },
        Err(TokenFault::OutOfMemory) => Err(AllocError),
        Err(TokenFault::NotAscii | TokenFault::Token) => Ok(None),
    }
}
