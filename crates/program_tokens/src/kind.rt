//! How each kind of token begins and continues.

ghost use Rattle.std.specs.Prelude.{◌≡◌, length, take_while};
ghost use Rattle.program_tokens.specs.Grammar.{is_text_byte, is_blank, is_name_start, is_name_byte, begins_number, kind_of, goes_on};

use crate::number::begins_with_digit;

/// The kinds of token, told apart by how each begins.
#[derive(Clone, Copy, Debug, PartialEq, Eq)]
pub(crate) enum Kind {
    /// Begins with a letter or `_`.
    Name,
    /// Begins with `$`.
    Register,
    /// Begins with a digit, or with a `-` directly before a digit.
    Number,
    /// Begins with `@`.
    Index,
    /// Begins with `.`.
    Directive,
    /// Begins with `!`.
    Mark,
    /// One byte alone: `,` `(` `)` `:` `=` `-`, or a byte that begins no token.
    Sign,
}

/// Whether a line may have this byte: printable ASCII and the tab.
pub(crate) fn is_text_byte(byte: u8) -> bool
    ensures { result ≡ is_text_byte byte }
{
    (byte >= 0x20 && byte <= 0x7E) || byte == b'\t'
}

/// Whether this byte separates tokens: the space and the tab.
pub(crate) fn is_blank(byte: u8) -> bool
    ensures { result ≡ is_blank byte }
{
    byte == b' ' || byte == b'\t'
}

fn is_name_start(byte: u8) -> bool
    ensures { result ≡ is_name_start byte }
{
    byte.is_ascii_alphabetic() || byte == b'_'
}

fn is_name_byte(byte: u8) -> bool
    ensures { result ≡ is_name_byte byte }
{
    byte.is_ascii_alphanumeric() || byte == b'_'
}

fn begins_number(first: u8, after: &[u8]) -> bool
    ensures { result ≡ begins_number first after.now }
{
    first.is_ascii_digit() || (first == b'-' && begins_with_digit(after))
}

/// The kind of token that begins with this byte, before these.
#[tactic(auto, unfolding(crate::specs::Grammar::kind_of))]
pub(crate) fn kind_of(first: u8, after: &[u8]) -> Kind
    ensures { result ≡ kind_of first after.now }
{
    if is_name_start(first) {
        return Kind::Name;
    }
    if begins_number(first, after) {
        return Kind::Number;
    }
    match first {
        b'$' => Kind::Register,
        b'@' => Kind::Index,
        b'.' => Kind::Directive,
        b'!' => Kind::Mark,
        _ => Kind::Sign,
    }
}

/// How many of these bytes continue a token of this kind.
pub(crate) fn run_len(kind: Kind, bytes: &[u8]) -> usize
    ensures { result ≡ length (take_while (goes_on kind) bytes.now) }
{
    let bytes = bytes.iter();
    match kind {
        Kind::Name | Kind::Register => bytes.take_while(|byte| is_name_byte(**byte)).count(),
        Kind::Number | Kind::Index => bytes
            .take_while(|byte| byte.is_ascii_alphanumeric())
            .count(),
        Kind::Directive | Kind::Mark => bytes.take_while(|byte| byte.is_ascii_lowercase()).count(),
        Kind::Sign => 0,
    }
}
