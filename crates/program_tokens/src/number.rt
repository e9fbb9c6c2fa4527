//! The values of numbers.

ghost use Rattle.std.specs.Prelude.{◌≡◌, ◌≤◌, ◌<◌, min, ◌^◌, length, ℕ};
ghost use Rattle.std.specs.Option.{option_map};
ghost use Rattle.program_tokens.specs.Numbers.{begins_with_digit, number_in, magnitude_of, positive, negative, number_of};

use crate::token::Number;

/// The least magnitude that is not kept, 2^40.
const LIMIT: u64 = 1 << 40;

/// Whether the text begins with a decimal digit.
pub(crate) fn begins_with_digit(text: &[u8]) -> bool
    ensures { result ≡ begins_with_digit text.now }
{
    match text {
        [first, ..] => first.is_ascii_digit(),
        [] => false,
    }
}

/// The number that digits of this radix spell, or the limit where it is larger; `None` where a byte is
/// no digit or there is none.
#[tactic(auto, unfolding(crate::specs::Numbers::number_in))]
pub(crate) fn number_in(radix: u32, text: &[u8]) -> Option<u64>
    requires small { radix ≤ 16 }
    requires large { 2 ≤ radix }
    ensures { result ≡ option_map (λ n. min n (2 ^ 40)) (number_in radix text.now) }
{
    if text.is_empty() {
        return None;
    }
    let mut value: u64 = 0;
    for byte in text {
        let digit = char::from(*byte).to_digit(radix)?;
        value = (value * u64::from(radix) + u64::from(digit)).min(LIMIT);
    }
    Some(value)
}

/// `0x` and hexadecimal digits, or decimal digits.
#[tactic(auto, unfolding(crate::specs::Numbers::magnitude_of))]
fn magnitude_of(text: &[u8]) -> Option<u64>
    ensures { result ≡ option_map (λ n. min n (2 ^ 40)) (magnitude_of text.now) }
{
    if text.starts_with(b"0x") {
        number_in(16, &text[2..])
    } else {
        number_in(10, text)
    }
}

/// The number of this magnitude.
pub(crate) fn positive(magnitude: u64) -> Number
    ensures { (n : ℕ) → magnitude ≡ min n (2 ^ 40) → result ≡ positive n }
{
    if magnitude < LIMIT {
        Number::Small(magnitude as i64)
    } else {
        Number::Large
    }
}

/// The number of this magnitude, with a minus.
fn negative(magnitude: u64) -> Number
    ensures { (n : ℕ) → magnitude ≡ min n (2 ^ 40) → result ≡ negative n }
{
    if magnitude < LIMIT {
        Number::Small(-(magnitude as i64))
    } else {
        Number::Large
    }
}

/// The number that these bytes spell, with a minus before it or none.
#[tactic(auto, unfolding(crate::specs::Numbers::number_of))]
pub(crate) fn number_of(text: &[u8]) -> Option<Number>
    requires { 0 < length text.now }
    ensures { result ≡ number_of text.now }
{
    if text[0] == b'-' {
        magnitude_of(&text[1..]).map(negative)
    } else {
        magnitude_of(text).map(positive)
    }
}
