//! The spellings of the registers.

ghost use Rattle.std.specs.Prelude.{◌≡◌, ◌<◌, ℕ, min, ◌^◌};
ghost use Rattle.std.specs.List.{position};
ghost use Rattle.std.specs.Str.{bytes_eq};
ghost use Rattle.program_tokens.specs.Registers.{register_named, register_numbered, has_leading_zero, register_of};

use crate::number::{begins_with_digit, number_in};
use mips_instructions::number::Reg;

/// The names of the registers 1 to 33, in this order (MIPS manual; `hi` and `lo`: this project's choice). That of
/// register 0, `zero`, is longer.
const NAMES: [[u8; 2]; 33] = [
    *b"at", *b"v0", *b"v1", *b"a0", *b"a1", *b"a2", *b"a3", *b"t0", *b"t1", *b"t2", *b"t3", *b"t4",
    *b"t5", *b"t6", *b"t7", *b"s0", *b"s1", *b"s2", *b"s3", *b"s4", *b"s5", *b"s6", *b"s7", *b"t8",
    *b"t9", *b"k0", *b"k1", *b"gp", *b"sp", *b"fp", *b"ra", *b"hi", *b"lo",
];

fn place_of(word: &[u8]) -> Option<usize>
    ensures { result ≡ position (λ name. bytes_eq word.now name) NAMES }
{
    NAMES.iter().position(|name| word == name.as_slice())
}

/// The register of this number.
fn register(number: u8) -> Option<Reg>
    requires { number < 34 }
    ensures { result ≡ Some number }
{
    Reg::new(number)
}

/// The register of this name.
fn register_named(word: &[u8]) -> Option<Reg>
    ensures { result ≡ register_named word.now }
{
    if word == b"zero".as_slice() {
        return register(0);
    }
    match place_of(word) {
        Some(place) => register(place as u8 + 1),
        None => None,
    }
}

/// The register of this number.
fn register_numbered(number: u64) -> Option<Reg>
    ensures { (n : ℕ) → number ≡ min n (2 ^ 40) → result ≡ register_numbered n }
{
    if number > 33 {
        return None;
    }
    register(number as u8)
}

/// Whether a 0 stands before other bytes.
fn has_leading_zero(word: &[u8]) -> bool
    ensures { result ≡ has_leading_zero word.now }
{
    word.len() > 1 && word[0] == b'0'
}

/// The register that a word after a `$` spells.
#[tactic(auto, unfolding(crate::specs::Registers::register_of))]
pub(crate) fn register_of(word: &[u8]) -> Option<Reg>
    ensures { result ≡ register_of word.now }
{
    if !begins_with_digit(word) {
        return register_named(word);
    }
    if has_leading_zero(word) {
        return None;
    }
    number_in(10, word).and_then(register_numbered)
}
