//! Reading the lines of a script with expectations.

ghost use Rattle.std.specs.Prelude.{◌≡◌, ◌==◌, ◌^◌, ◌≤◌, drop, length, min, position, true, false, nat_eq, MatchOption};
ghost use Rattle.std.specs.Char.{is_ascii_digit};
ghost use Rattle.std.specs.List.{list_all, starts_with};
ghost use Rattle.std.specs.Option.{option_map};
ghost use Rattle.program_tokens.specs.Numbers.{magnitude_of, number_in};
ghost use Rattle.strict_replay.specs.StrictScript.{address_in, behind_colon, content, event_text, expectation_in, expectation_of, is_silent, refusal_words_in, standing_in, trap_in, trimmed, without_first_spaces, without_last_spaces, word_in};

use crate::expectation::{Expectation, ExpectedRefusal};
use event_script::reading::register_of;
use machine_model::event::Standing;
use mips_plain::outcome::Trap;

/// Where a byte first occurs.
pub(crate) fn place_of(wanted: u8, text: &[u8]) -> Option<usize>
    ensures { result ≡ position (λ byte. byte == wanted) text.now }
{
    text.iter().position(|byte| *byte == wanted)
}

/// The text without the spaces at its beginning.
fn without_first_spaces(text: &[u8]) -> &[u8]
    ensures { result.now ≡ without_first_spaces text.now }
{
    let mut rest = text;
    while !rest.is_empty() && rest[0] == b' ' {
        rest = &rest[1..];
    }
    rest
}

/// The text without the spaces at its end.
fn without_last_spaces(text: &[u8]) -> &[u8]
    ensures { result.now ≡ without_last_spaces text.now }
{
    let mut end = text.len();
    while end > 0 && text[end - 1] == b' ' {
        end -= 1;
    }
    &text[..end]
}

/// The text without the spaces at its ends.
pub(crate) fn trimmed(text: &[u8]) -> &[u8]
    ensures { result.now ≡ trimmed text.now }
{
    without_last_spaces(without_first_spaces(text))
}

/// What stands behind these words and spaces, where a text begins with the words.
pub(crate) fn behind<'t>(words: &[u8], text: &'t [u8]) -> Option<&'t [u8]>
    ensures { MatchOption result
        (starts_with nat_eq text.now words.now ≡ false)
        (λ rest. (starts_with nat_eq text.now words.now ≡ true) × (rest.now ≡ without_first_spaces (drop (length words.now) text.now))) }
{
    if text.starts_with(words) {
        Some(without_first_spaces(&text[words.len()..]))
    } else {
        None
    }
}

/// A line without its comment.
pub(crate) fn content(line: &[u8]) -> &[u8]
    ensures { result.now ≡ content line.now }
{
    match place_of(b'#', line) {
        Some(end) => trimmed(&line[..end]),
        None => trimmed(line),
    }
}

/// Whether these are decimal digits, or none.
fn are_digits(text: &[u8]) -> bool
    ensures { result ≡ list_all is_ascii_digit text.now }
{
    text.iter().all(|byte| byte.is_ascii_digit())
}

/// Whether a line has no event: nothing stands there, or `step` and a number.
pub(crate) fn is_silent(content: &[u8]) -> bool
    ensures { result ≡ is_silent content.now }
{
    content.is_empty()
        || content.starts_with(b"step ".as_slice())
            && are_digits(without_first_spaces(&content[5..]))
}

/// What stands before the colon, where the event is.
pub(crate) fn event_text(content: &[u8]) -> &[u8]
    ensures { result.now ≡ event_text content.now }
{
    match place_of(b':', content) {
        Some(end) => without_last_spaces(&content[..end]),
        None => without_last_spaces(content),
    }
}

/// What stands after the colon, if there is one.
pub(crate) fn behind_colon(content: &[u8]) -> &[u8]
    ensures { result.now ≡ behind_colon content.now }
{
    match place_of(b':', content) {
        Some(colon) => trimmed(&content[colon + 1..]),
        None => &[],
    }
}

/// The refusal that words spell: its number, and perhaps its register.
pub(crate) fn refusal_words_in(words: &[u8]) -> Option<ExpectedRefusal>
    ensures { result ≡ refusal_words_in words.now }
{
    let Some(end) = place_of(b' ', words) else {
        let number = word_in(words)?;
        return Some(ExpectedRefusal {
            number,
            register: None,
        });
    };
    let number = word_in(&words[..end])?;
    let register = register_of(without_first_spaces(&words[end..]))?;
    Some(ExpectedRefusal {
        number,
        register: Some(register),
    })
}

/// The word that digits of a radix spell, with 2^32 for a larger one.
#[tactic(auto, unfolding(program_tokens::specs::Numbers::number_in))]
fn number_in(radix: u32, text: &[u8]) -> Option<u64>
    requires small { radix ≤ 16 }
    requires large { 2 ≤ radix }
    ensures { result ≡ option_map (λ n. min n (2 ^ 32)) (number_in radix text.now) }
{
    if text.is_empty() {
        return None;
    }
    let mut value: u64 = 0;
    for byte in text {
        let digit = char::from(*byte).to_digit(radix)?;
        value = (value * u64::from(radix) + u64::from(digit)).min(1 << 32);
    }
    Some(value)
}

/// The word that `0x` and hexadecimal digits or decimal digits spell.
#[tactic(auto, unfolding(program_tokens::specs::Numbers::magnitude_of))]
pub(crate) fn word_in(text: &[u8]) -> Option<u32>
    ensures { result ≡ word_in text.now }
{
    let number = if text.starts_with(b"0x".as_slice()) {
        number_in(16, &text[2..])
    } else {
        number_in(10, text)
    };
    u32::try_from(number?).ok()
}

/// The trap of a number and a name.
fn trap_in(text: &[u8]) -> Option<Trap>
    ensures { result ≡ trap_in text.now }
{
    if text == b"1 Unaligned".as_slice() {
        Some(Trap::Unaligned)
    } else if text == b"2 OutOfRange".as_slice() {
        Some(Trap::OutOfRange)
    } else if text == b"3 BadPc".as_slice() {
        Some(Trap::BadPc)
    } else if text == b"4 ReadOnly".as_slice() {
        Some(Trap::ReadOnly)
    } else {
        None
    }
}

/// How a run stands, as words spell it.
fn standing_in(text: &[u8]) -> Option<Standing>
    ensures { result ≡ standing_in text.now }
{
    if text == b"running".as_slice() {
        return Some(Standing::Running);
    }
    if text == b"halted".as_slice() {
        return Some(Standing::Halted);
    }
    if let Some(words) = behind(b"trapped ", text) {
        let trap = trap_in(words)?;
        return Some(Standing::Trapped(trap));
    }
    let address = word_in(behind(b"unlisted ", text)?)?;
    Some(Standing::Unlisted(address))
}

/// The address between brackets.
fn address_in(name: &[u8]) -> Option<u32>
    ensures { result ≡ address_in name.now }
{
    if name.len() > 1 && name[0] == b'[' && name[name.len() - 1] == b']' {
        word_in(&name[1..name.len() - 1])
    } else {
        None
    }
}

/// What is expected of a name and a word: `out`, `sends $R`, or a place, `[A]` or `$R`.
fn expectation_of(name: &[u8], word: u32) -> Option<Expectation>
    ensures { result ≡ expectation_of name.now word }
{
    if name == b"out".as_slice() {
        return Some(Expectation::Output { word });
    }
    if let Some(sent) = behind(b"sends ", name) {
        let register = register_of(sent)?;
        return Some(Expectation::Sends { register, word });
    }
    if let Some(address) = address_in(name) {
        return Some(Expectation::Memory { address, word });
    }
    let register = register_of(name)?;
    Some(Expectation::Register { register, word })
}

/// The expectation that a part spells: `stops A`, `ends` and how the run ends, or a name, an equals sign and a word.
pub(crate) fn expectation_in(part: &[u8]) -> Option<Expectation>
    ensures { result ≡ expectation_in part.now }
{
    if let Some(words) = behind(b"stops ", part) {
        let address = word_in(words)?;
        return Some(Expectation::Stops { address });
    }
    if let Some(words) = behind(b"ends ", part) {
        let standing = standing_in(words)?;
        return Some(Expectation::Ends { standing });
    }
    let end = place_of(b'=', part)?;
    let word = word_in(trimmed(&part[end + 1..]))?;
    expectation_of(trimmed(&part[..end]), word)
}
