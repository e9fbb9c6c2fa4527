//! Pieces of a line: registers, places, numbers, with commas between them.

ghost use Rattle.std.specs.Prelude.{◌≡◌, ℕ, ◌++◌, ◌∷◌, ◌<◌, ◌+◌, [], false, not, OnOk, IfOk, string_bytes, map, ◌%◌};
ghost use Rattle.mips_instructions.specs.Words.{has};
ghost use Rattle.std.specs.Fmt.{digit_glyph};
ghost use Rattle.std.specs.Option.{option_copied};
ghost use Rattle.canonical_text.specs.CanonicalText.{comma_unless as comma_text, no_pieces, commas, listed, members, register_text, place_named, place_text, hexadecimal};

use crate::labels::task_at;
use mips_instructions::number::{Place, Reg, RegSet};
use std::alloc::AllocError;
use task_descriptor::descriptor::Descriptor;

/// A place by its task, or by its index where none begins there.
fn write_named(text: &mut String, task: Option<&Descriptor>, index: u32) -> Result<(), AllocError>
    ensures { OnOk result (string_bytes text.new ≡ string_bytes text.old ++ place_named (option_copied task.entry) index) }
{
    match task {
        Some(task) => text.push_str(task.name.as_str()),
        None => write!(text, "@{index}"),
    }
}

pub(crate) fn write_place(
    text: &mut String,
    tasks: &[Descriptor],
    place: Place,
) -> Result<(), AllocError>
    ensures { OnOk result (string_bytes text.new ≡ string_bytes text.old ++ place_text tasks.now place) }
{
    let index = place.get();
    write_named(text, task_at(tasks, index), index)
}

/// The members of a set, in ascending order; returns whether there is one.
pub(crate) fn write_registers(text: &mut String, set: RegSet) -> Result<bool, AllocError>
    ensures written { OnOk result (string_bytes text.new ≡ string_bytes text.old ++ commas (map register_text (members set))) }
    ensures some { IfOk result (λ some. some ≡ not (no_pieces (map register_text (members set)))) }
{
    let mut is_first = true;
    for number in 0..34u8 {
        if has_number(set, number) {
            write_next_register(text, is_first, number)?;
            is_first = false;
        }
    }
    Ok(!is_first)
}

fn write_next_register(text: &mut String, is_first: bool, number: u8) -> Result<(), AllocError>
    requires { number < 34 }
    ensures { OnOk result (string_bytes text.new ≡ string_bytes text.old ++ (comma_text is_first ++ register_text number)) }
{
    if !is_first {
        text.push(',')?;
    }
    write_register(text, number)
}

/// A register. Its digits are written one by one: a formatter would take longer.
pub(crate) fn write_register(text: &mut String, number: u8) -> Result<(), AllocError>
    requires { number < 34 }
    ensures { OnOk result (string_bytes text.new ≡ string_bytes text.old ++ register_text number) }
{
    text.push('$')?;
    if number < 10 {
        return write_digit(text, number);
    }
    write_digit(text, number / 10)?;
    write_digit(text, number % 10)
}

fn write_digit(text: &mut String, value: u8) -> Result<(), AllocError>
    requires { value < 10 }
    ensures { OnOk result (string_bytes text.new ≡ string_bytes text.old ++ (48 + value) ∷ []) }
{
    text.push(char::from(b'0' + value))
}

fn comma_unless(is_first: bool) -> &'static str
    ensures { result.now ≡ comma_text is_first }
{
    if is_first { "" } else { "," }
}

fn has_number(set: RegSet, number: u8) -> bool
    requires { number < 34 }
    ensures { result ≡ has set number }
{
    Reg::new(number).is_some_and(|register| set.has(register))
}

pub(crate) fn write_places(
    text: &mut String,
    tasks: &[Descriptor],
    places: &[Place],
) -> Result<(), AllocError>
    ensures { OnOk result (string_bytes text.new ≡ string_bytes text.old ++ commas (map (place_text tasks.now) places.now)) }
{
    for (index, place) in places.iter().enumerate() {
        write_next_place(text, index == 0, tasks, *place)?;
    }
    Ok(())
}

fn write_next_place(
    text: &mut String,
    is_first: bool,
    tasks: &[Descriptor],
    place: Place,
) -> Result<(), AllocError>
    ensures { OnOk result (string_bytes text.new ≡ string_bytes text.old ++ (comma_text is_first ++ place_text tasks.now place)) }
{
    text.push_str(comma_unless(is_first))?;
    write_place(text, tasks, place)
}

/// The last hexadecimal digit of a number.
fn last_digit(number: u32) -> u8
    ensures { result ≡ digit_glyph false (number % 16) }
{
    let value = (number % 16) as u8;
    if value < 10 {
        b'0' + value
    } else {
        b'a' + (value - 10)
    }
}

/// The two hexadecimal digits of a byte.
#[tactic(auto, unfolding(crate::specs::CanonicalText::hexadecimal))]
pub(crate) fn byte_digits(byte: u8) -> [u8; 2]
    ensures { result ≡ hexadecimal 2 byte }
{
    let number = u32::from(byte);
    [last_digit(number / 16), last_digit(number)]
}

/// The eight hexadecimal digits of a word.
#[tactic(auto, unfolding(crate::specs::CanonicalText::hexadecimal))]
pub(crate) fn word_digits(word: u32) -> [u8; 8]
    ensures { result ≡ hexadecimal 8 word }
{
    let g = word / 16;
    let f = g / 16;
    let e = f / 16;
    let d = e / 16;
    let c = d / 16;
    let b = c / 16;
    let a = b / 16;
    [
        last_digit(a),
        last_digit(b),
        last_digit(c),
        last_digit(d),
        last_digit(e),
        last_digit(f),
        last_digit(g),
        last_digit(word),
    ]
}
