//! Writing the canonical text of a program.

ghost use Rattle.std.specs.Prelude.{◌≡◌, ℕ, ◌++◌, ◌∷◌, ◌+◌, ◌==◌, [], OnOk, IfOk, string_bytes, find, codes, map, length, ◌<◌, ◌≤◌, ◌*◌, slice_index, option_copied};
ghost use Rattle.std.specs.List.{flat_map};
ghost use Rattle.canonical_text.specs.CanonicalText.{line, listed, members, register_text, place_text, task_line, label_line, code_line, code_lines, word_line, byte_line, data_lines, section, start_line, canonical_text};

use crate::instructions::write_marked;
use crate::labels::task_at;
use crate::pieces::{byte_digits, word_digits, write_places, write_registers};
use mips_instructions::number::{Place, RegSet};
use std::alloc::{AllocError, Global};
use task_descriptor::descriptor::{Descriptor, Marked};
use task_descriptor::program::Program;

fn write_task(text: &mut String, tasks: &[Descriptor], task: &Descriptor) -> Result<(), AllocError>
    ensures { OnOk result (string_bytes text.new ≡ string_bytes text.old ++ task_line tasks.now task.now) }
{
    let name = task.name.as_str();
    write!(text, ".task {name} create=")?;
    write_create(text, task.create)?;
    text.push_str(" targets=")?;
    write_targets(text, tasks, task.targets.as_slice())?;
    text.push('\n')?;
    Ok(())
}

/// Appends a create mask as a list: its registers in ascending order, or a `-` where it has none.
///
/// # Errors
///
/// `AllocError` where memory was refused; what the text holds then is not known.
pub fn write_create(text: &mut String, create: RegSet) -> Result<(), AllocError>
    ensures { OnOk result (string_bytes text.new ≡ string_bytes text.old ++ listed (map register_text (members create))) }
{
    if !write_registers(text, create)? {
        text.push_str("-")?;
    }
    Ok(())
}

fn write_targets(
    text: &mut String,
    tasks: &[Descriptor],
    targets: &[Place],
) -> Result<(), AllocError>
    ensures { OnOk result (string_bytes text.new ≡ string_bytes text.old ++ listed (map (place_text tasks.now) targets.now)) }
{
    if targets.is_empty() {
        return text.push('-');
    }
    write_places(text, tasks, targets)
}

fn write_tasks(text: &mut String, tasks: &[Descriptor]) -> Result<(), AllocError>
    ensures { OnOk result (string_bytes text.new ≡ string_bytes text.old ++ flat_map (task_line tasks.now) tasks.now) }
{
    for task in tasks {
        write_task(text, tasks, task)?;
    }
    Ok(())
}

fn write_label(text: &mut String, task: Option<&Descriptor>) -> Result<(), AllocError>
    ensures { OnOk result (string_bytes text.new ≡ string_bytes text.old ++ label_line (option_copied task.entry)) }
{
    match task {
        Some(task) => {
            let name = task.name.as_str();
            writeln!(text, "{name}:")
        }
        None => Ok(()),
    }
}

fn write_instruction(
    text: &mut String,
    tasks: &[Descriptor],
    index: u32,
    marked: &Marked,
) -> Result<(), AllocError>
    ensures { OnOk result (string_bytes text.new ≡ string_bytes text.old ++ code_line tasks.now index marked.now) }
{
    write_label(text, task_at(tasks, index))?;
    write_marked(text, tasks, marked)?;
    text.push('\n')
}

fn write_code(text: &mut String, tasks: &[Descriptor], code: &[Marked]) -> Result<(), AllocError>
    requires { length code.now ≤ 4096 }
    ensures { OnOk result (string_bytes text.new ≡ string_bytes text.old ++ code_lines tasks.now 0 code.now) }
{
    for (index, marked) in code.iter().enumerate() {
        write_instruction(text, tasks, index as u32, marked)?;
    }
    Ok(())
}

// Writes the line of a word, as a whole line of bytes: a formatter would go digit by digit.
fn write_word(text: &mut Vec<u8>, word: u32) -> Result<(), AllocError>
    ensures { OnOk result (text.new.items ≡ text.old.items ++ word_line word) }
{
    let [a, b, c, d, e, f, g, h] = word_digits(word);
    let line = [
        b'.', b'w', b'o', b'r', b'd', b' ', b'0', b'x', a, b, c, d, e, f, g, h, b'\n',
    ];
    text.extend_from_slice(&line)
}

// Writes the line of a byte.
fn write_byte(text: &mut Vec<u8>, byte: u8) -> Result<(), AllocError>
    ensures { OnOk result (text.new.items ≡ text.old.items ++ byte_line byte) }
{
    let [a, b] = byte_digits(byte);
    let line = [b'.', b'b', b'y', b't', b'e', b' ', b'0', b'x', a, b, b'\n'];
    text.extend_from_slice(&line)
}

/// The four bytes of a slice as a word, the lowest first.
fn word_at(bytes: &[u8], at: usize) -> u32
    requires { at + 3 < length bytes.now }
    ensures { result ≡ slice_index bytes.now at + 256 * (slice_index bytes.now (at + 1) + 256 * (slice_index bytes.now (at + 2) + 256 * slice_index bytes.now (at + 3))) }
{
    u32::from_le_bytes([bytes[at], bytes[at + 1], bytes[at + 2], bytes[at + 3]])
}

fn write_bytes(text: &mut Vec<u8>, bytes: &[u8]) -> Result<(), AllocError>
    ensures { OnOk result (text.new.items ≡ text.old.items ++ flat_map byte_line bytes.now) }
{
    for byte in bytes {
        write_byte(text, *byte)?;
    }
    Ok(())
}

fn write_data(text: &mut Vec<u8>, bytes: &[u8]) -> Result<(), AllocError>
    ensures { OnOk result (text.new.items ≡ text.old.items ++ data_lines bytes.now) }
{
    let mut at = 0;
    while bytes.len() - at >= 4 {
        write_word(text, word_at(bytes, at))?;
        at += 4;
    }
    let (_, rest) = bytes.split_at(at);
    write_bytes(text, rest)?;
    Ok(())
}

fn write_section(text: &mut Vec<u8>, name: &[u8], bytes: &[u8]) -> Result<(), AllocError>
    ensures { OnOk result (text.new.items ≡ text.old.items ++ section name.now bytes.now) }
{
    if bytes.is_empty() {
        return Ok(());
    }
    text.extend_from_slice(name)?;
    text.push(b'\n')?;
    write_data(text, bytes)
}

fn write_start(text: &mut String, task: Option<&Descriptor>) -> Result<(), AllocError>
    ensures { OnOk result (string_bytes text.new ≡ string_bytes text.old ++ start_line (option_copied task.entry)) }
{
    match task {
        Some(task) => {
            let name = task.name.as_str();
            writeln!(text, ".start {name}")
        }
        None => Ok(()),
    }
}

/// Roughly how much room the text of a program takes: a line for each instruction and each word of data, and
/// for each task its descriptor and label.
fn room_for(program: &Program) -> usize {
    let words = program.bytes().len() / 4 + program.fixed().len() / 4;
    let mut room = program.code().len() * 40 + words * 17;
    for task in program.tasks() {
        room = room.saturating_add(160 + task.targets.as_slice().len() * 34);
    }
    room
}

/// The canonical text of a program: `.start`, the tasks in order, the instructions, one per line, each task's
/// label alone on the line before, then the bytes of data and of read-only data.
///
/// # Errors
///
/// `AllocError` where memory was refused.
pub fn print(alloc: Global, program: &Program) -> Result<Vec<u8>, AllocError>
    ensures { IfOk result (λ text. text.items ≡ canonical_text program.now) }
{
    let tasks = program.tasks();
    let mut text = String::with_capacity(alloc, room_for(program))?;
    write_start(&mut text, task_at(tasks, program.start().get()))?;
    write_tasks(&mut text, tasks)?;
    write_code(&mut text, tasks, program.code())?;
    let mut text = text.into_bytes();
    write_section(&mut text, b".data", program.bytes())?;
    write_section(&mut text, b".rodata", program.fixed())?;
    Ok(text)
}
