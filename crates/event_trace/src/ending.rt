//! The end of a trace: how the run is, and what registers and memory hold.

ghost use Rattle.std.specs.Prelude.{◌≡◌, ◌++◌, ◌*◌, ◌<◌, ◌^◌, Some, length, slice_index, IfOk, OnOk};
ghost use Rattle.mips_plain.specs.MemoryMap.{byte_of, number_at};
ghost use Rattle.sequencer.specs.Machines.{state};
ghost use Rattle.event_trace.specs.Ending.{IsEndOf, changed, changed_words, head_value, head_words, held};

use machine_model::event::Standing;
use mips_instructions::number::Reg;
use mips_plain::memory::DATA_START;
use sequencer::machine::Machine;
use std::alloc::{AllocError, Global};

/// A register with its word.
#[derive(Clone, Copy, Debug, PartialEq, Eq)]
pub struct RegisterWord {
    /// The register.
    pub register: Reg,
    /// The word that it holds.
    pub word: u32,
}

/// A word of data memory with its address.
#[derive(Clone, Copy, Debug, PartialEq, Eq)]
pub struct MemoryWord {
    /// The address, a multiple of 4.
    pub address: u32,
    /// The word there.
    pub word: u32,
}

/// The state of a run after some events, as a trace reports it.
#[derive(Debug, Drop)]
pub struct End {
    /// How the run ended, if it has.
    pub standing: Standing,
    /// The registers of the head that are not 0, by rising numbers.
    pub registers: Vec<RegisterWord>,
    /// The words of data memory that differ from those at the start, by rising addresses.
    pub memory: Vec<MemoryWord>,
}

/// The state of a machine's run, whose data memory had the bytes `start` at the start.
///
/// # Errors
///
/// `AllocError` where memory was refused.
pub fn end_of(alloc: Global, machine: &Machine<'_>, start: &[u8]) -> Result<End, AllocError>
    ensures { IfOk result (IsEndOf (byte_of start.now) (state machine.now)) }
{
    let standing = machine.outcome();
    let registers = head_words(alloc, machine)?;
    let memory = changed_words(alloc, start, machine.memory().bytes())?;
    Ok(End {
        standing,
        registers,
        memory,
    })
}

/// The registers of the head that are not 0.
fn head_words(alloc: Global, machine: &Machine<'_>) -> Result<Vec<RegisterWord>, AllocError>
    ensures { IfOk result (λ words. words.items ≡ head_words (state machine.now)) }
{
    let mut words = Vec::new(alloc);
    for number in 0..34 {
        add_held(&mut words, machine, number)?;
    }
    Ok(words)
}

/// Adds a register of the head, if it is not 0.
fn add_held(
    words: &mut Vec<RegisterWord>,
    machine: &Machine<'_>,
    number: u8,
) -> Result<(), AllocError>
    requires { number < 34 }
    ensures { OnOk result (words.new.items ≡ words.old.items ++ held number (head_value (state machine.now) number)) }
{
    let Some(register) = Reg::new(number) else {
        unreachable!();
    };
    match machine.value(0, register) {
        Some(word) => add_word(words, register, word),
        None => Ok(()),
    }
}

/// Adds a register with its word, if that is not 0.
fn add_word(words: &mut Vec<RegisterWord>, register: Reg, word: u32) -> Result<(), AllocError>
    ensures { OnOk result (words.new.items ≡ words.old.items ++ held register (Some word)) }
{
    if word == 0 {
        return Ok(());
    }
    words.push(RegisterWord { register, word })?;
    Ok(())
}

/// The words of data memory that are not what they were at the start.
fn changed_words(alloc: Global, start: &[u8], bytes: &[u8]) -> Result<Vec<MemoryWord>, AllocError>
    requires { length bytes.now ≡ 65536 }
    ensures { IfOk result (λ words. words.items ≡ changed_words (byte_of start.now) (byte_of bytes.now)) }
{
    let mut words = Vec::new(alloc);
    for number in 0..bytes.len() / 4 {
        add_changed(&mut words, start, bytes, number)?;
    }
    Ok(words)
}

/// Adds the word of a number, if it is not what it was at the start.
fn add_changed(
    words: &mut Vec<MemoryWord>,
    start: &[u8],
    bytes: &[u8],
    number: usize,
) -> Result<(), AllocError>
    requires { number < 2 ^ 20 }
    ensures { OnOk result (words.new.items ≡ words.old.items
        ++ changed number (number_at 4 (byte_of start.now) (number * 4)) (number_at 4 (byte_of bytes.now) (number * 4))) }
{
    let word = word_at(bytes, number * 4);
    if word_at(start, number * 4) == word {
        return Ok(());
    }
    let address = DATA_START + number as u32 * 4;
    words.push(MemoryWord { address, word })?;
    Ok(())
}

/// The word at an offset of some bytes, little-endian, with zeros after the bytes.
fn word_at(bytes: &[u8], at: usize) -> u32
    requires { at < 2 ^ 32 }
    ensures { result ≡ number_at 4 (byte_of bytes.now) at }
{
    u32::from_le_bytes([
        byte_at(bytes, at),
        byte_at(bytes, at + 1),
        byte_at(bytes, at + 2),
        byte_at(bytes, at + 3),
    ])
}

/// The byte at an offset, 0 past the end of the bytes.
fn byte_at(bytes: &[u8], at: usize) -> u8
    ensures { result ≡ slice_index bytes.now at }
{
    bytes.get(at).copied().unwrap_or(0)
}
