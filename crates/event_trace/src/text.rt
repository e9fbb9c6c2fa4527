//! Events, what they changed and how a run is, in words that name the lines of the program text.
//!
//! Each function adds to a text. Where memory is refused, a part may have been added.

use crate::change::Change;
use crate::ending::End;
use crate::ring::Ring;
use crate::unit_change::UnitChange;
use annotated_asm::position::Position;
use event_script::writing::{task_name, write_event};
use machine_model::event::{Event, Refused, Standing};
use mips_instructions::number::Reg;
use std::alloc::AllocError;
use task_descriptor::program::Program;

/// Adds an address in hexadecimal digits after `0x`.
///
/// # Errors
///
/// `AllocError` where memory was refused.
pub fn write_address(text: &mut String, address: u32) -> Result<(), AllocError> {
    write!(text, "0x{address:x}")
}

/// Adds the line of an instruction, given by its code index; the index where `places` lacks it.
///
/// # Errors
///
/// `AllocError` where memory was refused.
pub fn write_place(text: &mut String, places: &[Position], index: u32) -> Result<(), AllocError> {
    match places.get(index as usize) {
        Some(place) => {
            let line = place.line;
            write!(text, "line {line}")
        }
        None => write!(text, "instruction {index}"),
    }
}

/// Adds where an exit leads: the line of the instruction at an address, or the address where there is none.
///
/// # Errors
///
/// `AllocError` where memory was refused.
pub fn write_exit(
    text: &mut String,
    program: &Program,
    places: &[Position],
    address: u32,
) -> Result<(), AllocError> {
    match program.index(address) {
        Some(index) => write_place(text, places, index),
        None => write_address(text, address),
    }
}

/// Adds a register's number with the word that it holds, unsigned: `$8 = 5`; HI is `$32`, LO is `$33`.
///
/// # Errors
///
/// `AllocError` where memory was refused.
pub fn write_register(text: &mut String, register: Reg, word: u32) -> Result<(), AllocError> {
    let number = register.get();
    write!(text, "${number} = {word}")
}

/// Adds a sentence that says how a run is, without a period.
///
/// # Errors
///
/// `AllocError` where memory was refused.
pub fn write_ending(text: &mut String, standing: Standing) -> Result<(), AllocError> {
    match standing {
        Standing::Running => text.push_str("the run goes on"),
        Standing::Halted => text.push_str("the run has halted"),
        Standing::Trapped(trap) => write!(text, "the run is trapped: {trap}"),
        Standing::Unlisted(address) => write!(text, "the run is unlisted: 0x{address:x}"),
    }
}

/// Adds a unit, by its number round the ring and the name of its task.
///
/// # Errors
///
/// `AllocError` where memory was refused.
pub fn write_unit(
    text: &mut String,
    program: &Program,
    unit: usize,
    task: u32,
) -> Result<(), AllocError> {
    let name = task_name(program, task);
    write!(text, "unit {unit}, task {name}")
}

/// Adds the event of this number, which the machine allowed, in the words of a script, and under it what it changed.
/// `places` has the position of each instruction in the program text, by code index; one that it lacks is named by its
/// index. `ring` is the ring before the event.
///
/// # Errors
///
/// `AllocError` where memory was refused.
pub fn write_taken(
    text: &mut String,
    program: &Program,
    places: &[Position],
    number: usize,
    ring: &Ring,
    event: Event,
    changes: &[Change],
) -> Result<(), AllocError> {
    write!(text, "{number} ")?;
    write_event(text, program, event)?;
    text.push_str(": ok\n")?;
    for change in changes {
        text.push_str("    ")?;
        write_change(text, program, places, ring, *change)?;
        text.push_str("\n")?;
    }
    Ok(())
}

/// Adds the event of this number, which the machine refused, in the words of a script, and the reason.
///
/// # Errors
///
/// `AllocError` where memory was refused.
pub fn write_refused(
    text: &mut String,
    program: &Program,
    number: usize,
    event: Event,
    refusal: Refused,
) -> Result<(), AllocError> {
    write!(text, "{number} ")?;
    write_event(text, program, event)?;
    writeln!(text, ": refused {refusal}")
}

/// Adds what an event changed.
fn write_change(
    text: &mut String,
    program: &Program,
    places: &[Position],
    ring: &Ring,
    change: Change,
) -> Result<(), AllocError> {
    match change {
        Change::AtUnit {
            position,
            task,
            change,
        } => {
            write_unit(text, program, ring.number_at(position), task)?;
            text.push_str(": ")?;
            write_unit_change(text, program, places, change)
        }
        Change::Took { register, word } => write_value(text, "takes ", register, word),
        Change::Loaded { address, word } => write!(text, "loads {word} from 0x{address:x}"),
        Change::Stored { address, word, .. } => write!(text, "stores {word} at 0x{address:x}"),
        Change::Wrote { register, word } => write_value(text, "writes ", register, word),
        Change::Sent { register, word } => write_value(text, "sends ", register, word),
        Change::PutOut { word } => write!(text, "puts out {word}"),
        Change::MovedTo { index } => {
            text.push_str("continues at ")?;
            write_place(text, places, index)
        }
        Change::StoppedAt { address } => {
            text.push_str("stops; its exit is ")?;
            write_exit(text, program, places, address)
        }
        Change::Ended { standing } => write_ending(text, standing),
    }
}

/// Adds what changed at a unit.
fn write_unit_change(
    text: &mut String,
    program: &Program,
    places: &[Position],
    change: UnitChange,
) -> Result<(), AllocError> {
    match change {
        UnitChange::Began { index } => {
            text.push_str("begins at ")?;
            write_place(text, places, index)
        }
        UnitChange::Executed { index } => {
            text.push_str("executes ")?;
            write_place(text, places, index)
        }
        UnitChange::Arrived { register, word } => write_value(text, "takes ", register, word),
        UnitChange::Drained { register, word } => write_value(text, "sends ", register, word),
        UnitChange::Squashed => text.push_str("is squashed"),
        UnitChange::Dropped => text.push_str("is dropped"),
        UnitChange::Retired { exit } => {
            text.push_str("retires; its exit is ")?;
            write_exit(text, program, places, exit)
        }
        UnitChange::BecameHead => text.push_str("becomes the head"),
    }
}

/// Adds what was done with a register and its word.
fn write_value(text: &mut String, verb: &str, register: Reg, word: u32) -> Result<(), AllocError> {
    text.push_str(verb)?;
    write_register(text, register, word)
}

/// Adds how a run stands, and its registers and words of memory.
pub(crate) fn write_end(text: &mut String, end: &End) -> Result<(), AllocError> {
    text.push_str("at the end: ")?;
    write_ending(text, end.standing)?;
    text.push_str("\n")?;
    for held in &end.registers {
        write_value(text, "    ", held.register, held.word)?;
        text.push_str("\n")?;
    }
    write_memory(text, end)
}

/// Adds the words of memory.
fn write_memory(text: &mut String, end: &End) -> Result<(), AllocError> {
    for changed in &end.memory {
        let (address, word) = (changed.address, changed.word);
        writeln!(text, "    0x{address:x} = {word}")?;
    }
    Ok(())
}
