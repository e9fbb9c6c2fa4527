//! The state of a machine's units, in words.

use annotated_asm::position::Position;
use event_trace::ring::Ring;
use event_trace::text::{write_exit, write_place, write_register, write_unit};
use json_text::Written;
use machine_model::event::Spot;
use mips_instructions::number::Reg;
use sequencer::machine::Machine;
use std::alloc::{AllocError, Global};
use task_descriptor::program::Program;
use unit_core::unit::Unit;

/// The state of the units of a machine that runs a program, after a line that introduces it, the head first: the task of
/// each and its line in the text; the registers that it has, that arrived and that it sent, with their words unless these
/// are 0; and the registers that it waits for. `places` has the positions of the instructions in the program text, and
/// `ring` gives the units their numbers.
///
/// # Errors
///
/// `AllocError` where memory was refused.
pub fn stand(
    alloc: Global,
    program: &Program,
    places: &[Position],
    ring: &Ring,
    machine: &Machine<'_>,
) -> Result<String, AllocError> {
    let mut text = String::new(alloc);
    writeln!(text, "the units then, without registers of 0:")?;
    for position in 0..machine.active() {
        if let Some(unit) = machine.unit(position) {
            write!(text, "    ")?;
            write_unit(&mut text, program, ring.number_at(position), unit.task())?;
            match unit.spot() {
                Spot::Inside(index) => {
                    write!(text, ": at ")?;
                    write_place(&mut text, places, index)?;
                }
                Spot::Stopped(address) => {
                    write!(text, ": stopped; its exit is ")?;
                    write_exit(&mut text, program, places, address)?;
                }
            }
            writeln!(text, "")?;
            write_registers(alloc, &mut text, unit)?;
        }
    }
    Ok(text)
}

// Adds the registers that a unit has, that arrived and that it sent, and those that it waits for, each list on a line.
fn write_registers(alloc: Global, text: &mut String, unit: &Unit) -> Written {
    let mut has = String::new(alloc);
    let mut arrived = String::new(alloc);
    let mut sent = String::new(alloc);
    let mut awaited = String::new(alloc);
    for number in 0..34 {
        if let Some(register) = Reg::new(number) {
            write_word(&mut has, register, unit.value(register))?;
            write_word(&mut arrived, register, unit.arrived(register))?;
            write_word(&mut sent, register, unit.sent(register))?;
            if unit.value(register).is_none() {
                write!(awaited, " ${number}")?;
            }
        }
    }
    write_labelled(text, "has:", &has)?;
    write_labelled(text, "arrived:", &arrived)?;
    write_labelled(text, "sent:", &sent)?;
    write_labelled(text, "not there yet:", &awaited)
}

// Adds a register with its word, unless that is 0.
fn write_word(text: &mut String, register: Reg, word: Option<u32>) -> Written {
    match word {
        None | Some(0) => Ok(()),
        Some(word) => {
            write!(text, " ")?;
            write_register(text, register, word)
        }
    }
}

// Adds a list with its label, unless it is empty.
fn write_labelled(text: &mut String, label: &str, list: &str) -> Written {
    if list.is_empty() {
        return Ok(());
    }
    writeln!(text, "        {label}{list}")
}
