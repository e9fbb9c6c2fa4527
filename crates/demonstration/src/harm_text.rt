//! A harm in one sentence.

use crate::judge::{Evidence, Harm, Stale, WrongWord};
use crate::last_writer::last_writer;
use annotated_asm::position::Position;
use event_script::writing::task_name;
use event_trace::text::write_exit;
use mips_instructions::instruction::Op;
use mips_instructions::number::Reg;
use mips_plain::outcome::{OutOfMemory, Read};
use std::alloc::{AllocError, Global};
use task_descriptor::program::Program;

/// Adds a harm: where it is done and to which task, what the sequential program has there, and where that was written.
pub(crate) fn write_harm(
    alloc: Global,
    text: &mut String,
    program: &Program,
    places: &[Position],
    evidence: &Evidence,
) -> Result<(), AllocError> {
    let task = task_name(program, evidence.task);
    match evidence.harm {
        Harm::Stale(stale) => {
            write_exit(text, program, places, stale.read.pc)?;
            write!(text, ": task {task}")?;
            write_stale(alloc, text, program, places, stale)
        }
        Harm::CutOff(cut) => {
            write_exit(text, program, places, cut.from)?;
            write!(text, ": task {task} continues to ")?;
            write_exit(text, program, places, cut.at)?;
            text.push_str(
                ", which is none of its targets, and the run ends; the sequential program continues there",
            )
        }
        Harm::Held(held) => {
            write!(text, "task {task}")?;
            write_wrong_word(alloc, text, program, places, " has ", held)
        }
    }
}

// What an instruction does that the sequential program does not: it reads a wrong word, or is executed in the place of
// another, or after the end.
fn write_stale(
    alloc: Global,
    text: &mut String,
    program: &Program,
    places: &[Position],
    stale: Stale,
) -> Result<(), AllocError> {
    let Some(right) = stale.right else {
        return text.push_str(" executes this; the sequential program has ended");
    };
    if stale.read.pc != right.pc {
        text.push_str(" executes this; the sequential program executes ")?;
        return write_exit(text, program, places, right.pc);
    }
    let index = program.index(stale.read.pc);
    match index.and_then(|index| program.code().get(index as usize)) {
        Some(marked) => {
            let wrong = wrong_operand(&marked.op, stale.number, stale.read, right);
            write_wrong_word(alloc, text, program, places, " reads ", wrong)
        }
        None => text.push_str(" executes no instruction"),
    }
}

// A wrong word, the one that it should be, and where the sequential program wrote that.
fn write_wrong_word(
    alloc: Global,
    text: &mut String,
    program: &Program,
    places: &[Position],
    does: &str,
    wrong: WrongWord,
) -> Result<(), AllocError> {
    let WrongWord {
        number,
        register,
        word,
        right,
    } = wrong;
    let writer = last_writer(alloc, program, register, number).map_err(
        |_: OutOfMemory| AllocError,
    )?;
    let register = register.get();
    write!(
        text,
        "{does}{word} in ${register}; the sequential program has {right}"
    )?;
    match writer {
        Some(address) => {
            write!(text, ", written at ")?;
            write_exit(text, program, places, address)
        }
        None => write!(text, ", as at the start"),
    }
}

// The operand of an instruction that is wrong: its first, or its second where the first is right.
fn wrong_operand(op: &Op, number: usize, read: Read, right: Read) -> WrongWord {
    let (first, second) = op.sources();
    let (source, word, right) = if read.a == right.a {
        (second, read.b, right.b)
    } else {
        (first, read.a, right.a)
    };
    WrongWord {
        number,
        register: register_of(source),
        word,
        right,
    }
}

// The register of an operand; register 0 where there is no operand.
fn register_of(source: Option<Reg>) -> Reg {
    match source.or(Reg::new(0)) {
        Some(register) => register,
        None => unreachable!(),
    }
}
