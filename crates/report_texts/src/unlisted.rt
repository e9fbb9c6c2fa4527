//! Where a run leaves a task by an exit that the task does not list.

use crate::listing::line_numbers;
use annotated_asm::assembler::assemble;
use annotated_asm::fault::AsmFault;
use mips_instructions::number::Reg;
use mips_plain::outcome::{OutOfMemory, Outcome};
use mips_plain::plain::Plain;
use std::alloc::{AllocError, Global};
use task_descriptor::program::Program;
use task_graph::edges::ends_task;

/// How many instructions are followed at most: as many as a run may have.
const MOST_STEPS: u32 = 1_000_000;

/// A task that a run leaves for a place that is none of its targets: its number, the index of the instruction that it
/// leaves from, and the address that it leaves for.
#[derive(Clone, Copy)]
struct Exit {
    task: u32,
    from: u32,
    to: u32,
}

/// The words for the exit at which a program's run ends as unlisted: the task that continues at a place which is none of its
/// targets, and from which line to which line, or to which address where no instruction is. `None` for any other text.
///
/// # Errors
///
/// `AllocError` where memory was refused.
pub fn unlisted_exit(alloc: Global, text: &[u8]) -> Result<Option<String>, AllocError> {
    let program = match assemble(alloc, text) {
        Ok(program) => program,
        Err(AsmFault::OutOfMemory) => return Err(AllocError),
        Err(_) => return Ok(None),
    };
    let Some(exit) = first_exit(alloc, &program)? else {
        return Ok(None);
    };
    let lines = line_numbers(alloc, text)?;
    let name = match program.tasks().get(exit.task as usize) {
        Some(task) => task.name.as_str(),
        None => "",
    };
    let from = line_at(&lines, exit.from);
    let said = match program.index(exit.to) {
        Some(index) => {
            let to = line_at(&lines, index);
            format!(in alloc;
                "task {name} goes from line {from} to line {to}, which is none of its targets"
            )?
        }
        None => {
            let to = exit.to;
            format!(in alloc;
                "task {name} goes from line {from} to 0x{to:08x}, which is none of its targets"
            )?
        }
    };
    Ok(Some(said))
}

// The line of the instruction of this index.
fn line_at(lines: &[u32], index: u32) -> u32 {
    lines.get(index as usize).copied().unwrap_or(0)
}

// The first exit of a program's run that is not listed.
fn first_exit(alloc: Global, program: &Program) -> Result<Option<Exit>, AllocError> {
    let mut machine = program.plain(alloc).map_err(|_: OutOfMemory| AllocError)?;
    let mut task = program.task_at(program.start().get()).unwrap_or(0);
    for _step in 0..MOST_STEPS {
        let Some(from) = program.index(machine.pc()) else {
            return Ok(None);
        };
        if machine.count() > u64::from(MOST_STEPS) {
            return Ok(None);
        }
        let is_left = is_left(program, &machine, from);
        machine.step().map_err(|_: OutOfMemory| AllocError)?;
        if machine.outcome() != Outcome::Running {
            return Ok(None);
        }
        let to = machine.pc();
        if !is_left {
            continue;
        }
        match next_task(program, task, to) {
            Some(next) => task = next,
            None => return Ok(Some(Exit { task, from, to })),
        }
    }
    Ok(None)
}

// Whether a task ends after the instruction of this index, which is the next one of the machine.
fn is_left(program: &Program, machine: &Plain, index: u32) -> bool {
    let Some(marked) = program.code().get(index as usize) else {
        return false;
    };
    let (first, second) = marked.op.sources();
    let is_taken = marked.op.taken(word(machine, first), word(machine, second));
    ends_task(marked.stop, is_taken)
}

// The word of an operand; 0 where there is none.
fn word(machine: &Plain, register: Option<Reg>) -> u32 {
    match register {
        Some(register) => machine.reg(register),
        None => 0,
    }
}

// The task that begins at an address, where that is a target of a task.
fn next_task(program: &Program, task: u32, address: u32) -> Option<u32> {
    let index = program.index(address)?;
    let targets = program.tasks().get(task as usize)?.targets.as_slice();
    if targets.iter().any(|target| target.get() == index) {
        program.task_at(index)
    } else {
        None
    }
}
