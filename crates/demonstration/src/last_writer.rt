//! Which instruction of the sequential program wrote a register last.

ghost use Rattle.std.specs.Prelude.{◌≡◌, ◌&&◌, not, if◌then◌else◌, Some, IfOk};
ghost use Rattle.mips_plain.specs.PlainMachine.{fetch};
ghost use Rattle.task_descriptor.specs.Listing.{input};
ghost use Rattle.demonstration.specs.LastWriter.{HasWordFrom, is_trapped, is_written_by};

use mips_instructions::number::Reg;
use mips_plain::outcome::{OutOfMemory, Outcome};
use std::alloc::Global;
use task_descriptor::program::Program;

/// Whether the instruction at an address has a register among those that it writes.
fn is_writer(program: &Program, pc: u32, register: Reg) -> bool
    ensures { result ≡ is_written_by (fetch (input program.now).code pc) register }
{
    match program.index(pc) {
        Some(index) => program.code()[index as usize].op.dests().has(register),
        None => false,
    }
}

/// The address of the instruction that wrote a register last, after a step of the instruction at `pc`.
fn later(before: Option<u32>, pc: u32, writes: bool, outcome: Outcome) -> Option<u32>
    ensures { result ≡ (if writes && not (is_trapped outcome) then Some pc else before) }
{
    match outcome {
        Outcome::Trapped(_) => before,
        Outcome::Running | Outcome::Halted => if writes { Some(pc) } else { before },
    }
}

/// The address of the instruction that wrote a register last in the plain machine's first steps; `None` where none did.
pub(crate) fn last_writer(
    alloc: Global,
    program: &Program,
    register: Reg,
    steps: usize,
) -> Result<Option<u32>, OutOfMemory>
    ensures { IfOk result (HasWordFrom program.now register steps) }
{
    let mut plain = program.plain(alloc)?;
    let mut writer = None;
    for made in 0..steps {
        let pc = plain.pc();
        let writes = is_writer(program, pc, register);
        plain.step()?;
        writer = later(writer, pc, writes, plain.outcome());
    }
    Ok(writer)
}
