//! For each register that is released, the instructions to which some task may come without having sent it.

ghost use Rattle.std.specs.Prelude.{◌≡◌, ℕ, ◌<◌, ◌↔◌, ◌&&◌, true, Some, [], length, IfOk, slice_get, slice_index_or};
ghost use Rattle.mips_instructions.specs.Words.{has};
ghost use Rattle.mips_instructions.specs.Instruction.{released as released_by};
ghost use Rattle.task_descriptor.specs.declared.descriptor.Marked.{Marked};
ghost use Rattle.task_graph.specs.SearchSteps.{is_marked};
ghost use Rattle.finding_paths.specs.Costly.{ComesUnsent, IsSentBefore};
ghost use Rattle.finding_paths.specs.Steps.{AreReaching, AreUnsent, HasReleased, IsReleased, marks_of};

use crate::production::released;
use crate::reaching::is_member;
use crate::sending::unsent;
use mips_instructions::number::{REGISTERS, Reg, RegSet};
use std::alloc::{AllocError, Global};
use task_descriptor::descriptor::Marked;
use task_descriptor::program::Program;

/// The registers that instructions release.
fn all_released(code: &[Marked]) -> RegSet
    ensures { HasReleased code.now (length code.now) result }
{
    let mut set = RegSet::empty();
    for marked in code {
        set = set.union(released(&marked.op));
    }
    set
}

/// The marks of a register that is released; none for any other, which nobody asks about.
fn marks_if_released(
    alloc: Global,
    program: &Program,
    set: RegSet,
    register: Reg,
) -> Result<Vec<bool>, AllocError>
    requires { HasReleased program.now.code (length program.now.code) set }
    ensures sized { IfOk result (λ v. IsReleased program.now register → length v.items ≡ length program.now.code) }
    ensures exact { IfOk result (λ v. (i : ℕ) → IsReleased program.now register → (is_marked v.items i ≡ true) ↔ ComesUnsent program.now register i) }
{
    if set.has(register) {
        unsent(alloc, program, register)
    } else {
        Ok(Vec::new(alloc))
    }
}

/// The marks of each register that is released, register 0 first.
pub(crate) fn unsent_table(alloc: Global, program: &Program) -> Result<Vec<Vec<bool>>, AllocError>
    ensures { IfOk result (λ table. AreUnsent program.now 34 (marks_of table.items)) }
{
    let set = all_released(program.code());
    let mut table = Vec::with_capacity(alloc, REGISTERS)?;
    for number in 0..REGISTERS as u8 {
        let Some(register) = Reg::new(number) else {
            unreachable!()
        };
        table.push(marks_if_released(alloc, program, set, register)?)?;
    }
    Ok(table)
}

/// Whether the instruction releases the register, which was sent before on each path to it.
pub(crate) fn is_sent_before(
    program: &Program,
    reaching: &[Option<u32>],
    table: &[Vec<bool>],
    index: u32,
    register: Reg,
) -> bool
    requires reaching { AreReaching program.now (length program.now.tasks) reaching.now }
    requires table { AreUnsent program.now 34 (marks_of table.now) }
    requires there { index < length program.now.code }
    ensures { (result ≡ true) ↔ IsSentBefore program.now index register }
{
    let marked = &program.code()[index as usize];
    if !released(&marked.op).has(register) {
        return false;
    }
    if comes_unsent(table, register, index) {
        return false;
    }
    is_member(program, reaching, index)
}

/// The mark of a register at an instruction.
fn comes_unsent(table: &[Vec<bool>], register: Reg, index: u32) -> bool
    requires register { register < length table.now }
    requires index { index < length (slice_index_or (marks_of table.now) register []) }
    ensures { result ≡ is_marked (slice_index_or (marks_of table.now) register []) index }
{
    table[register.get() as usize][index as usize]
}
