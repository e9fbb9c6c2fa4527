//! Where a task comes without having sent a register: a search forward along inner edges.

ghost use Rattle.std.specs.Prelude.{◌≡◌, ℕ, ◌<◌, ◌↔◌, true, false, [], length, replicate, IfOk, OnOk};
ghost use Rattle.mips_instructions.specs.Words.{has};
ghost use Rattle.task_graph.specs.Edges.{sends as sends_of};
ghost use Rattle.task_graph.specs.Neighbours.{is_among};
ghost use Rattle.task_graph.specs.SearchSteps.{is_marked};
ghost use Rattle.finding_paths.specs.Costly.{ComesUnsent};
ghost use Rattle.finding_paths.specs.Steps.{FollowsUnsent, IsBegun};

use crate::production::released;
use mips_instructions::number::Reg;
use std::alloc::{AllocError, Global};
use task_descriptor::descriptor::Marked;
use task_descriptor::program::Program;
use task_graph::edges::{Next, next_inside};
use task_graph::search::mark;

/// A mark for each instruction to which some task may come without having sent the register.
pub(crate) fn unsent(
    alloc: Global,
    program: &Program,
    register: Reg,
) -> Result<Vec<bool>, AllocError>
    ensures sized { IfOk result (λ v. length v.items ≡ length program.now.code) }
    ensures exact { IfOk result (λ v. (i : ℕ) → (is_marked v.items i ≡ true) ↔ ComesUnsent program.now register i) }
{
    let mut marks = vec![in alloc; false; program.code().len()]?;
    let mut work = Vec::new(alloc);
    begin(program, &mut marks, &mut work)?;
    while let Some(i) = work.pop() {
        let next = next_unsent(program, register, i);
        mark(&mut marks, &mut work, next.first)?;
        mark(&mut marks, &mut work, next.second)?;
    }
    Ok(marks)
}

/// Marks the entry of each task.
fn begin(program: &Program, marks: &mut Vec<bool>, work: &mut Vec<u32>) -> Result<(), AllocError>
    requires unmarked { marks.old.items ≡ replicate (length program.now.code) false }
    requires idle { work.old.items ≡ [] }
    ensures { OnOk result (IsBegun program.now (length program.now.tasks) marks.new.items work.new.items) }
{
    for task in program.tasks() {
        mark(marks, work, Some(task.entry.get()))?;
    }
    Ok(())
}

/// The inner successors of an instruction that does not send the register; none for one that does.
fn next_unsent(program: &Program, register: Reg, i: u32) -> Next
    requires { i < length program.now.code }
    ensures { (j : ℕ) → (is_among result j ≡ true) ↔ FollowsUnsent program.now register i j }
{
    if sends(&program.code()[i as usize], register) {
        Next {
            first: None,
            second: None,
        }
    } else {
        next_inside(program, i)
    }
}

/// Whether the instruction forwards or releases the register.
fn sends(marked: &Marked, register: Reg) -> bool
    ensures { result ≡ sends_of marked.now register }
{
    (marked.forward && marked.op.dests().has(register)) || released(&marked.op).has(register)
}
