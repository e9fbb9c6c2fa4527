//! The marks to propose: which instructions carry a forward bit, and what the tasks create.

ghost use Rattle.std.specs.Prelude.{◌≡◌, ℕ, ◌<◌, ◌||◌, ◌↔◌, true, length, IfOk, Some, slice_get, slice_index};
ghost use Rattle.std.specs.List.{All};
ghost use Rattle.mips_instructions.specs.Words.{has};
ghost use Rattle.task_descriptor.specs.Listing.{IsWellFormed};
ghost use Rattle.mark_checker.specs.CheckerSteps.{holds_at};
ghost use Rattle.annotator.specs.Least.{IsLeast};
ghost use Rattle.annotator.specs.Spreading.{AreExact};
ghost use Rattle.annotator.specs.Marking.{WrittenBehind, indices_of, AreMarked, AreMembers, AreCreates, AreForwards};

use crate::updates::{produced_at, writes_last};
use mask_certificate::certificate::Cert;
use mips_instructions::number::RegSet;
use std::alloc::{AllocError, Global};
use task_descriptor::program::Program;
use task_graph::edges::next_inside;

/// A mark for each instruction that is a member of some task.
pub(crate) fn members_of_any(
    alloc: Global,
    program: &Program,
    cert: &Cert,
) -> Result<Vec<bool>, AllocError>
    requires { IsLeast program.now cert.now }
    ensures { IfOk result (λ v. AreMembers program.now (length program.now.tasks) v.items) }
{
    let mut marks = vec![in alloc; false; program.code().len()]?;
    for task in 0..program.tasks().len() {
        mark_all(cert.list(task as u32), &mut marks);
    }
    Ok(marks)
}

/// Sets the marks of the indices of a list.
fn mark_all(list: &[(u32, RegSet)], marks: &mut [bool])
    requires { All (λ entry. entry.0 < length marks.old) list.now }
    ensures { AreMarked (indices_of list.now) marks.old marks.new }
{
    for (index, _) in list {
        marks[*index as usize] = true;
    }
}

/// The forward bit to propose for each instruction.
pub(crate) fn forward_bits(
    alloc: Global,
    program: &Program,
    masks: &[RegSet],
    members: &[bool],
) -> Result<Vec<bool>, AllocError>
    requires masks { AreExact program.now masks.now }
    requires members { AreMembers program.now (length program.now.tasks) members.now }
    ensures { IfOk result (λ v. AreForwards program.now (length program.now.code) v.items) }
{
    let code = program.code();
    let mut bits = Vec::with_capacity(alloc, code.len())?;
    for (i, marked) in code.iter().enumerate() {
        let bit = if members[i] {
            writes_last(&marked.op, written_behind(program, masks, i as u32))
        } else {
            marked.forward
        };
        bits.push(bit)?;
    }
    Ok(bits)
}

/// The registers that paths from the inner successors of the instruction may write.
fn written_behind(program: &Program, masks: &[RegSet], i: u32) -> RegSet
    requires masks { AreExact program.now masks.now }
    requires there { i < length program.now.code }
    ensures { (r : ℕ) → (has result r ≡ true) ↔ WrittenBehind program.now i r }
{
    let next = next_inside(program, i);
    mask_of(masks, next.first).union(mask_of(masks, next.second))
}

/// The mask of an index, if there is one.
fn mask_of(masks: &[RegSet], index: Option<u32>) -> RegSet
    requires { (j : ℕ) → index ≡ Some j → j < length masks.now }
    ensures { (r : ℕ) → has result r ≡ holds_at index (λ j. has (slice_index masks.now j) r) }
{
    match index {
        Some(j) => masks[j as usize],
        None => RegSet::empty(),
    }
}

/// The create mask to propose for each task.
pub(crate) fn create_masks(
    alloc: Global,
    program: &Program,
    cert: &Cert,
) -> Result<Vec<RegSet>, AllocError>
    requires { IsLeast program.now cert.now }
    ensures { IfOk result (λ v. AreCreates program.now (length program.now.tasks) v.items) }
{
    let count = program.tasks().len();
    let mut sets = Vec::with_capacity(alloc, count)?;
    for task in 0..count {
        sets.push(produced_at(program.code(), cert.list(task as u32)))?;
    }
    Ok(sets)
}
