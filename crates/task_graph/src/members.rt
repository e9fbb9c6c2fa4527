//! The instructions that belong to a task.

ghost use Rattle.std.specs.Prelude.{◌≡◌, ℕ, ◌<◌, ◌≤◌, ◌↔◌, true, false, length, filter, Contains, IfOk, Some, None, slice_get, slice_index_or, []};
ghost use Rattle.std.specs.List.Sorted.{IsStrictlyIncreasing};
ghost use Rattle.std.specs.List.{range_with_len};
ghost use Rattle.task_descriptor.specs.declared.descriptor.Descriptor.{Descriptor};
ghost use Rattle.task_graph.specs.Members.{Reaches};
ghost use Rattle.task_graph.specs.SearchSteps.{is_marked};

use crate::edges::next_inside;
use crate::search::mark;
use std::alloc::{AllocError, Global};
use task_descriptor::program::Program;

/// The code indices, in ascending order, of the instructions that task `task` reaches from its entry along
/// inner edges; none for a task number that does not exist. Each instruction is visited once.
///
/// # Errors
///
/// `AllocError` where memory was refused.
pub fn members(alloc: Global, program: &Program, task: u32) -> Result<Vec<u32>, AllocError>
    ensures rising { IfOk result (λ v. IsStrictlyIncreasing v.items) }
    ensures exact { IfOk result
        (λ v. (d : Descriptor) → slice_get program.now.tasks task ≡ Some d → (i : ℕ) → Contains v.items i ↔ Reaches program.now d.entry i) }
    ensures missing { IfOk result (λ v. slice_get program.now.tasks task ≡ None → v.items ≡ []) }
{
    match program.tasks().get(task as usize) {
        Some(descriptor) => {
            let marks = reached(alloc, program, descriptor.entry.get())?;
            marked(alloc, &marks)
        }
        None => Ok(Vec::new(alloc)),
    }
}

/// A mark for each instruction that a path from the entry reaches.
fn reached(alloc: Global, program: &Program, entry: u32) -> Result<Vec<bool>, AllocError>
    requires { entry < length program.now.code }
    ensures sized { IfOk result (λ v. length v.items ≡ length program.now.code) }
    ensures exact { IfOk result (λ v. (i : ℕ) → (is_marked v.items i ≡ true) ↔ Reaches program.now entry i) }
{
    let mut marks = vec![in alloc; false; program.code().len()]?;
    let mut work = Vec::new(alloc);
    mark(&mut marks, &mut work, Some(entry))?;
    while let Some(i) = work.pop() {
        let next = next_inside(program, i);
        mark(&mut marks, &mut work, next.first)?;
        mark(&mut marks, &mut work, next.second)?;
    }
    Ok(marks)
}

/// The indices that have a mark, rising.
fn marked(alloc: Global, marks: &[bool]) -> Result<Vec<u32>, AllocError>
    requires { length marks.now ≤ 4096 }
    ensures { IfOk result (λ v. v.items ≡ filter (is_marked marks.now) (range_with_len 0 (length marks.now))) }
{
    let mut list = Vec::new(alloc);
    for (i, mark) in marks.iter().enumerate() {
        if *mark {
            list.push(i as u32)?;
        }
    }
    Ok(list)
}
