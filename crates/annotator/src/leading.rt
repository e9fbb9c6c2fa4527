//! Inner edges backward.

ghost use Rattle.std.specs.Prelude.{◌≡◌, ℕ, ◌<◌, [], length, replicate, IfOk, OnOk, Some};
ghost use Rattle.annotator.specs.Spreading.{AreLeading, lists_of, with_source};

use std::alloc::{AllocError, Global};
use task_descriptor::program::Program;
use task_graph::edges::next_inside;

/// For each instruction the indices of those that have an inner edge to it. Each instruction has two
/// inner edges at most.
pub(crate) fn leading(alloc: Global, program: &Program) -> Result<Vec<Vec<u32>>, AllocError>
    ensures { IfOk result (λ v. AreLeading program.now (length program.now.code) (lists_of v.items)) }
{
    let count = program.code().len();
    let mut lists = empty_lists(alloc, count)?;
    for i in 0..count {
        let next = next_inside(program, i as u32);
        put(&mut lists, next.first, i as u32)?;
        put(&mut lists, next.second, i as u32)?;
    }
    Ok(lists)
}

fn empty_lists(alloc: Global, count: usize) -> Result<Vec<Vec<u32>>, AllocError>
    ensures { IfOk result (λ v. lists_of v.items ≡ replicate count []) }
{
    let mut lists = Vec::with_capacity(alloc, count)?;
    for _ in 0..count {
        lists.push(Vec::new(alloc))?;
    }
    Ok(lists)
}

/// Appends a source to the list of an index, if there is one.
fn put(lists: &mut Vec<Vec<u32>>, index: Option<u32>, source: u32) -> Result<(), AllocError>
    requires { (j : ℕ) → index ≡ Some j → j < length lists.old.items }
    ensures { OnOk result (lists_of lists.new.items ≡ with_source (lists_of lists.old.items) index source) }
{
    if let Some(j) = index {
        lists[j as usize].push(source)?;
    }
    Ok(())
}
