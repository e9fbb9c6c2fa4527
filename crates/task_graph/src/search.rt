//! A step of a search along edges: one more index is marked.

ghost use Rattle.std.specs.Prelude.{◌≡◌, ℕ, ◌<◌, length, OnOk, Some};
ghost use Rattle.task_graph.specs.SearchSteps.{mark_of, work_of};

use std::alloc::AllocError;

/// Marks a code index, and adds it to the work if it had no mark; `marks` has an element for the index.
///
/// # Errors
///
/// `AllocError` where memory was refused; what marks and work hold then is not known.
pub fn mark(
    marks: &mut Vec<bool>,
    work: &mut Vec<u32>,
    index: Option<u32>,
) -> Result<(), AllocError>
    requires { (j : ℕ) → index ≡ Some j → j < length marks.old.items }
    ensures marks { OnOk result (marks.new.items ≡ mark_of index marks.old.items) }
    ensures work { OnOk result (work.new.items ≡ work_of index marks.old.items work.old.items) }
{
    if let Some(j) = index {
        if !marks[j as usize] {
            work.push(j)?;
        }
        marks[j as usize] = true;
    }
    Ok(())
}
