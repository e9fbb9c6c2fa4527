//! The search for a path, breadth first: each instruction is visited once, and nearer ones sooner.

ghost use Rattle.std.specs.Prelude.{◌≡◌, ℕ, ◌<◌, ◌↔◌, true, Some, length, slice_get, IfOk, OnOk, IfSome, IfNone};
ghost use Rattle.task_graph.specs.Edges.{Path};
ghost use Rattle.finding_paths.specs.Witnesses.{is_sought, Onward, LeadsTo, LeadsOnward, NoneShorter};
ghost use Rattle.finding_paths.specs.Visits.{marks_with, visits_with};

use crate::sought::Sought;
use crate::trail::trail;
use crate::visits::Visit;
use std::alloc::{AllocError, Global};
use task_descriptor::program::Program;
use task_graph::edges::next_inside;

/// A shortest path from the instruction at code index `start` along inner edges to what is sought, as the code
/// indices that it visits, `start` first; it may be `start` alone. `None` where there is no such path.
///
/// # Errors
///
/// `AllocError` where memory was refused.
pub fn path_to(
    alloc: Global,
    program: &Program,
    start: u32,
    sought: &Sought,
) -> Result<Option<Vec<u32>>, AllocError>
    requires { start < length program.now.code }
    ensures found { IfOk result (λ answer. IfSome answer (λ path. LeadsTo program.now start sought.now path.items)) }
    ensures shortest { IfOk result (λ answer. IfSome answer (λ path. NoneShorter (LeadsTo program.now start sought.now) path.items)) }
    ensures none { IfOk result
        (λ answer. IfNone answer ((k : ℕ) → Path program.now start k → is_sought program.now sought.now k ≡ true → ⊥)) }
{
    if is_it(program, sought, start) {
        let mut path = Vec::new(alloc);
        path.push(start)?;
        return Ok(Some(path));
    }
    path_onward(alloc, program, start, sought)
}

/// A shortest path of at least one inner edge from the instruction at code index `start` to what is sought, as
/// the code indices that it visits, `start` first. `None` where there is no such path.
///
/// # Errors
///
/// `AllocError` where memory was refused.
pub fn path_onward(
    alloc: Global,
    program: &Program,
    start: u32,
    sought: &Sought,
) -> Result<Option<Vec<u32>>, AllocError>
    requires { start < length program.now.code }
    ensures found { IfOk result (λ answer. IfSome answer (λ path. LeadsOnward program.now start sought.now path.items)) }
    ensures shortest { IfOk result (λ answer. IfSome answer (λ path. NoneShorter (LeadsOnward program.now start sought.now) path.items)) }
    ensures none { IfOk result
        (λ answer. IfNone answer ((k : ℕ) → Onward program.now start k → is_sought program.now sought.now k ≡ true → ⊥)) }
{
    let mut marks = vec![in alloc; false; program.code().len()]?;
    let mut visits = Vec::new(alloc);
    visits.push(Visit {
        index: start,
        from: 0,
    })?;
    let mut number = 0;
    while number < visits.len() {
        let here = visits[number];
        if is_end(program, sought, number, here.index) {
            let mut path = trail(alloc, &visits, here.from)?;
            path.push(here.index)?;
            return Ok(Some(path));
        }
        let next = next_inside(program, here.index);
        visit(&mut marks, &mut visits, next.first, number)?;
        visit(&mut marks, &mut visits, next.second, number)?;
        number += 1;
    }
    Ok(None)
}

/// Whether a path ends at the visit of this number: it is not the first, and its instruction is sought.
fn is_end(program: &Program, sought: &Sought, number: usize, index: u32) -> bool
    requires { index < length program.now.code }
    ensures { (result ≡ true) ↔ ((0 < number) × (is_sought program.now sought.now index ≡ true)) }
{
    number > 0 && is_it(program, sought, index)
}

/// Adds a visit of the index and marks it, if it had no mark.
fn visit(
    marks: &mut Vec<bool>,
    visits: &mut Vec<Visit>,
    index: Option<u32>,
    from: usize,
) -> Result<(), AllocError>
    requires { (j : ℕ) → index ≡ Some j → j < length marks.old.items }
    ensures marks { OnOk result (marks.new.items ≡ marks_with index marks.old.items) }
    ensures visits { OnOk result (visits.new.items ≡ visits_with index from marks.old.items visits.old.items) }
{
    if let Some(index) = index {
        if !marks[index as usize] {
            visits.push(Visit { index, from })?;
            marks[index as usize] = true;
        }
    }
    Ok(())
}

/// Whether the instruction at `i` is sought.
fn is_it(program: &Program, sought: &Sought, i: u32) -> bool
    requires { i < length program.now.code }
    ensures { result ≡ is_sought program.now sought.now i }
{
    match *sought {
        Sought::At(index) => i == index,
        Sought::Writes(register) => program.code()[i as usize].op.dests().has(register),
    }
}
