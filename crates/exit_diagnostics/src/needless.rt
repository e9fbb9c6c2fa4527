//! Whether a stop should not be there: without it, the exits of all tasks that reach it would be right from there on.

use crate::stop::{is_indirect, stops_always};
use mark_subjects::subject::{Made, Subject, end_of, is_end};
use mark_subjects::targets::is_among;
use std::marker::Model;
use task_descriptor::descriptor::{Marked, Stop};
use task_graph::edges::Next;
use task_graph::search::mark;

/// The instructions of a program, of which one has lost its stop.
#[derive(Drop)]
struct Instructions {
    code: Vec<Marked>,
}

impl Model for Instructions {
    ghost use Rattle.std.specs.Prelude.{List, ◌≤◌, length};
    ghost use Rattle.task_descriptor.specs.declared.descriptor.Marked.{Marked};

    ghost Value = { List Marked };

    ghost view = { λ instructions. instructions.code.items };

    ghost invariant = { λ instructions. length instructions.code.items ≤ 4096 };
}

ghost use Rattle.std.specs.Prelude.{◌≡◌, ℕ, ◌<◌, ◌↔◌, true, length, slice_get, IfOk, Some};
ghost use Rattle.task_descriptor.specs.Listing.{Listing};
ghost use Rattle.task_graph.specs.Members.{Reaches};
ghost use Rattle.task_graph.specs.Neighbours.{Follows, is_among as is_one_of};
ghost use Rattle.task_graph.specs.SearchSteps.{is_marked as is_marked_of};
ghost use Rattle.mark_subjects.specs.Subjects.{end_in};
ghost use Rattle.exit_diagnostics.specs.Needless.{without_stop, with_code, is_past, ends_if_indirect, stays_right, comes_to, IsNeedless};
ghost use Rattle.exit_diagnostics.specs.NeedlessSteps.{is_listed, is_right, some_wrong, some_exits_to, some_lacks, some_target_wrong, all_right};

impl Instructions {
    /// How many instructions there are.
    fn count(&self) -> u32
        ensures { result ≡ length self.now }
    {
        self.code.len() as u32
    }

    /// Where an edge of an instruction leads, if it is there and of that kind.
    fn end(&self, leaving: bool, index: u32, taken: bool) -> Option<u32>
        ensures { result ≡ end_in leaving (slice_get self.now index) index taken }
    {
        match self.code.get(index as usize) {
            Some(marked) => end_of(marked, index, taken, leaving),
            None => None,
        }
    }
}

/// The instructions of a program without the stop of one of them.
fn without_stop(subject: &Subject, index: u32) -> Made<Instructions>
    ensures { IfOk result (λ code. code ≡ without_stop subject.now.program.code index) }
{
    let old = subject.program().code();
    let mut code = Vec::new(subject.alloc());
    code.extend_from_slice(old)?;
    if let Some(marked) = old.get(index as usize) {
        code[index as usize] = Marked {
            stop: Stop::None,
            ..*marked
        };
    }
    Ok(Instructions { code })
}

/// The end of an edge, if an instruction is there.
fn inside(code: &Instructions, end: Option<u32>) -> Option<u32>
    ensures { (j : ℕ) → (result ≡ Some j) ↔ ((end ≡ Some j) × (j < length code.now)) }
{
    match end {
        Some(j) if j < code.count() => end,
        _ => None,
    }
}

/// The instructions to which the edges of one lead that stay in the task.
fn next_in(code: &Instructions, index: u32) -> Next
    requires { index < length code.now }
    ensures { (p : Listing) → p.code ≡ code.now → (j : ℕ) → (is_one_of result j ≡ true) ↔ Follows p index j }
{
    let onward = code.end(false, index, false);
    let branch = code.end(false, index, true);
    let first = inside(code, onward);
    let second = inside(code, branch);
    Next { first, second }
}

/// A mark for each instruction to which a path leads from one of them.
fn reached(subject: &Subject, code: &Instructions, start: u32) -> Made<Vec<bool>>
    requires { start < length code.now }
    ensures { IfOk result (λ marks. (j : ℕ) → (is_marked_of marks.items j ≡ true) ↔ Reaches (with_code subject.now.program code.now) start j) }
{
    let alloc = subject.alloc();
    let mut marks = vec![in alloc; false; code.count() as usize]?;
    let mut work = Vec::new(alloc);
    mark(&mut marks, &mut work, Some(start))?;
    while let Some(i) = work.pop() {
        let next = next_in(code, i);
        mark(&mut marks, &mut work, next.first)?;
        mark(&mut marks, &mut work, next.second)?;
    }
    Ok(marks)
}

/// Whether an instruction has a mark.
fn is_marked(marks: &[bool], index: u32) -> bool
    ensures { result ≡ is_marked_of marks.now index }
{
    match marks.get(index as usize) {
        Some(mark) => *mark,
        None => false,
    }
}

/// Whether an exit is a target of a task.
fn is_listed(subject: &Subject, task: u32, end: Option<u32>) -> bool
    ensures { result ≡ is_listed subject.now task end }
{
    match end {
        Some(index) => is_among(subject.targets(task), index),
        None => true,
    }
}

/// Whether an edge leads to no instruction.
fn is_past(code: &Instructions, end: Option<u32>) -> bool
    ensures { result ≡ is_past code.now end }
{
    match end {
        Some(index) => index >= code.count(),
        None => false,
    }
}

/// Whether an instruction ends the task, if it is a jump to an address in a register.
fn ends_if_indirect(code: &Instructions, index: u32) -> bool
    ensures { result ≡ ends_if_indirect (slice_get code.now index) }
{
    match code.code.get(index as usize) {
        Some(marked) => !is_indirect(&marked.op) || stops_always(marked.stop),
        None => true,
    }
}

/// Whether the edges of an instruction that stay in the task lead to instructions, and none of them to an unknown one.
fn stays_right(code: &Instructions, index: u32) -> bool
    ensures { result ≡ stays_right code.now index }
{
    !(is_past(code, code.end(false, index, false)) || is_past(code, code.end(false, index, true)))
        && ends_if_indirect(code, index)
}

/// Whether a task goes right at an instruction, if a task begins at each target.
fn is_right(subject: &Subject, code: &Instructions, task: u32, index: u32) -> bool
    ensures { result ≡ is_right subject.now code.now task index }
{
    (is_listed(subject, task, code.end(true, index, false))
        && is_listed(subject, task, code.end(true, index, true)))
        && stays_right(code, index)
}

/// Whether a task goes wrong at some marked instruction.
fn some_wrong(subject: &Subject, code: &Instructions, marks: &[bool], task: u32) -> bool
    ensures { result ≡ some_wrong subject.now code.now marks.now task }
{
    (0..code.count()).any(|index| is_marked(marks, index) && !is_right(subject, code, task, index))
}

/// Whether an exit of some marked instruction leads to a place.
fn some_exits_to(code: &Instructions, marks: &[bool], to: u32) -> bool
    ensures { result ≡ some_exits_to code.now marks.now to }
{
    (0..code.count()).any(|index| {
        is_marked(marks, index)
            && (is_end(code.end(true, index, false), to) || is_end(code.end(true, index, true), to))
    })
}

/// Whether a task is this one, or another one that reaches an instruction.
fn comes_to(subject: &Subject, task: u32, index: u32, other: u32) -> bool
    ensures { result ≡ comes_to subject.now task index other }
{
    other == task || (other < subject.task_count() && subject.mask(other, index).is_some())
}

/// Whether some such task does not have a place as a target.
fn some_lacks(subject: &Subject, task: u32, index: u32, to: u32) -> bool
    ensures { result ≡ some_lacks subject.now task index to }
{
    (0..subject.task_count()).any(|other| {
        comes_to(subject, task, index, other) && !is_among(subject.targets(other), to)
    })
}

/// Whether the task comes to exit to some of its targets at which no task begins, or which another such task lacks.
fn some_target_wrong(
    subject: &Subject,
    code: &Instructions,
    marks: &[bool],
    task: u32,
    index: u32,
) -> bool
    ensures { result ≡ some_target_wrong subject.now code.now marks.now task index }
{
    let targets = subject.targets(task);
    targets.iter().any(|target| {
        let to = target.get();
        some_exits_to(code, marks, to)
            && (!subject.is_entry(to) || some_lacks(subject, task, index, to))
    })
}

/// Whether all such tasks go right at each marked instruction.
fn all_right(subject: &Subject, code: &Instructions, marks: &[bool], task: u32, index: u32) -> bool
    ensures { result ≡ all_right subject.now code.now marks.now task index }
{
    !some_wrong(subject, code, marks, task) && !some_target_wrong(subject, code, marks, task, index)
}

/// Whether a task ends at an instruction that should have no stop: without it, the exits from there on would be right in
/// this task and in each other one that reaches the instruction. It searches the program once, then looks at each
/// instruction once, and at each instruction and each task once more for each target of the task.
///
/// # Errors
///
/// `AllocError` where memory was refused.
pub fn is_needless(subject: &Subject, task: u32, index: u32) -> Made<bool>
    ensures { IfOk result (λ needless. (needless ≡ true) ↔ IsNeedless subject.now task index) }
{
    if index as usize >= subject.code().len() {
        return Ok(false);
    }
    let code = without_stop(subject, index)?;
    let marks = reached(subject, &code, index)?;
    Ok(all_right(subject, &code, &marks, task, index))
}
