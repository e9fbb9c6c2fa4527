//! The targets of a task, and those that it would lack if it ended where it continues into another task.

ghost use Rattle.std.specs.Prelude.{◌≡◌, ◌++◌, ◌==◌, IfOk};
ghost use Rattle.std.specs.List.{list_any};
ghost use Rattle.mark_subjects.specs.Targets.{entries_listed, is_target, both, new_by, new_targets, lacks_some, may_stop};

use crate::subject::{Made, Subject, is_end};
use mips_instructions::number::Place;
use std::alloc::Global;

/// The targets of a task where some task begins, in their order.
///
/// # Errors
///
/// `AllocError` where memory was refused.
pub fn entries_listed(subject: &Subject, task: u32) -> Made<Vec<u32>>
    ensures { IfOk result (λ places. places.items ≡ entries_listed subject.now task) }
{
    subject
        .targets(task)
        .iter()
        .map(|target| target.get())
        .filter(|index| subject.is_entry(*index))
        .collect(subject.alloc())
}

/// Whether a task has another, by its number, as a target.
pub fn is_target(subject: &Subject, task: u32, into: u32) -> bool
    ensures { result ≡ is_target subject.now task into }
{
    let targets = subject.targets(task);
    targets
        .iter()
        .any(|target| is_end(subject.task_at(target.get()), into))
}

/// Whether a code index is one of these targets.
pub fn is_among(targets: &[Place], index: u32) -> bool
    ensures { result ≡ list_any (λ t. t == index) targets.now }
{
    targets.iter().any(|target| target.get() == index)
}

/// The places that are there, without a duplicate.
///
/// # Errors
///
/// `AllocError` where memory was refused.
pub fn both(alloc: Global, onward: Option<u32>, taken: Option<u32>) -> Made<Vec<u32>>
    ensures { IfOk result (λ places. places.items ≡ both onward taken) }
{
    match (onward, taken) {
        (Some(index), Some(other)) if index != other => Ok(vec![in alloc; index, other]?),
        (Some(index), _) | (None, Some(index)) => Ok(vec![in alloc; index]?),
        (None, None) => Ok(Vec::new(alloc)),
    }
}

/// Where an edge leads that stays in the task, if a task begins there and it is no target.
fn new_by(subject: &Subject, task: u32, index: u32, taken: bool) -> Option<u32>
    ensures { result ≡ new_by subject.now task index taken }
{
    match subject.inner(index, taken) {
        Some(place) if subject.is_entry(place) && !is_among(subject.targets(task), place) => {
            Some(place)
        }
        _ => None,
    }
}

/// The targets that a task would lack if it ended at an instruction that continues into tasks: their entries.
pub(crate) fn new_targets(subject: &Subject, task: u32, index: u32) -> Made<Vec<u32>>
    ensures { IfOk result (λ places. places.items ≡ new_targets subject.now task index) }
{
    let onward = new_by(subject, task, index, false);
    let taken = new_by(subject, task, index, true);
    both(subject.alloc(), onward, taken)
}

/// The targets of a task where some task begins, followed by these places.
///
/// # Errors
///
/// `AllocError` where memory was refused.
pub fn targets_with(subject: &Subject, task: u32, places: &[u32]) -> Made<Vec<u32>>
    ensures { IfOk result (λ targets. targets.items ≡ entries_listed subject.now task ++ places.now) }
{
    let mut targets = entries_listed(subject, task)?;
    targets.extend_from_slice(places)?;
    Ok(targets)
}

/// Whether a task would lack a target if it ended at an instruction that continues into tasks.
pub fn lacks_some(subject: &Subject, task: u32, index: u32) -> bool
    ensures { result ≡ lacks_some subject.now task index }
{
    new_by(subject, task, index, false).is_some() || new_by(subject, task, index, true).is_some()
}

/// Whether a task can end at an instruction with at most 16 targets: it would lack none, or it has at most 14 now, as it
/// would lack at most two.
pub fn may_stop(subject: &Subject, task: u32, index: u32) -> bool
    ensures { result ≡ may_stop subject.now task index }
{
    !lacks_some(subject, task, index) || subject.targets(task).len() < 15
}
