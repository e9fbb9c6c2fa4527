//! The seven refusals of parts that make no program.

ghost use Rattle.std.specs.Prelude.{◌≡◌, ◌<◌, ◌==◌, nat_lt, length, IfSome, IfOk};
ghost use Rattle.std.specs.List.{list_any};
ghost use Rattle.task_descriptor.specs.Listing.{build_fault, listing_of, is_too_many as is_too_many_of, has_bad_entry as has_bad_entry_of, has_duplicate as has_duplicate_of, collide, starts_at_no_entry as starts_at_no_entry_of, mark_fault as mark_fault_of};

use crate::descriptor::Descriptor;
use crate::marks::{bad_mark, has_bad_mask};
use crate::program::{BuildFault, MOST_BYTES, MOST_TARGETS, MOST_TASKS, Parts};
use mips_instructions::number::{MOST_INSTRUCTIONS, Place};
use std::alloc::{AllocError, Global};
use std::collections::HashSet;

fn is_too_many(parts: &Parts) -> bool
    ensures { result ≡ is_too_many_of (listing_of parts.now) }
{
    parts.code.len() > MOST_INSTRUCTIONS
        || parts.bytes.len() > MOST_BYTES
        || parts.fixed.len() > MOST_BYTES
        || parts.tasks.len() > MOST_TASKS
        || has_too_many_targets(&parts.tasks)
}

fn has_too_many_targets(tasks: &[Descriptor]) -> bool
    ensures { result ≡ list_any (λ t. nat_lt 16 (length t.targets)) tasks.now }
{
    tasks
        .iter()
        .any(|task| task.targets.as_slice().len() > MOST_TARGETS)
}

fn has_bad_entry(parts: &Parts) -> bool
    ensures { result ≡ has_bad_entry_of (listing_of parts.now) }
{
    let len = parts.code.len();
    parts
        .tasks
        .iter()
        .any(|task| task.entry.get() as usize >= len)
}

/// Whether two tasks have one entry or one name. Where there is no memory to note them, each pair is compared.
fn has_duplicate(alloc: Global, tasks: &[Descriptor]) -> bool
    ensures { result ≡ has_duplicate_of tasks.now }
{
    match repeats(alloc, tasks) {
        Ok(found) => found,
        Err(_) => has_colliding_pair(tasks),
    }
}

/// Like `has_duplicate`, but by the entries and the names of the tasks after each task.
fn repeats(alloc: Global, tasks: &[Descriptor]) -> Result<bool, AllocError>
    ensures { IfOk result (λ found. found ≡ has_duplicate_of tasks.now) }
{
    let mut entries = HashSet::with_capacity(alloc, tasks.len())?;
    let mut names = HashSet::with_capacity(alloc, tasks.len())?;
    for behind in 0..tasks.len() {
        let task = &tasks[tasks.len() - 1 - behind];
        if !entries.insert(task.entry.get())? {
            return Ok(true);
        }
        if !names.insert(task.name.bytes())? {
            return Ok(true);
        }
    }
    Ok(false)
}

fn has_colliding_pair(tasks: &[Descriptor]) -> bool
    ensures { result ≡ has_duplicate_of tasks.now }
{
    for (index, task) in tasks.iter().enumerate() {
        if collides(task, &tasks[index + 1..]) {
            return true;
        }
    }
    false
}

fn collides(task: &Descriptor, others: &[Descriptor]) -> bool
    ensures { result ≡ list_any (collide task.now) others.now }
{
    others.iter().any(|other| task.entry == other.entry || task.name.bytes() == other.name.bytes())
}

fn starts_at_no_entry(parts: &Parts) -> bool
    ensures { result ≡ starts_at_no_entry_of (listing_of parts.now) }
{
    !begins_at(&parts.tasks, parts.start)
}

fn begins_at(tasks: &[Descriptor], start: Place) -> bool
    ensures { result ≡ list_any (λ t. t.entry == start) tasks.now }
{
    tasks.iter().any(|task| task.entry.get() == start.get())
}

fn mark_fault(bad_mark: Option<usize>, bad_start: bool) -> Option<BuildFault>
    requires { IfSome bad_mark (λ index. index < 4096) }
    ensures { result ≡ mark_fault_of bad_mark bad_start }
{
    match bad_mark {
        Some(index) => Some(BuildFault::BadMark(index as u32)),
        None if bad_start => Some(BuildFault::BadStart),
        None => None,
    }
}

/// The first of the seven refusals whose condition holds of the parts.
pub(crate) fn fault_of(parts: &Parts) -> Option<BuildFault>
    ensures { result ≡ build_fault (listing_of parts.now) }
{
    if is_too_many(parts) {
        Some(BuildFault::TooMany)
    } else if parts.tasks.is_empty() {
        Some(BuildFault::NoTask)
    } else if has_bad_entry(parts) {
        Some(BuildFault::BadEntry)
    } else if has_duplicate(*parts.tasks.allocator(), &parts.tasks) {
        Some(BuildFault::DuplicateEntry)
    } else if has_bad_mask(&parts.tasks) {
        Some(BuildFault::BadMask)
    } else {
        mark_fault(bad_mark(&parts.code), starts_at_no_entry(parts))
    }
}
