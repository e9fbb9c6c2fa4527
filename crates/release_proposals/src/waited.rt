//! What other tasks wait for where a release is due.

use crate::due::Due;
use mask_certificate::certificate::Cert;
use std::alloc::{AllocError, Global};
use task_descriptor::program::Program;
use unit_waits::count::Count;
use unit_waits::waiting::Reason;

/// A place where a release is due, and the most frequent of the waits for it.
#[derive(Clone, Copy, Debug, PartialEq, Eq)]
pub(crate) struct Waited {
    pub(crate) due: Due,
    /// The task that owes what is waited for.
    pub(crate) task: u32,
    pub(crate) waits: Count,
}

// The task that owes what is waited for, if a release at a place would send it.
fn owing(least: &Cert, due: &Due, waits: &Count) -> Option<u32> {
    match waits.first.reason {
        Reason::NeedsRegister(register, owed) | Reason::HasToPass(register, owed)
            if !owed.is_sent
                && due.registers.has(register)
                && least.mask(owed.task, due.index).is_some() => Some(owed.task),
        _ => None,
    }
}

// Whether each task that reaches a place may produce what is due there.
fn is_created(program: &Program, least: &Cert, due: &Due) -> bool {
    program.tasks().iter().enumerate().all(|(task, descriptor)| least
        .mask(task as u32, due.index)
        .is_none()
        || due.registers.is_subset(descriptor.create))
}

/// The places where a release is due that other tasks wait for: at most so many, those with the most waits. The counts have
/// the most frequent waits first.
///
/// # Errors
///
/// `AllocError` where memory was refused.
pub(crate) fn most_waited(
    alloc: Global,
    program: &Program,
    least: &Cert,
    counts: &[Count],
    dues: &[Due],
    most: usize,
) -> Result<Vec<Waited>, AllocError> {
    let mut list: Vec<Waited> = Vec::new(alloc);
    for waits in counts {
        for due in dues {
            let is_new = list.len() < most && list.iter().all(|one| one.due.index != due.index);
            match owing(least, due, waits) {
                Some(task) if is_new && is_created(program, least, due) => list.push(Waited {
                    due: *due,
                    task,
                    waits: *waits,
                })?,
                _ => (),
            }
        }
    }
    Ok(list)
}
