//! A gate that takes no memory and sees by whom tasks are checked.

use parallel_check::gate::CheckGate;
use std::sync::atomic::{AtomicBool, AtomicU32, AtomicU64, Ordering};

/// Sees whether each of the first 64 tasks is checked at most once by a worker and at most once more at the end, under
/// the number after the last worker's, and no other number is used; and whether each check that begins ends.
#[derive(Drop)]
pub(crate) struct Watch {
    workers: u32,
    by_workers: AtomicU64,
    at_the_end: AtomicU64,
    begun: AtomicU32,
    ended: AtomicU32,
    is_wrong: AtomicBool,
}

impl Watch {
    pub(crate) fn new(workers: u32) -> Watch {
        Watch {
            workers,
            by_workers: AtomicU64::new(0),
            at_the_end: AtomicU64::new(0),
            begun: AtomicU32::new(0),
            ended: AtomicU32::new(0),
            is_wrong: AtomicBool::new(false),
        }
    }

    /// Whether all was as it should be.
    pub(crate) fn is_right(&self) -> bool {
        let begun = self.begun.load(Ordering::SeqCst);
        let ended = self.ended.load(Ordering::SeqCst);
        begun == ended && !self.is_wrong.load(Ordering::SeqCst)
    }

    // Whether the bit of a task was not set before.
    fn is_first(tasks: &AtomicU64, task: u32) -> bool {
        if task >= 64 {
            return true;
        }
        let bit = 1u64 << task;
        tasks.fetch_or(bit, Ordering::SeqCst) & bit == 0
    }
}

impl CheckGate for Watch {
    fn before(&self, worker: u32, task: u32) {
        self.begun.fetch_add(1, Ordering::SeqCst);
        let is_right = if worker < self.workers {
            Watch::is_first(&self.by_workers, task)
        } else {
            worker == self.workers && Watch::is_first(&self.at_the_end, task)
        };
        if !is_right {
            self.is_wrong.store(true, Ordering::SeqCst);
        }
    }

    fn after(&self, _worker: u32, _task: u32) {
        self.ended.fetch_add(1, Ordering::SeqCst);
    }
}
