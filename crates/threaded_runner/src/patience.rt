//! How long a worker that finds nothing looks again.

use std::thread;
use std::thread::Threads;

/// How long a worker that finds nothing looks again before it sleeps.
#[derive(Clone, Copy, Debug, PartialEq, Eq)]
pub(crate) enum Patience {
    /// For a while: each worker has a processor of its own, and waking a thread is slow.
    Looks,
    /// Not at all: another worker may want the processor.
    Sleeps,
}

impl Patience {
    /// That of each of this many workers. Where the system does not say how many processors there are, they sleep.
    pub(crate) fn of<R: Threads>(rt: &R, workers: u32) -> Patience {
        match thread::available_parallelism(rt) {
            Ok(processors) if processors.get() >= workers as usize => Patience::Looks,
            _ => Patience::Sleeps,
        }
    }

    /// Whether a worker looks again.
    pub(crate) fn looks(self) -> bool {
        self == Patience::Looks
    }
}
