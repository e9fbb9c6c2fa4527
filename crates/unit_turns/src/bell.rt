//! Bells, by which a worker with nothing to do is woken.

use std::sync::atomic::{AtomicU64, Ordering};
use std::sync::{Condvar, MutexGuard, Wait};
use std::{hint, thread};

/// How often a worker looks whether its bell has rung before it leaves its core to another thread for a
/// moment.
const LOOKS: u32 = 200;

/// How often it does so before it sleeps.
const ROUNDS: u32 = 50;

/// A bell that can be rung. Nothing is known of `is_rung` but that `ring` establishes it, so a contract that
/// states it, of code that is proved for each implementation, says that this bell was rung.
pub trait Ring {
    ghost is_rung: { Self → Type 0 };

    /// Rings, for each worker that waits.
    fn ring(&self)
        ensures { is_rung self.now };
}

/// A bell for a worker with nothing to do: it counts its rings, and wakes a worker that sleeps.
#[derive(Drop)]
pub struct Bell {
    rings: AtomicU64,
    sleeper: Condvar,
}

impl Bell {
    /// A bell that has not rung.
    pub fn new() -> Bell {
        Bell {
            rings: AtomicU64::new(0),
            sleeper: Condvar::new(),
        }
    }

    /// The number of times that the bell has rung.
    pub fn rings(&self) -> u64 {
        self.rings.load(Ordering::SeqCst)
    }

    /// Waits, but only for a while and without the lock, until the bell has rung more than `heard` times.
    pub fn listen(&self, heard: u64) {
        for _ in 0..ROUNDS {
            if self.rings_soon(heard) {
                return;
            }
            thread::yield_now();
        }
    }

    /// Whether a few looks find that it has rung more than the given number of times.
    fn rings_soon(&self, heard: u64) -> bool {
        for _ in 0..LOOKS {
            if self.rings() != heard {
                return true;
            }
            hint::spin_loop();
        }
        false
    }

    /// Sleeps until the bell rings, or wakes earlier for no reason; the lock is free meanwhile.
    pub fn sleep<'l, T, R: Wait>(&self, rt: &R, guard: MutexGuard<'l, T>) -> MutexGuard<'l, T> {
        self.sleeper.wait(rt, guard)
    }
}

impl Ring for Bell {
    ghost is_rung = { λ bell. Unit {0} };

    fn ring(&self) {
        self.rings.fetch_add(1, Ordering::SeqCst);
        self.sleeper.notify_all();
    }
}
