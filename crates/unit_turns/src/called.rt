//! Workers that have waited and now have something to do.

use crate::bell::Ring;
use limits::ranges::MOST_WORKERS;
use std::marker::Model;

/// How many workers there is room for.
const PLACES: usize = MOST_WORKERS as usize;

/// The workers for whom a bell is to be rung once the lock is free, each by its number, 0..=15. It has no
/// `Drop`, so nobody can forget to ring: `ring` alone takes it.
pub struct Called {
    is_called: [bool; 16],
}

impl Model for Called {
    ghost use Rattle.std.specs.Prelude.{Bool, List};

    ghost Value = { List Bool };

    ghost view = { λ c. c.is_called };
}

impl Called {
    ghost use Rattle.std.specs.Prelude.{◌≡◌, ℕ, ◌<◌, true, false, IsTrue, ◌↔◌, replicate, slice_set, slice_get, Some};
    ghost use Rattle.unit_turns.specs.Bells.{RingsFor};

    /// No workers.
    pub fn none() -> Called
        ensures { result ≡ replicate 16 false }
    {
        Called {
            is_called: [false; PLACES],
        }
    }

    /// Adds the worker of this number, 0..=15.
    pub fn add(&mut self, worker: u32)
        requires { worker < 16 }
        ensures value { self.new ≡ slice_set self.old worker true }
        ensures added { slice_get self.new worker ≡ Some true }
        ensures kept { (other : ℕ) → slice_get self.old other ≡ Some true → slice_get self.new other ≡ Some true }
    {
        self.is_called[worker as usize] = true;
    }

    /// Whether the worker of this number is among them.
    pub fn has(&self, worker: u32) -> bool
        ensures { IsTrue result ↔ (slice_get self.now worker ≡ Some true) }
    {
        is_called_at(&self.is_called, worker as usize)
    }

    /// Rings for each of them: the bell at the index of its number.
    pub fn ring<B: Ring>(self, bells: &[B])
        ensures { RingsFor B.is_rung self bells.now }
    {
        let Called { is_called } = self;
        for (worker, bell) in bells.iter().enumerate() {
            if is_called_at(&is_called, worker) {
                bell.ring();
            }
        }
    }
}

ghost use Rattle.std.specs.Prelude.{◌≡◌, IsTrue, ◌↔◌, slice_get, Some, true};

/// Whether the worker with this number is among them.
fn is_called_at(is_called: &[bool], worker: usize) -> bool
    ensures { IsTrue result ↔ (slice_get is_called.now worker ≡ Some true) }
{
    match is_called.get(worker) {
        Some(is_called) => *is_called,
        None => false,
    }
}
