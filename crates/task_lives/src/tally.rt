//! Lives counted, for each task and for all.

ghost use Rattle.std.specs.Prelude.{◌≡◌, IfOk};
ghost use Rattle.task_lives.specs.Sums.{AreFew};
ghost use Rattle.task_lives.specs.Tallies.{tally_of, tallies_of};
ghost use Rattle.task_lives.specs.Counting.{HasRoom, HaveRoom, with_life, with_task_life};

use crate::life::{Ending, Life};
use std::alloc::{AllocError, Global};

/// How many of some lives there are, how they ended, and how many instructions they executed. Each number is at most
/// 1,000,000 in the tallies that `add_up` and `by_task` return.
#[derive(Clone, Copy, Debug, PartialEq, Eq)]
pub struct Tally {
    /// How many there are: how often a task was assigned to a unit.
    pub assigned: u32,
    /// How many retired.
    pub retired: u32,
    /// How many were squashed.
    pub squashed: u32,
    /// How many were dropped.
    pub dropped: u32,
    /// How many are unfinished.
    pub unfinished: u32,
    /// How many instructions the retired ones executed.
    pub useful: u32,
    /// How many instructions those that were squashed or dropped executed. What the unfinished ones executed
    /// counts neither here nor in `useful`.
    pub wasted: u32,
}

const NONE: Tally = Tally {
    assigned: 0,
    retired: 0,
    squashed: 0,
    dropped: 0,
    unfinished: 0,
    useful: 0,
    wasted: 0,
};

/// The tally of some lives: at most 1,000,000, which executed at most 1,000,000 instructions.
pub fn add_up(lives: &[Life]) -> Tally
    requires { AreFew lives.now }
    ensures { result ≡ tally_of lives.now }
{
    let mut tally = NONE;
    for life in lives {
        tally = with(tally, life);
    }
    tally
}

/// The tallies of tasks 0 to `tasks` - 1, each of the lives of that task; a life of any other task counts in none. There
/// are at most 1,000,000 lives, which executed at most 1,000,000 instructions.
///
/// # Errors
///
/// `AllocError` where memory was refused.
pub fn by_task(alloc: Global, lives: &[Life], tasks: usize) -> Result<Vec<Tally>, AllocError>
    requires { AreFew lives.now }
    ensures { IfOk result (λ tallies. tallies.items ≡ tallies_of tasks lives.now) }
{
    let mut tallies = vec![in alloc; NONE; tasks]?;
    for life in lives {
        count(&mut tallies, life);
    }
    Ok(tallies)
}

/// Counts a life in the tally of its task, if there is one.
fn count(tallies: &mut Vec<Tally>, life: &Life)
    requires { HaveRoom life.now tallies.old.items }
    ensures { tallies.new.items ≡ with_task_life 0 life.now tallies.old.items }
{
    let task = life.task as usize;
    if task < tallies.len() {
        let tally = tallies[task];
        tallies[task] = with(tally, life);
    }
}

/// The tally with one more life.
fn with(tally: Tally, life: &Life) -> Tally
    requires { HasRoom life.now tally }
    ensures { result ≡ with_life life.now tally }
{
    let assigned = tally.assigned + 1;
    match life.ending {
        Ending::Retired => Tally {
            assigned,
            retired: tally.retired + 1,
            useful: tally.useful + life.executed,
            ..tally
        },
        Ending::Squashed => Tally {
            assigned,
            squashed: tally.squashed + 1,
            wasted: tally.wasted + life.executed,
            ..tally
        },
        Ending::Dropped => Tally {
            assigned,
            dropped: tally.dropped + 1,
            wasted: tally.wasted + life.executed,
            ..tally
        },
        Ending::Unfinished => Tally {
            assigned,
            unfinished: tally.unfinished + 1,
            ..tally
        },
    }
}
