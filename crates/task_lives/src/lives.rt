//! The lives of a history.

ghost use Rattle.std.specs.Prelude.{◌≡◌, ◌<◌, ◌≤◌, length, IfOk};
ghost use Rattle.machine_model.specs.Answer.{most_events};
ghost use Rattle.machine_model.specs.Runs.{events_of};
ghost use Rattle.task_lives.specs.Lives.{AllFit, lives_of};
ghost use Rattle.task_lives.specs.Sums.{AreFew};

use crate::following::Following;
use crate::life::Life;
use machine_model::event::EventRun;
use std::alloc::{AllocError, Global};

/// The lives of the tasks that a history assigned to `units` units, at least one, in the order in which the lives begin. The
/// history has at most 1,000,000 events, and no event of it is at a position where there is no unit; this holds for every
/// history of a machine (`histories_fit`), whose lives account for it (`lives_add_up`).
///
/// # Errors
///
/// `AllocError` where memory was refused.
pub fn lives_of_runs(alloc: Global, runs: &[EventRun], units: u32) -> Result<Vec<Life>, AllocError>
    requires some { 0 < units }
    requires room { length (events_of runs.now) ≤ most_events }
    requires fit { AllFit 0 (events_of runs.now) }
    ensures exact { IfOk result (λ lives. lives.items ≡ lives_of units (events_of runs.now)) }
    ensures few { IfOk result (λ lives. AreFew lives.items) }
{
    let mut following = Following::new(alloc, units);
    for run in runs {
        following.follow_run(*run)?;
    }
    Ok(following.finish())
}
