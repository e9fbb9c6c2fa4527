//! The steps of the events of a history.

ghost use Rattle.std.specs.Prelude.{◌≡◌, ◌+◌, ◌<◌, ◌≤◌, ◌^◌, IfOk, length, map};
ghost use Rattle.unit_waits.specs.Waits.{ends_step as ends_step_of};
ghost use Rattle.task_lives.specs.Sums.{AreFew};
ghost use Rattle.step_picture.specs.Steps.{count_of, in_steps as in_steps_of, step_after, steps_of};
ghost use Rattle.run_picture.specs.Meanings.{column_at};

use machine_model::event::Event;
use run_picture::queue::{active_with, position_of};
use std::alloc::{AllocError, Global};
use task_lives::life::Life;

/// The step of each event of a history, in order, numbered from 1.
///
/// # Errors
///
/// `AllocError` where memory was refused.
pub fn steps(alloc: Global, events: &[Event]) -> Result<Vec<u32>, AllocError>
    requires { length events.now < 2 ^ 31 }
    ensures { IfOk result (λ steps. steps.items ≡ steps_of events.now) }
{
    let mut steps = Vec::new(alloc);
    let mut active: u64 = 0;
    let mut step: u32 = 1;
    for event in events {
        steps.push(step)?;
        step = step_with(active, step, *event);
        active = active_with(active, *event);
    }
    Ok(steps)
}

/// The step after an event of this step, where `active` units are at work.
fn step_with(active: u64, step: u32, event: Event) -> u32
    requires { step ≤ 2 ^ 31 }
    ensures value { result ≡ step_after active step event }
    ensures bound { result ≤ step + 1 }
{
    if position_of(active, event) == 0 {
        step + 1
    } else {
        step
    }
}

/// The step of the event of this number, from 0; 0 if there is no such event.
fn step_at(steps: &[u32], event: usize) -> u32
    ensures { result ≡ column_at steps.now event }
{
    match steps.get(event) {
        Some(step) => *step,
        None => 0,
    }
}

/// How many steps there are.
pub(crate) fn count(steps: &[u32]) -> u32
    ensures { result ≡ count_of steps.now }
{
    step_at(steps, steps.len().saturating_sub(1))
}

/// Lives with the numbers of their first and last steps, from 0, in place of the numbers of events. `steps` has the step
/// of each event, from 1.
///
/// # Errors
///
/// `AllocError` where memory was refused.
pub fn all_in_steps(alloc: Global, steps: &[u32], lives: &[Life]) -> Result<Vec<Life>, AllocError>
    requires { AreFew lives.now }
    ensures exact { IfOk result (λ found. found.items ≡ map (in_steps_of steps.now) lives.now) }
    ensures few { IfOk result (λ found. AreFew found.items) }
{
    let mut found = Vec::new(alloc);
    for life in lives {
        found.push(in_steps(steps, *life))?;
    }
    Ok(found)
}

/// A life by its first and last step, numbered from 0.
fn in_steps(steps: &[u32], life: Life) -> Life
    ensures { result ≡ in_steps_of steps.now life }
{
    Life {
        first: step_at(steps, life.first as usize).saturating_sub(1),
        last: step_at(steps, life.last as usize).saturating_sub(1),
        ..life
    }
}
