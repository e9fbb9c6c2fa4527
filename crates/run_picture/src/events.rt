//! The events of a history, one by one, and their numbers.

ghost use Rattle.std.specs.Prelude.{◌≡◌, ◌++◌, IfOk, OnOk, replicate};
ghost use Rattle.std.specs.List.{range_with_len};
ghost use Rattle.machine_model.specs.Runs.{events_of};

use machine_model::event::{Event, EventRun};
use std::alloc::{AllocError, Global};

/// The events of some runs of equal events, one by one, in order.
///
/// # Errors
///
/// `AllocError` where memory was refused.
pub fn single_events(alloc: Global, runs: &[EventRun]) -> Result<Vec<Event>, AllocError>
    ensures { IfOk result (λ events. events.items ≡ events_of runs.now) }
{
    let mut events = Vec::new(alloc);
    for run in runs {
        push_times(&mut events, &run.event, run.count)?;
    }
    Ok(events)
}

/// Adds an event `count` times.
#[tactic(auto, using(crate::proofs::Parts::replicate_more))]
fn push_times(events: &mut Vec<Event>, event: &Event, count: u32) -> Result<(), AllocError>
    ensures { OnOk result (events.new.items ≡ events.old.items ++ replicate count event.now) }
{
    for _ in 0..count {
        events.push(*event)?;
    }
    Ok(())
}

/// The numbers from 1 to the last one.
pub(crate) fn numbers_to(alloc: Global, last: u32) -> Result<Vec<u32>, AllocError>
    ensures { IfOk result (λ numbers. numbers.items ≡ range_with_len 1 last) }
{
    let mut numbers = Vec::new(alloc);
    for number in 0..last {
        numbers.push(number + 1)?;
    }
    Ok(numbers)
}
