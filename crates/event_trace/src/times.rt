//! The times of events.

ghost use Rattle.std.specs.Prelude.{◌≡◌, ◌+◌, ◌<◌, ◌≤◌, ◌^◌, IfOk};
ghost use Rattle.event_trace.specs.Times.{steps_of as steps_by, ticks as source_ticks, time_after, time_at as time_of, times_of};

use crate::source::EventSource;
use machine_model::event::Event;
use run_picture::queue::{active_with, position_of};
use std::alloc::{AllocError, Global};

/// The times of the events of a history, in order.
pub(crate) fn times(
    alloc: Global,
    source: EventSource,
    events: &[Event],
) -> Result<Vec<usize>, AllocError>
    ensures { IfOk result (λ times. times.items ≡ times_of source events.now) }
{
    let mut times = Vec::new(alloc);
    let mut active: u64 = 0;
    let mut time: usize = 0;
    for event in events {
        times.push(time)?;
        time = time_with(source, active, time, *event);
        active = active_with(active, *event);
    }
    Ok(times)
}

/// The steps of the events of a run in steps, from 0; none of another run.
pub(crate) fn steps_of(
    alloc: Global,
    source: EventSource,
    events: &[Event],
) -> Result<Vec<usize>, AllocError>
    ensures { IfOk result (λ steps. steps.items ≡ steps_by source events.now) }
{
    match source {
        EventSource::Steps => times(alloc, source, events),
        EventSource::Script | EventSource::Threads => Ok(Vec::new(alloc)),
    }
}

/// The time after an event of this time, where this many units are at work.
fn time_with(source: EventSource, active: u64, time: usize, event: Event) -> usize
    requires { time + 1 < 2 ^ 64 }
    ensures value { result ≡ time_after source active time event }
    ensures bound { result ≤ time + 1 }
{
    if ticks(source, active, event) {
        time + 1
    } else {
        time
    }
}

/// Whether the time goes on after an event, where `active` units are at work.
fn ticks(source: EventSource, active: u64, event: Event) -> bool
    ensures { result ≡ source_ticks source active event }
{
    match source {
        EventSource::Steps => position_of(active, event) == 0,
        EventSource::Script | EventSource::Threads => true,
    }
}

/// The time of the event of this number.
pub(crate) fn time_at(times: &[usize], number: u32) -> usize
    ensures { result ≡ time_of times.now number }
{
    times.get(number as usize).copied().unwrap_or(0)
}
