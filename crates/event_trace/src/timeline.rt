//! The timeline of a run: the life of each task as a slice of time, and events that happen at one time.

ghost use Rattle.std.specs.Prelude.{◌≡◌, ◌++◌, ◌<◌, ◌≤◌, ◌^◌, IfOk, OnOk, length, map};
ghost use Rattle.machine_model.specs.Answer.{most_events};
ghost use Rattle.machine_model.specs.HeadEvent.{unit_of};
ghost use Rattle.machine_model.specs.Runs.{events_of};
ghost use Rattle.task_lives.specs.Lives.{AllFit};
ghost use Rattle.event_trace.specs.Timeline.{IsTimelineOf, mark_at, marks_of as marks_by, slice_of as slice_by};

use crate::source::EventSource;
use crate::times::{time_at, times};
use machine_model::event::{Event, EventRun};
use mips_instructions::number::Reg;
use run_picture::events::single_events;
use run_picture::queue::{retired_with, unit_at, unit_before};
use std::alloc::{AllocError, Global};
use task_lives::life::Life;
use task_lives::lives::lives_of_runs;

/// The life of a task as a slice of time, in microseconds.
#[derive(Clone, Copy, Debug, PartialEq, Eq)]
pub struct Slice {
    /// The life.
    pub life: Life,
    /// The time of its first event, in microseconds.
    pub begin: usize,
    /// The time of its last event, in microseconds; the slice includes it.
    pub last: usize,
}

/// An event that happens at one time, in microseconds. Units have their numbers round the ring.
#[derive(Clone, Copy, Debug, PartialEq, Eq)]
pub enum Mark {
    /// In the event of this number a register travels to a unit from the one before it round the ring.
    Arrow {
        event: u32,
        register: Reg,
        from: u32,
        to: u32,
        time: usize,
    },
    /// A squash begins after this unit.
    Squash {
        unit: u32,
        time: usize,
    },
}

/// The timeline of a run.
#[derive(Debug, Drop)]
pub struct Timeline {
    /// The lives, in the order in which they begin.
    pub slices: Vec<Slice>,
    /// The events that happen at one time, in order.
    pub marks: Vec<Mark>,
}

/// The timeline of a history on `units` units, at least one. Its time counts the steps of a run in steps, else the events:
/// the n-th, from 1, takes the n-th microsecond. The history has at most 1,000,000 events, and no event of it is at a
/// position where there is no unit, as in every history of a machine (`task_lives::laws::histories_fit`).
///
/// # Errors
///
/// `AllocError` where memory was refused.
pub fn timeline_of(
    alloc: Global,
    units: u32,
    source: EventSource,
    runs: &[EventRun],
) -> Result<Timeline, AllocError>
    requires some { 0 < units }
    requires room { length (events_of runs.now) ≤ most_events }
    requires fit { AllFit 0 (events_of runs.now) }
    ensures { IfOk result (IsTimelineOf units source (events_of runs.now)) }
{
    let events = single_events(alloc, runs)?;
    let lives = lives_of_runs(alloc, runs, units)?;
    let times = times(alloc, source, &events)?;
    let slices = slices_of(alloc, &times, &lives)?;
    let marks = marks_of(alloc, units, &times, &events)?;
    Ok(Timeline { slices, marks })
}

/// Lives as slices, by the times of the events.
fn slices_of(alloc: Global, times: &[usize], lives: &[Life]) -> Result<Vec<Slice>, AllocError>
    ensures { IfOk result (λ slices. slices.items ≡ map (slice_by times.now) lives.now) }
{
    lives
        .iter()
        .map(|life| slice_of(times, *life))
        .collect(alloc)
}

/// A life as a slice.
fn slice_of(times: &[usize], life: Life) -> Slice
    ensures { result ≡ slice_by times.now life }
{
    Slice {
        life,
        begin: time_at(times, life.first),
        last: time_at(times, life.last),
    }
}

/// What happens at one time in the events of a history.
fn marks_of(
    alloc: Global,
    units: u32,
    times: &[usize],
    events: &[Event],
) -> Result<Vec<Mark>, AllocError>
    requires some { 0 < units }
    requires few { length events.now < 2 ^ 31 }
    ensures { IfOk result (λ marks. marks.items ≡ marks_by units times.now events.now) }
{
    let mut marks = Vec::new(alloc);
    let mut retired: u32 = 0;
    for (index, event) in events.iter().enumerate() {
        let number = index as u32;
        add_mark(
            &mut marks,
            units,
            retired,
            number,
            time_at(times, number),
            *event,
        )?;
        retired = retired_with(retired, *event);
    }
    Ok(marks)
}

/// Adds what happens in an event of this number and time, before which `retired` tasks retired.
fn add_mark(
    marks: &mut Vec<Mark>,
    units: u32,
    retired: u32,
    event: u32,
    time: usize,
    done: Event,
) -> Result<(), AllocError>
    requires { 0 < units }
    ensures { OnOk result (marks.new.items ≡ marks.old.items ++ mark_at units event (unit_of units retired 0 done) time done) }
{
    match done {
        Event::Transfer(position, register) => {
            let to = unit_at(units, retired, position);
            let from = unit_before(units, to);
            marks.push(Mark::Arrow {
                event,
                register,
                from,
                to,
                time,
            })?;
        }
        Event::Squash(position) => {
            let unit = unit_at(units, retired, position);
            marks.push(Mark::Squash { unit, time })?;
        }
        _ => {}
    }
    Ok(())
}
