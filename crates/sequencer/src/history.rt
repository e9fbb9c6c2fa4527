//! The events of a machine so far, as runs of equal events, in room that is reserved once.

use limits::ranges::MOST_EVENTS;
use machine_model::event::{Event, EventRun};
use std::alloc::{AllocError, Global};
use std::marker::Model;

/// The events so far. There is room for at least 1,000,000 runs, and each run has an event, so an event that
/// fits takes no memory.
#[derive(Debug, Drop)]
pub(crate) struct History {
    runs: Vec<EventRun>,
    total: usize,
    executed: usize,
}

impl Model for History {
    ghost use Rattle.std.specs.Prelude.{◌≡◌, ◌≤◌, List, length, vec_capacity};
    ghost use Rattle.machine_model.specs.Answer.{most_events};
    ghost use Rattle.machine_model.specs.Runs.{events_of};
    ghost use Rattle.machine_model.specs.declared.event.Event.{Event};
    ghost use Rattle.sequencer.specs.Histories.{AreCounted, executed_in};

    ghost Value = { List Event };

    ghost view = { λ h. events_of h.runs.items };

    ghost invariant = { λ h. (most_events ≤ vec_capacity h.runs) × (h.total ≡ length (events_of h.runs.items)) × (h.executed ≡ executed_in (events_of h.runs.items)) × AreCounted h.runs.items };
}

impl History {
    ghost use Rattle.std.specs.Prelude.{◌≡◌, ◌+◌, ◌<◌, ◌≤◌, [], ◌∷◌, ◌++◌, length, replicate, IfOk};
    ghost use Rattle.machine_model.specs.Answer.{most_events};
    ghost use Rattle.machine_model.specs.Runs.{events_of};
    ghost use Rattle.sequencer.specs.Histories.{AreCounted, executed_in};

    /// An empty history, with its room reserved.
    pub(crate) fn new(alloc: Global) -> Result<History, AllocError>
        ensures { IfOk result (λ history. history ≡ []) }
    {
        let runs = Vec::with_capacity(alloc, MOST_EVENTS)?;
        Ok(History {
            runs,
            total: 0,
            executed: 0,
        })
    }

    /// The events as runs, in order.
    #[inline]
    pub(crate) fn runs(&self) -> &[EventRun]
        ensures value { events_of result.now ≡ self.now }
        ensures counted { AreCounted result.now }
    {
        &self.runs
    }

    /// How many events there are.
    #[inline]
    pub(crate) fn len(&self) -> usize
        ensures { result ≡ length self.now }
    {
        self.total
    }

    /// How many of the events are Exec events.
    #[inline]
    pub(crate) fn executed(&self) -> usize
        ensures { result ≡ executed_in self.now }
    {
        self.executed
    }

    /// Appends an event.
    #[inline]
    pub(crate) fn push(&mut self, event: Event)
        requires { length self.old < most_events }
        ensures { self.new ≡ self.old ++ event ∷ [] }
    {
        self.push_many(event, 1);
    }

    /// Appends an event the given number of times, at least once.
    #[inline]
    pub(crate) fn push_many(&mut self, event: Event, count: u32)
        requires some { 0 < count }
        requires room { length self.old + count ≤ most_events }
        ensures { self.new ≡ self.old ++ replicate count event }
    {
        let executed = executions(&event, count);
        append(&mut self.runs, event, count);
        self.total += count as usize;
        self.executed += executed as usize;
    }
}

ghost use Rattle.std.specs.Prelude.{◌≡◌, ◌↔◌, ◌+◌, ◌<◌, ◌≤◌, ◌++◌, IsTrue, length, replicate, vec_capacity};
ghost use Rattle.machine_model.specs.Answer.{most_events};
ghost use Rattle.machine_model.specs.Runs.{events_of};
ghost use Rattle.sequencer.specs.Histories.{AreCounted, executed_in};

/// How many instructions the given number of copies of an event execute.
#[inline]
fn executions(event: &Event, count: u32) -> u32
    ensures { result ≡ executed_in (replicate count event.now) }
{
    if matches!(event, Event::Exec(_)) {
        count
    } else {
        0
    }
}

/// Appends an event the given number of times to runs, in room that is already there: the last run grows
/// where it is a run of the same event.
#[inline]
fn append(runs: &mut Vec<EventRun>, event: Event, count: u32)
    requires counted { AreCounted runs.old.items }
    requires some { 0 < count }
    requires room { length (events_of runs.old.items) + count ≤ most_events }
    requires capacity { most_events ≤ vec_capacity runs.old }
    ensures events { events_of runs.new.items ≡ events_of runs.old.items ++ replicate count event }
    ensures counted { AreCounted runs.new.items }
    ensures capacity { vec_capacity runs.new ≡ vec_capacity runs.old }
{
    if let Some(last) = runs.last_mut() {
        if is_same(&last.event, &event) {
            last.count += count;
            return;
        }
    }
    runs.push_reserved(EventRun { event, count });
}

/// Whether two events are the same. Most are Exec events, which are compared first.
#[inline(always)]
fn is_same(event: &Event, other: &Event) -> bool
    ensures { IsTrue result ↔ (event.now ≡ other.now) }
{
    match (*event, *other) {
        (Event::Exec(position), Event::Exec(other)) => position == other,
        _ => event == other,
    }
}
