//! A part of a run in steps, from one step to another.

ghost use Rattle.std.specs.Prelude.{ℕ, ◌≤◌, ◌<◌, IfOk, length};
ghost use Rattle.machine_model.specs.Answer.{most_events};
ghost use Rattle.machine_model.specs.Machine.{State};
ghost use Rattle.machine_model.specs.Replay.{Replays};
ghost use Rattle.run_picture.specs.Charts.{HasRoom};

use crate::strips::strips;
use jobs::job::StepRange;
use machine_model::event::Event;
use mark_checker::accept::Accepted;
use run_picture::chart::{Chart, MOST_SINGLE};
use run_picture::shape::{Axis, Wait};
use std::alloc::{AllocError, Global};
use task_lives::life::Life;
use unit_waits::between::waits_between;

/// A part of a chart, and how many events come before its first one.
#[derive(Drop)]
pub(crate) struct Part {
    /// The chart of the part.
    pub(crate) chart: Chart,
    /// How many events come before it.
    pub(crate) skipped: usize,
}

/// The part of a chart of the steps of a run on `units` units that has the steps of a range; what is beyond the end is cut. An
/// error means that memory was refused.
pub(crate) fn part_of(
    alloc: Global,
    accepted: &Accepted,
    units: u32,
    range: StepRange,
    chart: Chart,
) -> Result<Part, AllocError>
    requires units { (0 < units) × (units ≤ 16) }
    requires room { HasRoom chart }
    requires replay { (s : State) × Replays accepted.now.program units chart.events.items s }
    ensures { IfOk result (λ part. HasRoom part.chart) }
{
    let total = chart.axis.count;
    let last = range.last.min(total);
    let before = range.first.saturating_sub(1).min(last);
    let count = last - before;
    if count == total {
        return Ok(Part { chart, skipped: 0 });
    }
    let axis = Axis {
        before,
        count,
        ..chart.axis
    };
    let waits = waits_in(alloc, accepted, units, axis, &chart.events)?;
    let skipped = events_up_to(&chart.columns, before);
    let end = events_up_to(&chart.columns, last);
    let part = Chart {
        axis,
        columns: columns_in(alloc, axis, &chart.columns)?,
        retired: retired_before(&chart.events, skipped),
        events: events_between(alloc, &chart.events, skipped, end)?,
        lives: lives_in(alloc, axis, &chart.lives)?,
        tally: chart.tally,
        head: chart.head,
        standing: chart.standing,
        waits,
    };
    Ok(Part {
        chart: part,
        skipped,
    })
}

/// How many events come in the columns up to this one.
fn events_up_to(columns: &[u32], last: u32) -> usize {
    let mut count: usize = 0;
    for column in columns {
        if *column <= last {
            count = count.saturating_add(1);
        }
    }
    count
}

/// The events from one index to another, which is not among them.
fn events_between(
    alloc: Global,
    events: &[Event],
    first: usize,
    end: usize,
) -> Result<Vec<Event>, AllocError>
    ensures { IfOk result (λ found. length found.items ≤ length events.now) }
{
    let mut found = Vec::new(alloc);
    for (index, event) in events.iter().enumerate() {
        if first <= index && index < end {
            found.push(*event)?;
        }
    }
    Ok(found)
}

/// How many tasks retire in the events before an index.
fn retired_before(events: &[Event], end: usize) -> u32
    requires { length events.now ≤ most_events }
    ensures { result ≤ length events.now }
{
    let mut count: u32 = 0;
    for (index, event) in events.iter().enumerate() {
        if index < end && matches!(*event, Event::Retire) {
            count += 1;
        }
    }
    count
}

/// How many columns come before those of a chart in which the columns of a part are counted: those that are summed are counted
/// from the part's first one.
fn offset(axis: Axis) -> u32 {
    if axis.count > MOST_SINGLE {
        axis.before
    } else {
        0
    }
}

/// The columns of the events in a part.
fn columns_in(alloc: Global, axis: Axis, columns: &[u32]) -> Result<Vec<u32>, AllocError> {
    let last = axis.before.saturating_add(axis.count);
    let mut found = Vec::new(alloc);
    for column in columns {
        if axis.before < *column && *column <= last {
            found.push(column.saturating_sub(offset(axis)))?;
        }
    }
    Ok(found)
}

/// The lives that are in a part; where columns are summed, as far as they are in it.
fn lives_in(alloc: Global, axis: Axis, lives: &[Life]) -> Result<Vec<Life>, AllocError>
    ensures { IfOk result (λ found. length found.items ≤ length lives.now) }
{
    let last = axis.before.saturating_add(axis.count);
    let mut found = Vec::new(alloc);
    for life in lives {
        if life.last >= axis.before && life.first < last {
            found.push(life_in(axis, *life))?;
        }
    }
    Ok(found)
}

/// A life in a part; where columns are summed, as far as it is in it.
fn life_in(axis: Axis, life: Life) -> Life {
    let offset = offset(axis);
    if offset == 0 {
        return life;
    }
    Life {
        first: life.first.saturating_sub(offset),
        last: life
            .last
            .saturating_sub(offset)
            .min(axis.count.saturating_sub(1)),
        ..life
    }
}

/// The waits in a part, if its steps are drawn singly; else none.
fn waits_in(
    alloc: Global,
    accepted: &Accepted,
    units: u32,
    axis: Axis,
    events: &[Event],
) -> Result<Vec<Wait>, AllocError>
    requires units { (0 < units) × (units ≤ 16) }
    requires replay { (s : State) × Replays accepted.now.program units events.now s }
    requires room { length events.now ≤ most_events }
{
    if axis.count > MOST_SINGLE {
        return Ok(Vec::new(alloc));
    }
    let first = axis.before.saturating_add(1);
    let last = axis.before.saturating_add(axis.count);
    let waits = waits_between(alloc, accepted, units, events, first, last)?;
    strips(alloc, units, &waits)
}
