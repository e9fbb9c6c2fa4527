//! The content of a picture of a run in steps.

ghost use Rattle.std.specs.Prelude.{◌≡◌, ℕ, ◌<◌, ◌≤◌, IfOk, length};
ghost use Rattle.machine_model.specs.Answer.{most_events};
ghost use Rattle.machine_model.specs.Machine.{State};
ghost use Rattle.machine_model.specs.Replay.{Replays};
ghost use Rattle.machine_model.specs.Runs.{events_of};
ghost use Rattle.run_picture.specs.Charts.{HasRoom};
ghost use Rattle.step_picture.specs.StepCharts.{AreWaits, IsChartOfSteps};

use crate::steps::{all_in_steps, count, steps};
use crate::strips::strips;
use machine_model::event::{Event, EventRun, Standing};
use mark_checker::accept::Accepted;
use run_picture::chart::{Chart, MOST_SINGLE, lanes_of};
use run_picture::events::single_events;
use run_picture::shape::{Axis, Counted, Wait};
use std::alloc::{AllocError, Global};
use task_lives::laws::histories_fit;
use task_lives::lives::lives_of_runs;
use task_lives::tally::add_up;
use unit_waits::waits::waits;

/// The content of a picture of the history of a run in steps of an accepted program on `units` units, 1 to 16, with this
/// final state. Each event of the history is allowed when it occurs, and there are at most 1,000,000. An event at position
/// 0 ends a step.
///
/// # Errors
///
/// `AllocError` where memory was refused.
pub fn chart_of_steps(
    alloc: Global,
    accepted: &Accepted,
    units: u32,
    standing: Standing,
    runs: &[EventRun],
) -> Result<Chart, AllocError>
    requires some { 0 < units }
    requires few { units ≤ 16 }
    requires replay { (s : State) × Replays accepted.now.program units (events_of runs.now) s }
    requires room { length (events_of runs.now) ≤ most_events }
    ensures chart { IfOk result (IsChartOfSteps accepted.now.program units standing (events_of runs.now)) }
    ensures room { IfOk result HasRoom }
{
    histories_fit();
    let events = single_events(alloc, runs)?;
    let lives = lives_of_runs(alloc, runs, units)?;
    let tally = add_up(&lives);
    let columns = steps(alloc, &events)?;
    let lives = all_in_steps(alloc, &columns, &lives)?;
    let count = count(&columns);
    let waits = strips_if_single(alloc, accepted, units, count, &events)?;
    Ok(Chart {
        axis: Axis {
            counted: Counted::Steps,
            units,
            lanes: lanes_of(&lives),
            before: 0,
            count,
            total: count,
        },
        columns,
        retired: 0,
        events,
        lives,
        tally,
        head: tally.retired % units,
        standing,
        waits,
    })
}

/// The waits of a history of so many steps, if they are drawn singly; else none.
fn strips_if_single(
    alloc: Global,
    accepted: &Accepted,
    units: u32,
    count: u32,
    events: &[Event],
) -> Result<Vec<Wait>, AllocError>
    requires units { (0 < units) × (units ≤ 16) }
    requires replay { (s : State) × Replays accepted.now.program units events.now s }
    requires room { length events.now ≤ most_events }
    ensures { IfOk result (λ strips. count ≤ 2000 → AreWaits accepted.now.program units events.now strips.items) }
{
    if count > MOST_SINGLE {
        return Ok(Vec::new(alloc));
    }
    let waits = waits(alloc, accepted, units, events)?;
    strips(alloc, units, &waits)
}
