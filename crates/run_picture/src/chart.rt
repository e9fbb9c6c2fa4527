//! The content of a picture, and its shapes.

ghost use Rattle.std.specs.Prelude.{◌≡◌, ◌<◌, ◌≤◌, IfOk, length, nat_le};
ghost use Rattle.machine_model.specs.Answer.{most_events};
ghost use Rattle.machine_model.specs.Runs.{events_of};
ghost use Rattle.task_lives.specs.Lives.{AllFit};
ghost use Rattle.task_lives.specs.Sums.{AreFew};
ghost use Rattle.run_picture.specs.Meanings.{meanings};
ghost use Rattle.run_picture.specs.Charts.{HasRoom, IsChartOfEvents, told};

use crate::bars::{push_bars, push_waits};
use crate::events::{numbers_to, single_events};
use crate::heads::push_heads;
use crate::marks::push_marks;
use crate::shape::{Axis, Counted, Shape, Wait};
use crate::stretches::push_shares;
use machine_model::event::{Event, EventRun, Standing};
use std::alloc::{AllocError, Global};
use task_lives::life::Life;
use task_lives::lives::lives_of_runs;
use task_lives::tally::{Tally, add_up};

/// The most events or steps that are drawn one by one; more are summed by stretches.
pub const MOST_SINGLE: u32 = 2_000;

/// The content of a picture: the lives, events and waits of a run, and the columns in which they are.
#[derive(Drop)]
pub struct Chart {
    /// What the columns are, and how many columns and units there are.
    pub axis: Axis,
    /// The column of each event, from 1.
    pub columns: Vec<u32>,
    /// How many tasks retired before the events.
    pub retired: u32,
    /// The events, in order.
    pub events: Vec<Event>,
    /// The lives; their `first` and `last` are columns, from 0.
    pub lives: Vec<Life>,
    /// The tally of all lives of the run.
    pub tally: Tally,
    /// The number round the ring of the unit that is the head when the run ends.
    pub head: u32,
    /// How the run is at its end; `Running` also where that is not known.
    pub standing: Standing,
    /// The waits, which only pictures of steps have.
    pub waits: Vec<Wait>,
}

impl Chart {
    /// Whether events or steps are drawn one by one: there are at most `MOST_SINGLE`.
    pub fn is_single(&self) -> bool
        ensures { result ≡ nat_le self.now.axis.count 2000 }
    {
        self.axis.count <= MOST_SINGLE
    }
}

/// How many units have a lane: those from 0 on that ever had a task, and all those between.
pub fn lanes_of(lives: &[Life]) -> u32 {
    let mut lanes: u32 = 0;
    for life in lives {
        lanes = lanes.max(life.unit.saturating_add(1));
    }
    lanes
}

/// The content of a picture of the events of a history of `units` units, with how the run is at its end; `Running` also where
/// that is not known. The history has at most 1,000,000 events, and no event of it is at a position where there is no unit.
///
/// # Errors
///
/// `AllocError` where memory was refused.
pub fn chart_of_events(
    alloc: Global,
    units: u32,
    standing: Standing,
    runs: &[EventRun],
) -> Result<Chart, AllocError>
    requires some { 0 < units }
    requires room { length (events_of runs.now) ≤ most_events }
    requires fit { AllFit 0 (events_of runs.now) }
    ensures chart { IfOk result (IsChartOfEvents units standing (events_of runs.now)) }
    ensures room { IfOk result HasRoom }
{
    let events = single_events(alloc, runs)?;
    let lives = lives_of_runs(alloc, runs, units)?;
    let count = events.len() as u32;
    let columns = numbers_to(alloc, count)?;
    let tally = add_up(&lives);
    Ok(Chart {
        axis: Axis {
            counted: Counted::Events,
            units,
            lanes: lanes_of(&lives),
            before: 0,
            count,
            total: count,
        },
        columns,
        retired: 0,
        events,
        lives,
        tally,
        head: tally.retired % units,
        standing,
        waits: Vec::new(alloc),
    })
}

/// The shapes of a picture: of its lives, waits, heads and events, or of the stretches of a long run.
///
/// # Errors
///
/// `AllocError` where memory was refused.
pub fn shapes_of(alloc: Global, chart: &Chart) -> Result<Vec<Shape>, AllocError>
    requires { HasRoom chart.now }
    ensures { IfOk result (λ shapes. meanings shapes.items ≡ told chart.now) }
{
    let mut shapes = Vec::new(alloc);
    if chart.is_single() {
        let axis = chart.axis;
        let (columns, retired) = (&chart.columns, chart.retired);
        push_bars(&mut shapes, axis, chart.head, chart.standing, &chart.lives)?;
        push_waits(&mut shapes, axis, &chart.waits)?;
        push_heads(&mut shapes, axis, columns, retired, &chart.events)?;
        push_marks(&mut shapes, axis, columns, retired, &chart.events)?;
    } else {
        push_shares(alloc, &mut shapes, chart)?;
    }
    Ok(shapes)
}
