//! A run in steps as one SVG file.

ghost use Rattle.std.specs.Prelude.{ℕ, ◌<◌, ◌≤◌, length};
ghost use Rattle.machine_model.specs.Runs.{events_of};
ghost use Rattle.machine_model.specs.Machine.{State};
ghost use Rattle.machine_model.specs.Answer.{most_events};
ghost use Rattle.machine_model.specs.Replay.{Replays};

use crate::chart::chart_of_steps;
use crate::part::{Part, part_of};
use crate::predictor_text::write_predictor;
use crate::sheet::{ARROW_LEGEND, NO_MARKS_LEGEND, SUMMED_LEGEND, WAITS_LEGEND};
use event_trace::notes::notes;
use jobs::job::{Prediction, StepRange};
use machine_model::event::{EventRun, Standing};
use mark_checker::accept::Accepted;
use run_picture::chart::{Chart, MOST_SINGLE};
use run_picture::drawing::{write_chart, write_root};
use run_picture::events::single_events;
use run_picture::marks::MOST_MARKED;
use run_picture::shape_text::Remarks;
use run_picture::sheet::{MARKS_LEGEND, SHEET, SINGLE_LEGEND};
use run_picture::title::write_title;
use run_picture::words_text::write_how_it_stands;
use std::alloc::{AllocError, Global};

/// The picture of a range of the steps of the history of a run in steps of an accepted program of this name, which may be empty,
/// and of this text, on `units` units, 1 to 16, with this predictor and this final state: an SVG file with no script and no font
/// of its own. Each event of the history is allowed when it occurs, and there are at most 1,000,000. An event at position 0
/// ends a step.
///
/// # Errors
///
/// `AllocError` where memory was refused.
pub fn draw(
    alloc: Global,
    accepted: &Accepted,
    name: &str,
    program_text: &[u8],
    units: u32,
    predict: &Prediction,
    range: StepRange,
    standing: Standing,
    runs: &[EventRun],
) -> Result<String, AllocError>
    requires some { 0 < units }
    requires few { units ≤ 16 }
    requires replay { (s : State) × Replays accepted.now.program units (events_of runs.now) s }
    requires room { length (events_of runs.now) ≤ most_events }
{
    let whole = chart_of_steps(alloc, accepted, units, standing, runs)?;
    let Part { chart, skipped } = part_of(alloc, accepted, units, range, whole)?;
    let mut text = String::new(alloc);
    write_root(&mut text, name, chart.axis)?;
    text.push_str(SHEET)?;
    write_legend(&mut text, chart.axis.count)?;
    text.push_str("</g>\n<text class='title' x='88' y='46'>")?;
    write_title(&mut text, name, chart.axis)?;
    text.push_str("</text>\n")?;
    write_outcome(&mut text, predict, standing, &chart)?;
    let tasks = accepted.program().tasks();
    let notes = notes_if_marked(alloc, accepted, units, program_text, runs, skipped, &chart)?;
    let remarks = Remarks {
        notes: notes.as_slice(),
        shown: None,
    };
    write_chart(alloc, &mut text, tasks, remarks, &chart)?;
    Ok(text)
}

/// Notes on the events of a chart, before which `skipped` events come in the history, if they are drawn; else none.
fn notes_if_marked(
    alloc: Global,
    accepted: &Accepted,
    units: u32,
    program_text: &[u8],
    runs: &[EventRun],
    skipped: usize,
    chart: &Chart,
) -> Result<Vec<String>, AllocError>
    requires some { 0 < units }
    requires few { units ≤ 16 }
{
    if chart.axis.count > MOST_MARKED {
        return Ok(Vec::new(alloc));
    }
    let events = single_events(alloc, runs)?;
    let end = skipped.saturating_add(chart.events.len());
    let events = events.get(..end).unwrap_or(&[]);
    notes(alloc, accepted, units, program_text, events, skipped)
}

/// Writes the legend of single steps, with or without the marks of all events, or of stretches.
fn write_legend(text: &mut String, count: u32) -> Result<(), AllocError> {
    if count > MOST_SINGLE {
        return text.push_str(SUMMED_LEGEND);
    }
    text.push_str(SINGLE_LEGEND)?;
    text.push_str(WAITS_LEGEND)?;
    if count > MOST_MARKED {
        return text.push_str(NO_MARKS_LEGEND);
    }
    text.push_str(MARKS_LEGEND)?;
    text.push_str(ARROW_LEGEND)
}

/// Writes how the tasks and the run ended, and how the next task was predicted. A run that has not ended was out of budget.
fn write_outcome(
    text: &mut String,
    predict: &Prediction,
    standing: Standing,
    chart: &Chart,
) -> Result<(), AllocError> {
    let (retired, squashed) = (chart.tally.retired, chart.tally.squashed);
    write!(
        text,
        "<text class='quiet' x='88' y='72'>tasks retired: {retired}, squashed: {squashed}; the run "
    )?;
    match standing {
        Standing::Running => text.push_str("is out of budget")?,
        _ => write_how_it_stands(text, standing)?,
    }
    text.push_str("; predictor: ")?;
    write_predictor(text, predict)?;
    text.push_str("</text>\n")
}
