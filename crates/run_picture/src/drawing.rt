//! A run as one SVG file.

ghost use Rattle.std.specs.Prelude.{◌<◌, ◌≤◌, length};
ghost use Rattle.machine_model.specs.Runs.{events_of};
ghost use Rattle.machine_model.specs.Answer.{most_events};
ghost use Rattle.task_lives.specs.Lives.{AllFit};
ghost use Rattle.run_picture.specs.Charts.{HasRoom};

use crate::chart::{Chart, chart_of_events, shapes_of};
use crate::frame::{frame, labels, push};
use crate::scale::{end_of_lanes, left_edge};
use crate::shape::{Axis, Element, Geometry, LabelText, Style};
use crate::shape_text::{Remarks, Telling, word_of_counted, write_elements, write_shapes};
use crate::sheet::{ARROW_LEGEND, MARKS_LEGEND, SHEET, SINGLE_LEGEND, STRETCHES_LEGEND};
use crate::title::write_title;
use machine_model::event::{EventRun, Standing};
use std::alloc::{AllocError, Global};
use task_descriptor::descriptor::Descriptor;
use task_descriptor::program::Program;
use task_lives::tally::Tally;

/// The picture of the history of a run of a program of this name, which may be empty, on `units` units, at least one: an
/// SVG file with no script and no font of its own. It says how the run is after the history, if that is known, and shows
/// how the task ended with which it did. `said` is SVG text, which may be empty and is put to the right of the legend. The
/// history has at most 1,000,000 events, and no event of it is at a position where there is no unit; this holds for every
/// history of a machine (`task_lives::laws::histories_fit`).
///
/// # Errors
///
/// `AllocError` where memory was refused.
pub fn draw_ended(
    alloc: Global,
    program: &Program,
    name: &str,
    said: &str,
    units: u32,
    standing: Option<Standing>,
    remarks: Remarks<'_>,
    runs: &[EventRun],
) -> Result<String, AllocError>
    requires some { 0 < units }
    requires room { length (events_of runs.now) ≤ most_events }
    requires fit { AllFit 0 (events_of runs.now) }
{
    let stands = standing.unwrap_or(Standing::Running);
    let chart = chart_of_events(alloc, units, stands, runs)?;
    let tasks = program.tasks();
    let mut text = String::new(alloc);
    write_opening(&mut text, name, said, &chart)?;
    let outcome = outcome(alloc, chart.tally, standing)?;
    write_elements(&mut text, tasks, &outcome)?;
    write_chart(alloc, &mut text, tasks, remarks, &chart)?;
    Ok(text)
}

/// Writes the beginning of the file: its size, what it is called, the style sheet, the legend, the title, and what is said
/// further.
fn write_opening(
    text: &mut String,
    name: &str,
    said: &str,
    chart: &Chart,
) -> Result<(), AllocError> {
    write_root(text, name, chart.axis)?;
    text.push_str(SHEET)?;
    if chart.is_single() {
        text.push_str(SINGLE_LEGEND)?;
        text.push_str(MARKS_LEGEND)?;
        text.push_str(ARROW_LEGEND)?;
    } else {
        text.push_str(STRETCHES_LEGEND)?;
    }
    text.push_str("</g>\n<text class='title' x='88.00' y='46.00'>")?;
    write_title(text, name, chart.axis)?;
    text.push_str("</text>\n")?;
    if said.is_empty() {
        return Ok(());
    }
    writeln!(
        text,
        "<text class='quiet' x='760.00' y='133.00'>{said}</text>"
    )
}

/// Adds the start tag of the root element, and its title.
///
/// # Errors
///
/// `AllocError` where memory was refused; a part may have been added.
pub fn write_root(text: &mut String, name: &str, axis: Axis) -> Result<(), AllocError> {
    let height = (end_of_lanes(axis) + 9_200) / 100;
    write!(
        text,
        "<svg xmlns='http://www.w3.org/2000/svg' viewBox='0 0 1280 {height}' width='1280' height='{height}' role='img' font-family='system-ui,Segoe UI,Liberation Sans,Arial,sans-serif'><title>"
    )?;
    write_title(text, name, axis)?;
    text.push_str("</title>\n")
}

/// The tally of the lives below the title, and how the run stands, if that is known, below the legend.
fn outcome(
    alloc: Global,
    tally: Tally,
    standing: Option<Standing>,
) -> Result<Vec<Element>, AllocError> {
    let mut elements = Vec::new(alloc);
    let sums = Geometry::Label(8_800, 7_200, LabelText::Sums(tally));
    push(&mut elements, Style::Quiet, sums)?;
    if let Some(standing) = standing {
        let words = Geometry::Label(8_800, 13_300, LabelText::HowItStands(standing));
        push(&mut elements, Style::Quiet, words)?;
    }
    Ok(elements)
}

// Adds a line above the lanes, which shows where in the whole run the part is that is drawn, if it is a part.
fn write_place(text: &mut String, axis: Axis) -> Result<(), AllocError> {
    if axis.count >= axis.total {
        return Ok(());
    }
    let left = left_edge(axis.total, axis.before);
    let right = left_edge(axis.total, axis.before.saturating_add(axis.count));
    let wide = right.saturating_sub(left).max(200);
    let (x, wide) = (left / 100, wide / 100);
    let (first, last) = (
        axis.before.saturating_add(1),
        axis.before.saturating_add(axis.count),
    );
    let (total, counted) = (axis.total, word_of_counted(axis.counted));
    writeln!(
        text,
        "<g><title>{counted}s {first} to {last} of {total}</title><rect class='idle' x='88' y='139' width='1160' height='4'/><rect class='leads' x='{x}' y='139' width='{wide}' height='4'/></g>"
    )
}

/// Adds the lanes, the axis, the shapes of a picture with remarks on its events, its labels, and the end of the file.
///
/// # Errors
///
/// `AllocError` where memory was refused; a part may have been added.
pub fn write_chart(
    alloc: Global,
    text: &mut String,
    tasks: &[Descriptor],
    remarks: Remarks<'_>,
    chart: &Chart,
) -> Result<(), AllocError>
    requires { HasRoom chart.now }
{
    let frame = frame(alloc, chart.axis)?;
    write_elements(text, tasks, &frame)?;
    write_place(text, chart.axis)?;
    let shapes = shapes_of(alloc, chart)?;
    let telling = Telling {
        tasks,
        remarks,
        before: chart.axis.before,
    };
    write_shapes(alloc, text, &telling, &shapes)?;
    let labels = labels(alloc, tasks, chart)?;
    write_elements(text, tasks, &labels)?;
    text.push_str("</svg>\n")
}
