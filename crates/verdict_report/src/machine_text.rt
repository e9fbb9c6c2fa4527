//! The text of a multiscalar machine's state.
ghost use Rattle.std.specs.Prelude.{◌≡◌, ◌≤◌, ◌++◌, IfOk, OnOk};
ghost use Rattle.std.specs.String.{string_bytes};
ghost use Rattle.sequencer.specs.Machines.{state, units_of};
ghost use Rattle.step_picture.specs.StepCharts.{AreWaits};
ghost use Rattle.step_picture.specs.Steps.{count_of, steps_of};
ghost use Rattle.verdict_report.specs.MachineText.{machine_text, retired_text, standing_status, standing_text};

use event_trace::notes::notes;
use event_trace::source::EventSource;
use event_trace::timeline_text::timeline;
use jobs::job::TableFormat;
use limits::ranges::Units;
use machine_model::event::Standing;
use mark_checker::accept::Accepted;
use report_texts::plain_text::write_words;
use run_picture::chart::MOST_SINGLE;
use run_picture::drawing::draw_ended;
use run_picture::events::single_events;
use run_picture::shape::Wait;
use run_picture::shape_text::Remarks;
use sequencer::machine::Machine;
use std::alloc::{AllocError, Global};
use step_picture::chart::chart_of_steps;
use task_descriptor::program::Program;
use task_lives::csv::write_csv;
use task_lives::laws::histories_fit;
use task_lives::lives::lives_of_runs;

// Adds how a run stands.
fn write_standing(text: &mut String, standing: Standing) -> Result<(), AllocError>
    ensures { OnOk result (string_bytes text.new ≡ string_bytes text.old ++ standing_text standing) }
{
    match standing {
        Standing::Running => write!(text, "running"),
        Standing::Halted => write!(text, "halted"),
        Standing::Trapped(trap) => write!(text, "trapped {trap}"),
        Standing::Unlisted(address) => write!(text, "unlisted {address:08x}"),
    }
}

// Adds how many tasks retired, how many instructions these executed, and how many with those of the
// head.
fn write_retired(text: &mut String, machine: &Machine<'_>) -> Result<(), AllocError>
    ensures { OnOk result (string_bytes text.new ≡ string_bytes text.old ++ retired_text (state machine.now)) }
{
    let tasks = machine.commits().len();
    let (committed, executed) = machine.counts();
    writeln!(text, "retired {tasks} c {committed} h {executed}")
}

/// Adds the output words of a machine, how many tasks and instructions retired, and how its run is.
///
/// # Errors
///
/// `AllocError` where memory was refused; a part may have been added.
pub fn write_machine(text: &mut String, machine: &Machine<'_>) -> Result<(), AllocError>
    ensures { OnOk result (string_bytes text.new ≡ string_bytes text.old ++ machine_text (state machine.now)) }
{
    write_words(text, machine.output())?;
    write_retired(text, machine)?;
    write_standing(text, machine.outcome())?;
    writeln!(text, "")
}

/// The summary of a machine's history, laid out in this way: how often each task was assigned, and how that ended.
///
/// # Errors
///
/// `AllocError` where memory was refused.
pub fn summary_of(
    alloc: Global,
    units: Units,
    format: TableFormat,
    machine: &Machine<'_>,
    program: &Program,
) -> Result<Vec<u8>, AllocError>
    requires over { machine.now.accepted.program ≡ program.now }
    requires units { units_of machine.now ≡ units }
{
    histories_fit();
    let lives = lives_of_runs(alloc, machine.history(), units.get())?;
    match format {
        TableFormat::Text => task_lives::summary::write(alloc, program, &lives),
        TableFormat::Csv => write_csv(alloc, program, &lives),
    }
}

/// The picture of the history of a machine of `units` units, which runs this program: it gives the program this name, says
/// how the run is, and has `said`, which is SVG text, to the right of the legend.
///
/// # Errors
///
/// `AllocError` where memory was refused.
pub fn picture_of(
    alloc: Global,
    units: Units,
    name: &str,
    text: &[u8],
    said: &str,
    machine: &Machine<'_>,
    accepted: &Accepted,
) -> Result<Vec<u8>, AllocError>
    requires over { machine.now.accepted.program ≡ accepted.now.program }
    requires units { units_of machine.now ≡ units }
{
    histories_fit();
    let notes = notes_if_single(alloc, units, text, machine, accepted)?;
    let picture = draw_ended(
        alloc,
        accepted.program(),
        name,
        said,
        units.get(),
        Some(machine.outcome()),
        Remarks {
            notes: notes.as_slice(),
            shown: None,
        },
        machine.history(),
    )?;
    Ok(picture.into_bytes())
}

// What each event of a machine's history did, if all are drawn singly; else nothing.
fn notes_if_single(
    alloc: Global,
    units: Units,
    text: &[u8],
    machine: &Machine<'_>,
    accepted: &Accepted,
) -> Result<Vec<String>, AllocError> {
    let events = single_events(alloc, machine.history())?;
    if events.len() > MOST_SINGLE as usize {
        return Ok(Vec::new(alloc));
    }
    notes(alloc, accepted, units.get(), text, &events, 0)
}

/// The timeline of the history of a machine of `units` units, which runs the program of this name and text, as JSON, with these
/// waits.
///
/// # Errors
///
/// `AllocError` where memory was refused.
pub fn timeline_of(
    alloc: Global,
    units: Units,
    name: &str,
    text: &[u8],
    source: EventSource,
    waits: &[Wait],
    machine: &Machine<'_>,
    accepted: &Accepted,
) -> Result<Vec<u8>, AllocError>
    requires over { machine.now.accepted.program ≡ accepted.now.program }
    requires units { units_of machine.now ≡ units }
{
    histories_fit();
    let runs = machine.history();
    let timeline = timeline(
        alloc,
        accepted,
        name,
        text,
        units.get(),
        source,
        waits,
        runs,
    )?;
    Ok(timeline.into_bytes())
}

/// Why the units waited in the steps of the history of a machine of `units` units, if they are drawn singly; else nothing.
pub fn single_waits(
    alloc: Global,
    units: Units,
    machine: &Machine<'_>,
    accepted: &Accepted,
) -> Result<Vec<Wait>, AllocError>
    requires over { machine.now.accepted ≡ accepted.now }
    requires units { (units_of machine.now ≤ 16) × (units_of machine.now ≡ units) }
    ensures { IfOk result (λ waits. count_of (steps_of machine.now.history) ≤ 2000
        → AreWaits accepted.now.program units machine.now.history waits.items) }
{
    let standing = machine.outcome();
    let chart = chart_of_steps(alloc, accepted, units.get(), standing, machine.history())?;
    Ok(chart.waits)
}

/// The exit status for a machine's run: 0 if it halted or has not ended, 1 if it trapped or is unlisted.
pub fn standing_status_of(standing: Standing) -> u8
    ensures { result ≡ standing_status standing }
{
    match standing {
        Standing::Running | Standing::Halted => 0,
        Standing::Trapped(_) | Standing::Unlisted(_) => 1,
    }
}
