//! A timeline as one object of JSON in the Trace Event Format, which Perfetto and the viewer of Chrome open: the run is a
//! process, and each unit a thread of it.

ghost use Rattle.std.specs.Prelude.{◌<◌, ◌≤◌, length};
ghost use Rattle.machine_model.specs.Answer.{most_events};
ghost use Rattle.machine_model.specs.Runs.{events_of};
ghost use Rattle.task_lives.specs.Lives.{AllFit};

use crate::change::Change;
use crate::notes::{Source, write_effect};
use crate::ring::Ring;
use crate::source::EventSource;
use crate::timeline::{Mark, Slice, timeline_of};
use crate::times::times;
use crate::told::Told;
use crate::unit_change::UnitChange;
use crate::walk::Walk;
use event_script::writing::task_name;
use json_text::{JsonText, Written};
use machine_model::event::{Event, EventRun};
use mark_checker::accept::Accepted;
use run_picture::events::single_events;
use run_picture::shape::Wait;
use run_picture::shape_text::write_why;
use shown_names::name::shown_name;
use std::alloc::{AllocError, Global};
use task_descriptor::program::Program;
use task_lives::life::Ending;

/// The timeline (`timeline_of`) of a history of a program's run on `units` units, 1..=16, as one line of JSON, with the program's
/// name, which may be empty, its instructions and, of a run in steps, these waits.
///
/// # Errors
///
/// `AllocError` where memory was refused.
pub fn timeline(
    alloc: Global,
    accepted: &Accepted,
    name: &str,
    program_text: &[u8],
    units: u32,
    source: EventSource,
    waits: &[Wait],
    runs: &[EventRun],
) -> Result<String, AllocError>
    requires some { 0 < units }
    requires most { units ≤ 16 }
    requires room { length (events_of runs.now) ≤ most_events }
    requires fit { AllFit 0 (events_of runs.now) }
{
    let timeline = timeline_of(alloc, units, source, runs)?;
    let mut out = JsonText::new(alloc);
    out.begin()?;
    out.list("traceEvents")?;
    let name = shown_name(alloc, name)?;
    write_lanes(alloc, &mut out, name.as_str(), units)?;
    write_slices(&mut out, accepted.program(), &timeline.slices)?;
    let events = single_events(alloc, runs)?;
    write_instructions(
        alloc,
        &mut out,
        accepted,
        program_text,
        units,
        source,
        &events,
    )?;
    write_waits(alloc, &mut out, accepted.program(), waits)?;
    write_marks(alloc, &mut out, &timeline.marks)?;
    out.end_list()?;
    out.text("displayTimeUnit", "ms")?;
    out.end()?;
    let mut text = out.into_string();
    text.push_str("\n")?;
    Ok(text)
}

/// Begins an entry: its name, its kind, and the unit.
fn begin_entry(out: &mut JsonText, name: &str, kind: &str, unit: u32) -> Written {
    out.begin()?;
    out.text("name", name)?;
    out.text("ph", kind)?;
    out.number("pid", 1)?;
    out.number("tid", unit as usize)
}

/// Begins an entry of some time, in microseconds.
fn begin_timed(
    out: &mut JsonText,
    name: &str,
    category: &str,
    kind: &str,
    unit: u32,
    time: usize,
) -> Written {
    begin_entry(out, name, kind, unit)?;
    out.text("cat", category)?;
    out.number("ts", time)
}

/// Adds the names of the run and of its units, whose lanes stand in the order of their numbers.
fn write_lanes(alloc: Global, out: &mut JsonText, name: &str, units: u32) -> Written {
    let name = if name.is_empty() {
        "multiscalar run"
    } else {
        name
    };
    write_naming(out, "process_name", 0, name)?;
    for unit in 0..units {
        let name = format!(in alloc; "unit {unit}")?;
        write_naming(out, "thread_name", unit, name.as_str())?;
        begin_entry(out, "thread_sort_index", "M", unit)?;
        out.object("args")?;
        out.number("sort_index", unit as usize)?;
        out.end()?;
        out.end()?;
    }
    Ok(())
}

/// Adds the name of a thing.
fn write_naming(out: &mut JsonText, what: &str, unit: u32, name: &str) -> Written {
    begin_entry(out, what, "M", unit)?;
    out.object("args")?;
    out.text("name", name)?;
    out.end()?;
    out.end()
}

/// Adds the slice of each life.
fn write_slices(out: &mut JsonText, program: &Program, slices: &[Slice]) -> Written {
    for slice in slices {
        let life = slice.life;
        let name = task_name(program, life.task);
        begin_timed(out, name, "task", "X", life.unit, slice.begin)?;
        let duration = slice.last.saturating_sub(slice.begin).saturating_add(1);
        out.number("dur", duration)?;
        out.object("args")?;
        out.text("task", name)?;
        out.number("instructions", life.executed as usize)?;
        out.text("ending", ending_word(life.ending))?;
        out.end()?;
        out.end()?;
    }
    Ok(())
}

/// Adds a slice for each instruction, within that of its task.
fn write_instructions(
    alloc: Global,
    out: &mut JsonText,
    accepted: &Accepted,
    program_text: &[u8],
    units: u32,
    source: EventSource,
    events: &[Event],
) -> Written
    requires some { 0 < units }
    requires most { units ≤ 16 }
{
    let text = Source::new(alloc, program_text)?;
    let times = times(alloc, source, events)?;
    let mut walk = Walk::new(alloc, accepted, units)?;
    for (event, time) in events.iter().zip(times.iter()) {
        let ring = walk.ring();
        let (next, told) = walk.step(alloc, event)?;
        walk = next;
        if let Told::Taken(changes) = &told {
            write_instruction(alloc, out, &text, &ring, *time, changes)?;
        }
    }
    Ok(())
}

/// Adds the slice of an instruction that an event of this time executed and that changed this, if it executed one.
fn write_instruction(
    alloc: Global,
    out: &mut JsonText,
    source: &Source<'_>,
    ring: &Ring,
    time: usize,
    changes: &[Change],
) -> Written {
    let Some(
        Change::AtUnit {
            position,
            change,
            ..
        },
    ) = changes.first().copied()
    else {
        return Ok(());
    };
    let UnitChange::Executed { index } = change else {
        return Ok(());
    };
    let mut name = String::new(alloc);
    source.write_instruction(&mut name, index)?;
    let mut note = String::new(alloc);
    source.write_line(&mut note, index)?;
    for change in changes {
        write_effect(&mut note, *change)?;
    }
    let unit = ring.number_at(position).min(u32::MAX as usize) as u32;
    begin_timed(out, name.as_str(), "instruction", "X", unit, time)?;
    out.number("dur", 1)?;
    out.object("args")?;
    out.text("did", note.as_str())?;
    out.end()?;
    out.end()
}

/// Adds a slice for each wait, within that of its task.
fn write_waits(alloc: Global, out: &mut JsonText, program: &Program, waits: &[Wait]) -> Written {
    for wait in waits {
        let mut name = String::new(alloc);
        write_why(&mut name, program.tasks(), wait.why)?;
        let begin = (wait.step as usize).saturating_sub(1);
        begin_timed(out, name.as_str(), "wait", "X", wait.unit, begin)?;
        out.number("dur", wait.count as usize)?;
        out.end()?;
    }
    Ok(())
}

/// How a life ended, in a word.
fn ending_word(ending: Ending) -> &'static str {
    match ending {
        Ending::Retired => "retired",
        Ending::Squashed => "squashed",
        Ending::Dropped => "dropped",
        Ending::Unfinished => "unfinished",
    }
}

/// Adds what happens at one time: an arrow from the slice of one unit to the slice around its end, tied by the number of
/// the event to the slices that begin before it in the text; an instant on a unit's lane.
fn write_marks(alloc: Global, out: &mut JsonText, marks: &[Mark]) -> Written {
    for mark in marks {
        match *mark {
            Mark::Arrow {
                event,
                register,
                from,
                to,
                time,
            } => {
                let number = register.get();
                let name = format!(in alloc; "${number}")?;
                begin_timed(out, name.as_str(), "transfer", "s", from, time)?;
                out.number("id", event as usize)?;
                out.end()?;
                begin_timed(out, name.as_str(), "transfer", "f", to, time)?;
                out.number("id", event as usize)?;
                out.text("bp", "e")?;
            }
            Mark::Squash { unit, time } => {
                begin_timed(out, "squash", "squash", "i", unit, time)?;
                out.text("s", "t")?;
            }
        }
        out.end()?;
    }
    Ok(())
}
