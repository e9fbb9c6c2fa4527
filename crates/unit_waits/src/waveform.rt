//! The waveform of a run in steps.

ghost use Rattle.std.specs.Prelude.{◌≡◌, ◌<◌, ◌≤◌, length, IfOk};
ghost use Rattle.machine_model.specs.Machine.{State, opening};
ghost use Rattle.machine_model.specs.Answer.{most_events};
ghost use Rattle.machine_model.specs.Replay.{Replays};
ghost use Rattle.sequencer.specs.Machines.{state};
ghost use Rattle.unit_waits.specs.Signals.{signals as signals_of};
ghost use Rattle.unit_waits.specs.Waits.{after_all};

use crate::acting::{behind, step_of};
use crate::changes::write_time;
use crate::header::write_header;
use crate::signals::signals;
use crate::steps::apply_all;
use crate::waits::machine_at_start;
use machine_model::event::Event;
use machine_model::laws::next_is_after;
use mark_checker::accept::Accepted;
use sequencer::machine::Machine;
use std::alloc::{AllocError, Global};

/// The waveform of a history of `units` units, 1 to 16, at the start of an accepted program, as a Value Change Dump
/// (IEEE 1364-2005, section 18; this project chose the signals).
///
/// One unit of time is one step. Time N, from 0, has the values with which step N + 1 begins, and the last time those that
/// the history leaves; a signal whose value does not change is left out. Each event of the history is allowed when it
/// occurs, and there are at most 1,000,000.
///
/// # Errors
///
/// `AllocError` where memory was refused.
pub fn waveform(
    alloc: Global,
    accepted: &Accepted,
    units: u32,
    history: &[Event],
) -> Result<String, AllocError>
    requires some { 0 < units }
    requires few { units ≤ 16 }
    requires replay { (s : State) × Replays accepted.now.program units history.now s }
    requires room { length history.now ≤ most_events }
{
    let mut text = String::new(alloc);
    write_header(&mut text, accepted.program(), units)?;
    write_times(alloc, &mut text, accepted, units, history)?;
    Ok(text)
}

/// Adds what the signals show in each step, and at the end. Answers the machine as the history leaves it.
fn write_times<'a>(
    alloc: Global,
    text: &mut String,
    accepted: &'a Accepted,
    units: u32,
    history: &[Event],
) -> Result<Machine<'a>, AllocError>
    requires some { 0 < units }
    requires few { units ≤ 16 }
    requires replay { (s : State) × Replays accepted.now.program units history.now s }
    requires room { length history.now ≤ most_events }
    ensures { IfOk result (λ machine. state machine ≡ after_all accepted.now.program (opening accepted.now.program) history.now) }
{
    next_is_after();
    let mut machine = machine_at_start(alloc, accepted, units)?;
    let mut before = Vec::new(alloc);
    let mut start = 0;
    let mut time = 0;
    while start < history.len() {
        let left = behind(history, start);
        let Some(events) = step_of(machine.active(), left) else {
            apply_all(&mut machine, left)?;
            show(alloc, text, accepted, &machine, units, time, &before, &[])?;
            return Ok(machine);
        };
        let shown = show(
            alloc, text, accepted, &machine, units, time, &before, events,
        )?;
        apply_all(&mut machine, events)?;
        before = shown;
        start += events.len();
        time += 1;
    }
    show(alloc, text, accepted, &machine, units, time, &before, &[])?;
    Ok(machine)
}

/// Adds a time, before which the signals showed this, with a step of these events that begins with a machine. Answers what
/// the signals show.
fn show(
    alloc: Global,
    text: &mut String,
    accepted: &Accepted,
    machine: &Machine<'_>,
    units: u32,
    time: u32,
    before: &[Option<u64>],
    events: &[Event],
) -> Result<Vec<Option<u64>>, AllocError>
    requires over { machine.now.accepted ≡ accepted.now }
    requires units { (0 < units) × (units ≤ 16) }
    ensures { IfOk result (λ shown. shown.items ≡ signals_of accepted.now.program units (state machine.now) events.now) }
{
    let shown = signals(alloc, accepted, machine, units, events)?;
    write_time(text, accepted.program(), time, before, &shown)?;
    Ok(shown)
}
