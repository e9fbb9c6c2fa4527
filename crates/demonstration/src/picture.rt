//! A run that shows something as a picture.

ghost use Rattle.std.specs.Prelude.{◌≡◌, IfOk};
ghost use Rattle.machine_model.specs.Runs.{events_of};
ghost use Rattle.demonstration.specs.Found.{IsDemonstration};

use crate::harm_text::write_harm;
use crate::judge::Harm;
use crate::search::Demonstration;
use annotated_asm::position::Position;
use machine_model::event::{Event, EventRun, Standing};
use run_picture::drawing::draw_ended;
use run_picture::shape_text::Remarks;
use std::alloc::{AllocError, Global};
use task_descriptor::program::Program;
use task_lives::laws::histories_fit;
use task_lives::life::{Ending, Life};
use task_lives::lives::lives_of_runs;

/// The picture of a run that shows something, with the line above its title that says what. If an instruction reads a wrong
/// value, it stands out.
pub(crate) fn drawn(
    alloc: Global,
    places: &[Position],
    program: &Program,
    found: &Demonstration,
) -> Result<String, AllocError>
    requires { IsDemonstration program.now found.now }
{
    histories_fit();
    let runs = single_runs(alloc, &found.events)?;
    let lives = lives_of_runs(alloc, &runs, found.units)?;
    let shown = wrong_read(found, &lives);
    let mut sentence = String::new(alloc);
    write_harm(alloc, &mut sentence, program, places, &found.evidence)?;
    let mut said = format!(in alloc; "<tspan class='said' x='88' y='18'>{sentence}</tspan>")?;
    if shown.is_some() {
        said.push_str("<tspan class='said' x='760' y='133'>\u{2503} the wrong read</tspan>")?;
    }
    let notes = note_on(alloc, shown, sentence)?;
    draw_ended(
        alloc,
        program,
        "",
        &said,
        found.units,
        standing_of(found),
        Remarks {
            notes: notes.as_slice(),
            shown,
        },
        &runs,
    )
}

/// The index of the event in which an instruction reads a wrong value, if that is what the run shows. The instruction has
/// its number in the order of the sequential run, in which tasks come that were neither squashed nor dropped.
fn wrong_read(found: &Demonstration, lives: &[Life]) -> Option<usize> {
    let Harm::Stale(stale) = found.evidence.harm else {
        return None;
    };
    let mut number = stale.number;
    for life in lives {
        let executed = match life.ending {
            Ending::Retired | Ending::Unfinished => life.executed as usize,
            Ending::Squashed | Ending::Dropped => 0,
        };
        if number < executed {
            return execution_of(&found.events, found.units, *life, number);
        }
        number -= executed;
    }
    None
}

/// The index of the event in which a unit executes an instruction of a life; `number` have come before in it.
fn execution_of(events: &[Event], units: u32, life: Life, number: usize) -> Option<usize> {
    let mut retired: u32 = 0;
    let mut before = number;
    for (index, event) in events.iter().enumerate() {
        match *event {
            Event::Exec(position)
                if index > life.first as usize
                    && retired.saturating_add(position).checked_rem(units) == Some(life.unit) => {
                if before == 0 {
                    return Some(index);
                }
                before -= 1;
            }
            Event::Retire => retired = retired.saturating_add(1),
            _ => {}
        }
    }
    None
}

/// Notes on the events up to this one, of which it alone has one; none without an event.
fn note_on(alloc: Global, event: Option<usize>, note: String) -> Result<Vec<String>, AllocError> {
    let mut notes = Vec::new(alloc);
    let Some(event) = event else {
        return Ok(notes);
    };
    for _ in 0..event {
        notes.push(String::new(alloc))?;
    }
    notes.push(note)?;
    Ok(notes)
}

/// How a run stands that shows something: one that is cut off has ended.
fn standing_of(found: &Demonstration) -> Option<Standing> {
    match found.evidence.harm {
        Harm::CutOff(cut) => Some(Standing::Unlisted(cut.at)),
        Harm::Stale(_) | Harm::Held(_) => None,
    }
}

/// These events, each of them as a run of one.
fn single_runs(alloc: Global, events: &[Event]) -> Result<Vec<EventRun>, AllocError>
    ensures { IfOk result (λ runs. events_of runs.items ≡ events.now) }
{
    let mut runs = Vec::new(alloc);
    for event in events {
        runs.push(EventRun {
            event: *event,
            count: 1,
        })?;
    }
    Ok(runs)
}
