//! The text of the table.

ghost use Rattle.std.specs.Prelude.{◌<◌, ◌≤◌, length};
ghost use Rattle.machine_model.specs.Machine.{State};
ghost use Rattle.machine_model.specs.Answer.{most_events};
ghost use Rattle.machine_model.specs.Replay.{Replays};

use crate::table::table_of;
use annotated_asm::position::Position;
use event_script::writing::task_name;
use event_trace::places::places;
use event_trace::text::write_place;
use machine_model::event::{Event, Spot};
use mark_checker::accept::Accepted;
use mips_instructions::number::Reg;
use std::alloc::{AllocError, Global};
use task_descriptor::program::Program;
use unit_waits::count::Count;
use unit_waits::waiting::{Owed, Reason};

/// The table of the waits in the steps of a history (`table_of`): a heading; a row for the waits of one task, at one place
/// and for one reason; a row for each kind of reason; and a row for all. `program_text` is the text of the program:
/// instructions are named by its lines.
///
/// # Errors
///
/// `AllocError` where memory was refused.
pub fn table(
    alloc: Global,
    accepted: &Accepted,
    units: u32,
    program_text: &[u8],
    history: &[Event],
) -> Result<String, AllocError>
    requires some { 0 < units }
    requires few { units ≤ 16 }
    requires replay { (s : State) × Replays accepted.now.program units history.now s }
    requires room { length history.now ≤ most_events }
{
    let places = places(alloc, program_text)?;
    let table = table_of(alloc, accepted, units, history)?;
    let mut text = String::from_str(alloc, "   waits  task, place and reason\n")?;
    write_counts(&mut text, accepted.program(), &places, &table.counts)?;
    let (unsent, sent, head, all) = (table.unsent, table.sent, table.head, table.all);
    writeln!(text, "{unsent:>8}  (all for registers that were not sent)")?;
    writeln!(text, "{sent:>8}  (all for registers on their way)")?;
    writeln!(text, "{head:>8}  (all for the head's turn)")?;
    writeln!(text, "{all:>8}  (all)")?;
    Ok(text)
}

/// Adds a row for each count: of which task, where and for what.
fn write_counts(
    text: &mut String,
    program: &Program,
    places: &[Position],
    counts: &[Count],
) -> Result<(), AllocError> {
    for count in counts {
        let (waits, first) = (count.waits, count.first);
        let name = task_name(program, first.task);
        write!(text, "{waits:>8}  {name}, ")?;
        write_spot(text, places, first.place)?;
        text.push_str(": ")?;
        write_reason(text, program, first.reason)?;
        text.push_str("\n")?;
    }
    Ok(())
}

/// Adds where a unit waits.
pub(crate) fn write_spot(
    text: &mut String,
    places: &[Position],
    spot: Spot,
) -> Result<(), AllocError> {
    match spot {
        Spot::Inside(index) => write_place(text, places, index),
        Spot::Stopped(_) => text.push_str("stopped"),
    }
}

/// Adds what holds a unit back.
fn write_reason(text: &mut String, program: &Program, reason: Reason) -> Result<(), AllocError> {
    match reason {
        Reason::NeedsRegister(register, owed) => {
            text.push_str("needs ")?;
            write_owed(text, program, register, owed)
        }
        Reason::NeedsHead => text.push_str("needs to be the head"),
        Reason::HasToPass(register, owed) => {
            text.push_str("has to pass on ")?;
            write_owed(text, program, register, owed)
        }
        Reason::HasFinished => text.push_str("has finished, and is not the head"),
        Reason::CouldGoOn => text.push_str("could go on"),
    }
}

/// Adds a register, and who owes it.
fn write_owed(
    text: &mut String,
    program: &Program,
    register: Reg,
    owed: Owed,
) -> Result<(), AllocError> {
    let number = register.get();
    let name = task_name(program, owed.task);
    if owed.is_sent {
        write!(text, "${number}, on its way from {name}")
    } else {
        write!(text, "${number}, not sent yet by {name}")
    }
}
