//! The table as comma separated values. Each error says that memory was refused.

ghost use Rattle.std.specs.Prelude.{◌<◌, ◌≤◌, length};
ghost use Rattle.machine_model.specs.Machine.{State};
ghost use Rattle.machine_model.specs.Answer.{most_events};
ghost use Rattle.machine_model.specs.Replay.{Replays};

use crate::table::table_of;
use crate::text::write_spot;
use annotated_asm::position::Position;
use event_script::writing::task_name;
use event_trace::places::places;
use machine_model::event::Event;
use mark_checker::accept::Accepted;
use mips_instructions::number::Reg;
use std::alloc::{AllocError, Global};
use task_descriptor::program::Program;
use unit_waits::count::Count;
use unit_waits::waiting::{Owed, Reason};

/// The waits in the steps of a history (`table_of`) as comma separated values: a heading, and a row for the waits of one task,
/// at one place and for one reason. What a reason does not name is empty. `program_text` is the text of the program:
/// instructions are named by its lines.
pub fn csv_table(
    alloc: Global,
    accepted: &Accepted,
    units: u32,
    program_text: &[u8],
    history: &[Event],
) -> Result<String, AllocError>
    requires some { 0 < units }
    requires few { units ≤ 16 }
    requires replay { (s : State) × Replays accepted.now.program units history.now s }
    requires room { length history.now ≤ most_events }
{
    let places = places(alloc, program_text)?;
    let table = table_of(alloc, accepted, units, history)?;
    let mut text = String::from_str(alloc, "waits,task,place,reason,register,sent,from\n")?;
    write_counts(&mut text, accepted.program(), &places, &table.counts)?;
    Ok(text)
}

/// Adds a row for each count: of which task, where and for what.
fn write_counts(
    text: &mut String,
    program: &Program,
    places: &[Position],
    counts: &[Count],
) -> Result<(), AllocError> {
    for count in counts {
        let (waits, first) = (count.waits, count.first);
        let name = task_name(program, first.task);
        write!(text, "{waits},{name},")?;
        write_spot(text, places, first.place)?;
        write_reason(text, program, first.reason)?;
    }
    Ok(())
}

/// Adds the columns of what holds a unit back, and ends the row.
fn write_reason(text: &mut String, program: &Program, reason: Reason) -> Result<(), AllocError> {
    match reason {
        Reason::NeedsRegister(register, owed) => {
            write_owed(text, program, "needs", register, owed)
        }
        Reason::NeedsHead => writeln!(text, ",needs to be the head,,,"),
        Reason::HasToPass(register, owed) => {
            write_owed(text, program, "has to pass on", register, owed)
        }
        Reason::HasFinished => writeln!(text, ",has finished,,,"),
        Reason::CouldGoOn => writeln!(text, ",could go on,,,"),
    }
}

/// Adds the columns of a reason with a register, whether it is sent, and who owes it.
fn write_owed(
    text: &mut String,
    program: &Program,
    reason: &str,
    register: Reg,
    owed: Owed,
) -> Result<(), AllocError> {
    let number = register.get();
    let sent = if owed.is_sent { "yes" } else { "no" };
    let name = task_name(program, owed.task);
    writeln!(text, ",{reason},{number},{sent},{name}")
}
