//! The table of a run's waits.

ghost use Rattle.std.specs.Prelude.{◌<◌, ◌≤◌, length, IfOk};
ghost use Rattle.machine_model.specs.Machine.{State};
ghost use Rattle.machine_model.specs.Answer.{most_events};
ghost use Rattle.machine_model.specs.Replay.{Replays};
ghost use Rattle.wait_table.specs.Table.{IsTableOf};

use crate::kinds::{Kind, waits_of};
use crate::order::most_first;
use machine_model::event::Event;
use mark_checker::accept::Accepted;
use std::alloc::{AllocError, Global};
use unit_waits::count::Count;
use unit_waits::counts::count_waits;

/// The waits of a run, counted. A wait is a step in which a unit after the head does nothing.
#[derive(Debug, Drop)]
pub struct WaitTable {
    /// The waits of one task, at one place and for one reason together, the most frequent first; of equal counts the one
    /// that began first.
    pub counts: Vec<Count>,
    /// The number of waits for registers that were not sent.
    pub unsent: u32,
    /// The number of waits for registers on their way.
    pub sent: u32,
    /// The number of waits for the unit's turn to be the head.
    pub head: u32,
    /// The number of all waits.
    pub all: u32,
}

/// The waits in the steps of a history of `units` units, 1 to 16, at the start of an accepted program, counted. Each event
/// of the history is allowed when it occurs, and there are at most 1,000,000.
///
/// # Errors
///
/// `AllocError` where memory was refused.
pub fn table_of(
    alloc: Global,
    accepted: &Accepted,
    units: u32,
    history: &[Event],
) -> Result<WaitTable, AllocError>
    requires some { 0 < units }
    requires few { units ≤ 16 }
    requires replay { (s : State) × Replays accepted.now.program units history.now s }
    requires room { length history.now ≤ most_events }
    ensures { IfOk result (IsTableOf accepted.now.program units history.now) }
{
    let counts = count_waits(alloc, accepted, units, history)?;
    let unsent = waits_of(Kind::Unsent, &counts);
    let sent = waits_of(Kind::Sent, &counts);
    let head = waits_of(Kind::Head, &counts);
    let all = waits_of(Kind::Any, &counts);
    let ordered = most_first(alloc, &counts)?;
    Ok(WaitTable {
        counts: ordered,
        unsent,
        sent,
        head,
        all,
    })
}
