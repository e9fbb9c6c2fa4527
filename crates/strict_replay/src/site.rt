//! Where the event of a line that departs was.

use crate::expected::changes_of;
use crate::judging::Played;
use event_trace::change::Change;
use event_trace::told::Told;
use event_trace::unit_change::UnitChange;
use machine_model::event::{Event, Spot};
use sequencer::machine::Machine;

/// The unit of an event.
#[derive(Clone, Copy, Debug, PartialEq, Eq)]
pub(crate) struct Site {
    /// Its position in the queue; the head is 0.
    pub position: u32,
    /// Its number round the ring.
    pub unit: usize,
    /// The number of its task.
    pub task: u32,
    /// The index of the instruction that it executed, or before which it is; `None` where it has stopped.
    pub index: Option<u32>,
}

/// The unit of an event, on the machine after it; `None` where no unit has it.
pub(crate) fn site_of(played: &Played, machine: &Machine<'_>) -> Option<Site> {
    let position = position_of(played)?;
    let (task, index) = match changed_at(&played.told, position) {
        Some(found) => found,
        None => standing_at(machine, position)?,
    };
    Some(Site {
        position,
        unit: played.ring.number_at(position),
        task,
        index,
    })
}

// The position of the unit that has an event.
fn position_of(played: &Played) -> Option<u32> {
    match played.event {
        Event::Assign(_) => match changes_of(&played.told).first() {
            Some(Change::AtUnit { position, .. }) => Some(*position),
            _ => None,
        },
        Event::Exec(k) | Event::Squash(k) | Event::Drop(k) => Some(k),
        Event::Transfer(k, _) | Event::Drain(k, _) => Some(k),
        Event::Retire | Event::Fault => Some(0),
    }
}

// The task and the instruction of the unit at a position, as the changes of its event have them.
fn changed_at(told: &Told, position: u32) -> Option<(u32, Option<u32>)> {
    changes_of(told).iter().find_map(|change| match *change {
        Change::AtUnit {
            position: at,
            task,
            change,
        } if at == position => match change {
            UnitChange::Executed { index } => Some((task, Some(index))),
            _ => Some((task, None)),
        },
        _ => None,
    })
}

// The task and the instruction of the unit at a position.
fn standing_at(machine: &Machine<'_>, position: u32) -> Option<(u32, Option<u32>)> {
    let unit = machine.unit(position)?;
    match unit.spot() {
        Spot::Inside(index) => Some((unit.task(), Some(index))),
        Spot::Stopped(_) => Some((unit.task(), None)),
    }
}
