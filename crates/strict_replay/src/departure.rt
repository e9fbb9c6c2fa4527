//! The departure of a script from the machine.

use crate::expectation::{Expectation, ExpectedRefusal};
use event_script::fault::EventFault;
use event_trace::change::Change;
use machine_model::event::Refused;

/// The way in which a line of a script departs from the machine.
#[derive(Clone, Copy, Debug)]
pub enum Departure {
    /// The line spells no event, for this reason.
    NoEvent(EventFault),
    /// The machine refuses its event, for this reason.
    NotAllowed(Refused),
    /// The part of this number, from 1, spells no expectation.
    Unread(usize),
    /// The event did not do what the part of this number, from 1, expects.
    Missed { part: usize, expected: Expectation },
    /// The event was not refused for the expected reason.
    NotRefused(ExpectedRefusal),
    /// The event made this change, and a complete script does not list it.
    NotListed(Change),
    /// A complete script ends before its run does; the line is the first that it lacks.
    NotEnded,
}

/// The first line that departs from the machine.
#[derive(Clone, Copy, Debug)]
pub struct Departed {
    /// The number of the line, from 1.
    pub line: usize,
    /// The way in which it departs.
    pub why: Departure,
}
