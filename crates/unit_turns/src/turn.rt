//! What a worker does next for a unit.

use machine_model::event::Event;

/// The next act of a worker for one of its units, under the lock.
#[derive(Clone, Copy, Debug, PartialEq, Eq)]
pub enum Turn {
    /// Applies this event, which is allowed and belongs to the unit.
    Apply(Event),
    /// Asks the predictor which of the targets of the machine's `choices` follows, and applies that
    /// target's Assign, which is the unit's.
    Choose,
    /// Makes a burst: the unit's next instruction needs nothing but its registers and read-only data.
    Burst,
    /// Does nothing until the machine has changed.
    Wait,
}
