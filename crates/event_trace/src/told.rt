//! The report of a walk on an event.

use crate::change::Change;
use machine_model::event::Refused;

/// The report of a walk on an event.
#[derive(Debug, Drop)]
pub enum Told {
    /// The event was allowed, and made these changes.
    Taken(Vec<Change>),
    /// The event was refused for this reason, and changed nothing.
    Refused(Refused),
}
