//! How many waits there are of one kind.

use crate::waiting::Waiting;

/// The waits of one task, at one place and for one reason.
#[derive(Clone, Copy, Debug, PartialEq, Eq)]
pub struct Count {
    /// The first of them.
    pub first: Waiting,
    /// How many there are.
    pub waits: u32,
}
