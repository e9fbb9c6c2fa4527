//! The life of a task on a unit, and how it ended.

/// How the life of a task ended.
#[derive(Clone, Copy, Debug, PartialEq, Eq)]
pub enum Ending {
    /// By a Retire, when it was at the head of the queue.
    Retired,
    /// By a Squash: a task before it stopped, and the next task is not the predicted one.
    Squashed,
    /// By a Drop: its unit, or one before it, was given up.
    Dropped,
    /// It has not ended: its unit is still at work after the last event.
    Unfinished,
}

/// The life of a task on a unit. Events are numbered from 0 in the order of the history, which has at most 1,000,000.
#[derive(Clone, Copy, Debug, PartialEq, Eq)]
pub struct Life {
    /// The number of the task in the program, from 0.
    pub task: u32,
    /// The number of its unit round the ring, from 0 and less than the number of units.
    pub unit: u32,
    /// The number of the event that assigned it, from 0.
    pub first: u32,
    /// The number of the event that ended it, from 0; for an unfinished life, of the last event.
    pub last: u32,
    /// How many instructions its unit executed for it, at most 1,000,000.
    pub executed: u32,
    /// How it ended.
    pub ending: Ending,
}
