//! The source of a run's events.

/// The source of a run's events.
#[derive(Clone, Copy, Debug, PartialEq, Eq)]
pub enum EventSource {
    /// A script.
    Script,
    /// The units, each with a thread.
    Threads,
    /// The units, in steps. In a step each unit does at most one event, the head last, so that an event at position 0 ends
    /// a step.
    Steps,
}
