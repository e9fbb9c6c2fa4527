//! The parameters of a run, and its result.

use jobs::job::Schedule;
use limits::ranges::{Budget, Units, Workers};
use sequencer::machine::Machine;
use threaded_runner::report::How;

/// The parameters of a run.
#[derive(Clone, Copy, Debug, PartialEq, Eq)]
pub struct Extent {
    /// How the units take turns.
    pub schedule: Schedule,
    /// The number of units of the machine.
    pub units: Units,
    /// The number of threads that serve them; more than units count as one for each unit. A run in steps has one.
    pub workers: Workers,
    /// The number of events after which the run ends.
    pub budget: Budget,
}

/// The result of a run.
#[derive(Drop)]
pub struct Ran<'a> {
    /// The machine after the run.
    pub machine: Machine<'a>,
    /// How the run ended.
    pub how: How,
    /// The number of steps that the run took; `None` if it was not in steps.
    pub steps: Option<u32>,
}
