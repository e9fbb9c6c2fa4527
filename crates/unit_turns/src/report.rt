//! The report of a run in steps.

use sequencer::machine::Machine;
use thiserror::Error;

/// Why there is no report of a run; where several hold, the first.
#[derive(Clone, Copy, Debug, PartialEq, Eq, Error)]
pub enum StepsFault {
    /// 1: not 1 to 16 units.
    #[error("1 Units")]
    Units,
    /// 2: not a budget of 1 to 1,000,000 events.
    #[error("2 Budget")]
    Budget,
    /// 3: out of memory.
    #[error("3 OutOfMemory")]
    OutOfMemory,
}

/// How a run in steps ended.
#[derive(Clone, Copy, Debug, PartialEq, Eq)]
pub enum StepsEnd {
    /// The machine ended: it halted, trapped or continued at an address that is not listed.
    Ended,
    /// The machine has not ended, and its history has as many events as the budget.
    OutOfBudget,
}

/// The machine that a run in steps leaves, how the run ended and how long it was.
#[derive(Drop)]
pub struct StepsReport<'a> {
    /// The machine after the last step.
    pub machine: Machine<'a>,
    /// Whether the run ended or the budget was used up.
    pub how: StepsEnd,
    /// The number of steps. The budget may have cut the last one short.
    pub steps: u32,
}
