//! The report of a run by threads.

use sequencer::machine::Machine;
use thiserror::Error;

/// Why there is no report of a run; where several hold, the first.
#[derive(Clone, Copy, Debug, PartialEq, Eq, Error)]
pub enum RunFault {
    /// 1: not 1 to 16 units, or not 1 to as many workers.
    #[error("1 Units")]
    Units,
    /// 2: not a budget of 1 to 1,000,000 events.
    #[error("2 Budget")]
    Budget,
    /// 3: out of memory, or a thread could not be made.
    #[error("3 OutOfMemory")]
    OutOfMemory,
    /// 4: the machine that came out of the threads has another program or number of units. No run answers
    /// this.
    #[error("4 Foreign")]
    Foreign,
}

/// How a run by threads ended.
#[derive(Clone, Copy, Debug, PartialEq, Eq)]
pub enum How {
    /// The machine ended: it halted, trapped or continued at an address that is not listed.
    Ended,
    /// The machine has not ended, and its history has as many events as the budget.
    OutOfBudget,
}

/// The machine that a run by threads leaves, the events of each worker, and how the run ended.
#[derive(Drop)]
pub struct Report<'a> {
    /// The machine as the workers left it.
    pub machine: Machine<'a>,
    /// For each worker, worker 0 first, the number of events of the history that its units did.
    pub counts: Vec<u64>,
    /// Whether the run ended or the budget was used up.
    pub how: How,
}
