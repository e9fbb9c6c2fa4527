//! What could be better about a program's marks.

use diagnostics::listed::Listed;
use finding_paths::mark::CostlyMark;

/// What may be forgotten: a way to a task, or a stop. Tasks are numbers from 0.
#[derive(Clone, Copy, Debug, PartialEq, Eq)]
pub enum StopRemark {
    /// This task never runs: the program starts elsewhere, and no other task has it as a target.
    NeverRuns(u32),
    /// This task has targets, and no instruction that it reaches has an exit.
    NoExit(u32),
    /// This task has targets, some of which no exit takes.
    NotTaken(u32),
    /// The instruction at code index `index`, the first of `task` that does so, continues without a stop into the entry of
    /// the task `into`.
    GoesInto { task: u32, index: u32, into: u32 },
}

/// What could be better about the marks of a program.
#[derive(Debug, Drop)]
pub enum Remark {
    /// A stop, or a way to a task, may be forgotten.
    Stop(StopRemark),
    /// A mark that costs speed, or code that no task reaches; `registers` has the numbers of the registers of all marks
    /// that this remark covers.
    Costly {
        mark: CostlyMark,
        registers: Listed<u8>,
    },
}
