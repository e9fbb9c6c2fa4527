//! The kinds of marks that cost speed.

use mips_instructions::number::Reg;

/// A mark that is sound but costs speed, or code that no task reaches. Tasks are counted from 0; `index` is a
/// code index.
#[derive(Clone, Copy, Debug, PartialEq, Eq)]
pub enum CostlyMark {
    /// The create mask of this task, which has a target, has the register, and no instruction that the task
    /// reaches writes or releases it: later tasks wait for it until the task ends.
    NeverProduced { task: u32, register: Reg },
    /// The instruction at this index is the last that writes its registers in each task that reaches it, and
    /// all of them have these registers in their create masks, but it has no forward bit: later tasks wait
    /// longer than they need. One of the tasks has a target.
    NotForwarded { index: u32 },
    /// The instruction at this index releases the register, which was sent before on each path to it, in each
    /// task that reaches it: the release does nothing.
    SentBefore { index: u32, register: Reg },
    /// No task reaches the instruction at this index, the first of the code or after one that is reached.
    Unreached { index: u32 },
}
