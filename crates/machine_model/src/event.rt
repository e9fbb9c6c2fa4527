//! The events of the machine, and what is reported of a run.

use mips_instructions::number::Reg;
use mips_plain::outcome::Trap;

/// One atomic step of the machine, by one unit. A position k counts units from the head of the queue, which is
/// 0; a task is its number, from 0, among the program's tasks.
#[derive(Clone, Copy, Debug, PartialEq, Eq)]
pub enum Event {
    /// A free unit takes this task, after the tail.
    Assign(u32),
    /// The unit at position k executes one instruction.
    Exec(u32),
    /// The unit at position k, which is not the head, takes this register from the unit before it.
    Transfer(u32, Reg),
    /// The stopped unit at position k sends this register of its create mask.
    Drain(u32, Reg),
    /// The unit at position k has stopped, and the next unit begins elsewhere: all after k are removed.
    Squash(u32),
    /// The head, stopped at a listed exit with its create mask sent, passes on its registers and reads,
    /// and leaves.
    Retire,
    /// The head has stopped at an address that is not listed: the run ends.
    Fault,
    /// The unit at position k, which is not the head, and all after it are removed.
    Drop(u32),
}

/// Equal events in a row, as a history keeps them.
#[derive(Clone, Copy, Debug, PartialEq, Eq)]
pub struct EventRun {
    /// The event that is repeated.
    pub event: Event,
    /// The number of times that it occurs in a row.
    pub count: u32,
}

/// What stays of a retired task.
#[derive(Clone, Copy, Debug, PartialEq, Eq)]
pub struct Commit {
    /// The number of the task, from 0.
    pub task: u32,
    /// The address in bytes at which it stopped: the next instruction of the run.
    pub exit: u32,
    /// The number of instructions that it executed.
    pub count: u32,
}

/// The place of a unit: before an instruction of its task, or stopped.
#[derive(Clone, Copy, Debug, PartialEq, Eq)]
pub enum Spot {
    /// Before the instruction at this code index.
    Inside(u32),
    /// After an exit of its task, at this address in bytes.
    Stopped(u32),
}

/// Whether a run of the machine continues or how it ended.
#[derive(Clone, Copy, Debug, PartialEq, Eq)]
pub enum Standing {
    /// The run continues.
    Running,
    /// The head executed a `halt`.
    Halted,
    /// The head met this trap.
    Trapped(Trap),
    /// The head stopped at this address, in bytes, at which no target of its task begins.
    Unlisted(u32),
}

/// Why an event is refused. The first that holds, in this order, is the answer.
#[derive(Clone, Copy, Debug, PartialEq, Eq)]
pub enum Refused {
    /// 1: the run has ended.
    Ended,
    /// 2: no unit is free.
    NoUnit,
    /// 3: there is no such task, or no unit at a position that the event looks at: the head for Retire
    /// and Fault, k + 1 for Squash, else k, which for Transfer and Drop must not be 0; or the register
    /// that a Drain names is not in the create mask.
    NoSuch,
    /// 4: the task may not follow the tail, or on an empty queue does not begin at the next address.
    NotATarget,
    /// 5: the unit has stopped.
    Stopped,
    /// 6: this register has no value yet; it is the least such register.
    Waiting(Reg),
    /// 7: the instruction is a store, `out`, `halt` or a load that is not of read-only data, and waits until
    /// the unit is the head.
    NotHead,
    /// 8: the unit, for Retire and Fault the head, has not stopped.
    NotStopped,
    /// 9: the register of a Transfer has arrived, or that of a Drain has been sent.
    AlreadyThere,
    /// 10: this register of a Transfer is not passed on yet, or that of a Drain has no value.
    NotYet(Reg),
    /// 11: the next unit begins where this one stopped.
    NoMismatch,
    /// 12: this register of the head's create mask is not sent yet; it is the least such register.
    Unfinished(Reg),
    /// 13: the next unit begins elsewhere.
    Mismatch,
    /// 14: the exit is not listed.
    NotListed,
    /// 15: the exit is listed.
    IsListed,
    /// 16: the history has its 1,000,000 events.
    Full,
    /// 17: a growth was refused.
    OutOfMemory,
}
