//! How far a run has come, what a trap reports, and what an instruction read.

use std::alloc::{AllocError, AllocFailed};
use thiserror::Error;

/// The error of a step for which memory was refused: the output could not grow.
#[derive(Clone, Copy, Debug, PartialEq, Eq, Error)]
#[error("out of memory")]
pub struct OutOfMemory;

impl From<AllocError> for OutOfMemory {
    fn from(_error: AllocError) -> OutOfMemory {
        OutOfMemory
    }
}

impl<T: Drop> From<AllocFailed<T>> for OutOfMemory {
    fn from(_error: AllocFailed<T>) -> OutOfMemory {
        OutOfMemory
    }
}

/// Why an instruction can't be carried out; where several hold, the one with the least number is reported.
#[derive(Clone, Copy, Debug, PartialEq, Eq)]
pub enum Trap {
    /// 1: the address is no multiple of the size.
    Unaligned,
    /// 2: a byte lies neither in data memory nor in read-only data.
    OutOfRange,
    /// 3: no instruction is at the address that was fetched.
    BadPc,
    /// 4: a store in read-only data.
    ReadOnly,
}

/// Whether a run continues or how it ended.
#[derive(Clone, Copy, Debug, PartialEq, Eq)]
pub enum Outcome {
    /// The next instruction can be executed.
    Running,
    /// A `halt` ended the run.
    Halted,
    /// A trap ended the run.
    Trapped(Trap),
}

/// What an executed instruction read: its address and the words of its operands a and b, 0 where it has no such
/// operand.
#[derive(Clone, Copy, Debug, PartialEq, Eq)]
pub struct Read {
    /// The address of the instruction, in bytes.
    pub pc: u32,
    /// The word of operand a.
    pub a: u32,
    /// The word of operand b.
    pub b: u32,
}
