//! Instructions with their marks, and task descriptors (Sohi, Breach, Vijaykumar, ISCA 1995,
//! section 2.2).

use crate::name::Name;
use crate::places::Places;
use mips_instructions::instruction::Op;
use mips_instructions::number::{Place, RegSet};

/// The stop bits of an instruction: whether the task ends after it.
#[derive(Clone, Copy, Debug, PartialEq, Eq)]
pub enum Stop {
    /// The task continues after the instruction.
    None,
    /// `!s`: the task ends after the instruction.
    Always,
    /// `!st`: the task ends if the branch is taken.
    Taken,
    /// `!sn`: the task ends if the branch is not taken.
    NotTaken,
}

/// An instruction with its forward bit and its stop bits.
#[derive(Clone, Copy, Debug, PartialEq, Eq)]
pub struct Marked {
    /// The instruction without marks.
    pub op: Op,
    /// The forward bit: whether the values that the instruction writes go to the later tasks at once.
    pub forward: bool,
    /// The stop bits.
    pub stop: Stop,
}

/// A task descriptor: what the sequencer knows of a task.
#[derive(Debug, Drop)]
pub struct Descriptor {
    /// The task's name; no two tasks of a program share one.
    pub name: Name,
    /// The code index of the task's first instruction.
    pub entry: Place,
    /// The create mask: the registers that the task may produce; in a program never register 0.
    pub create: RegSet,
    /// The code indices of the possible successors' first instructions, in order; one may be listed twice.
    pub targets: Places,
}
