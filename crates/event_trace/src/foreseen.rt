//! What is foreseen of an event.

use crate::change::Change;
use mips_instructions::instruction::Op;
use mips_instructions::number::{Reg, RegSet};

/// What is foreseen of an event, by the machine before it: what the event changes, or where the machine after
/// it shows that. Positions count from the head of the queue, the head being 0.
#[derive(Drop)]
pub(crate) enum Foreseen {
    /// A unit begins at this position, which is free.
    Begins(u32),
    /// A unit executes an instruction.
    Executes(Execution),
    /// The unit at this position takes this register.
    Takes(u32, Reg),
    /// The unit at this position, which has stopped, sends this register.
    Sends(u32, Reg),
    /// The head retires, as these changes say, and the next unit becomes the head, at which these registers have
    /// arrived.
    Retires(Vec<Change>, RegSet),
    /// These changes: the machine before the event shows all of them, as it has the units that go.
    Known(Vec<Change>),
    /// The run ends.
    Ends,
}

/// An instruction before which a unit stands, with what the unit has before it executes the instruction.
#[derive(Clone, Copy)]
pub(crate) struct Execution {
    /// The position of the unit.
    pub position: u32,
    /// The number of its task.
    pub task: u32,
    /// The index of the instruction.
    pub index: u32,
    /// The instruction.
    pub op: Op,
    /// The operand a, 0 where there is none.
    pub a: u32,
    /// The operand b, 0 where there is none.
    pub b: u32,
    /// The registers that the unit has sent.
    pub sent: RegSet,
}
