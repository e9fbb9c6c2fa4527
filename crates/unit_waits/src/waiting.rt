//! A unit that does nothing in a step, and what holds it back.

use machine_model::event::Spot;
use mips_instructions::number::Reg;

/// The unit that has to send a register.
#[derive(Clone, Copy, Debug, PartialEq, Eq)]
pub struct Owed {
    /// The number of the unit round the ring.
    pub unit: u32,
    /// The number of its task in the program, from 0.
    pub task: u32,
    /// Whether it has sent the register, which then is on its way from unit to unit.
    pub is_sent: bool,
}

/// What holds a unit back.
#[derive(Clone, Copy, Debug, PartialEq, Eq)]
pub enum Reason {
    /// Its next instruction needs this register, the one with the least number of those that have not arrived.
    NeedsRegister(Reg, Owed),
    /// Its next instruction is one that the head alone executes.
    NeedsHead,
    /// It has stopped, and has to pass on this register, which has not arrived.
    HasToPass(Reg, Owed),
    /// It has stopped and has sent all that its task may produce, and is not the head yet.
    HasFinished,
    /// Nothing holds it back. In a run in steps no unit waits for this reason.
    CouldGoOn,
}

/// A unit at work after the head that does nothing in a step.
#[derive(Clone, Copy, Debug, PartialEq, Eq)]
pub struct Waiting {
    /// The number of the step, from 1.
    pub step: u32,
    /// The number of the unit round the ring, from 0.
    pub unit: u32,
    /// The number of its task in the program, from 0.
    pub task: u32,
    /// The instruction before which it is, or the exit after which it has stopped.
    pub place: Spot,
    /// What holds it back.
    pub reason: Reason,
}
