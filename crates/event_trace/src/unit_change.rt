//! The change that an event of the machine makes at one unit.

use mips_instructions::number::Reg;

/// The change that an event made at one unit. Instructions are known by their code index.
#[derive(Clone, Copy, Debug, PartialEq, Eq)]
pub enum UnitChange {
    /// It took its task, whose entry is the instruction of this code index.
    Began { index: u32 },
    /// It executed the instruction of this code index.
    Executed { index: u32 },
    /// It took this register, with this word, from the unit before it on the ring.
    Arrived { register: Reg, word: u32 },
    /// It had stopped, and sent this register of its create mask, with this word.
    Drained { register: Reg, word: u32 },
    /// It lost its task, which a wrong prediction had placed there.
    Squashed,
    /// It gave its task up.
    Dropped,
    /// Its task retired; the next task begins at this address.
    Retired { exit: u32 },
    /// It became the head, as the unit before it retired.
    BecameHead,
}
