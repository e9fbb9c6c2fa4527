//! Functions: what calls enter, and where the program starts.

use crate::held::Held;
use mips_instructions::number::RegSet;

/// A call: where it stands, the register in which it leaves the address to come back to, and the function that it is in.
#[derive(Clone, Copy, Debug, PartialEq, Eq)]
pub(crate) struct Call {
    pub(crate) index: u32,
    pub(crate) link: u8,
    pub(crate) from: usize,
}

/// A jump to an address in a register, and what the register holds there.
#[derive(Clone, Copy, Debug, PartialEq, Eq)]
pub(crate) struct End {
    pub(crate) index: u32,
    pub(crate) held: Held,
}

/// A function, as far as it is seen.
#[derive(Debug, Drop)]
pub(crate) struct Function {
    /// Where it begins.
    pub(crate) entry: u32,
    /// The calls of it.
    pub(crate) calls: Vec<Call>,
    /// The registers that hold at each of its ends what they held where it begins; until it is walked, all.
    pub(crate) kept: RegSet,
    /// The jumps to addresses in registers that it reaches.
    pub(crate) ends: Vec<End>,
    /// The tasks that begin inside of it.
    pub(crate) tasks: Vec<u32>,
    /// Whether it is still to be walked, or again.
    pub(crate) is_due: bool,
}
