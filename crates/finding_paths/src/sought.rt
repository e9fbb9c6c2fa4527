//! What a path is to reach.

use mips_instructions::number::Reg;

/// The instruction that a path is to reach.
#[derive(Clone, Copy, Debug, PartialEq, Eq)]
pub enum Sought {
    /// The instruction at this code index.
    At(u32),
    /// An instruction that writes this register.
    Writes(Reg),
}
