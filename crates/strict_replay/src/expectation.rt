//! The effects that a script expects of an event.

use machine_model::event::Standing;
use mips_instructions::number::Reg;

/// The expectation that an event is refused, for a reason.
#[derive(Clone, Copy, Debug, PartialEq, Eq)]
pub struct ExpectedRefusal {
    /// The number of the reason, 1 to 17, as `Refused` counts them.
    pub number: u32,
    /// The register that is waited for, if the script names one.
    pub register: Option<Reg>,
}

/// An effect that is expected of an event. Words are unsigned, addresses are in bytes.
#[derive(Clone, Copy, Debug, PartialEq, Eq)]
pub enum Expectation {
    /// It brought this word into this register of the unit that it names: by a write, or from the unit before it.
    Register { register: Reg, word: u32 },
    /// It sent this register with this word from the unit that it names: by a forward bit, a release or a drain.
    Sends { register: Reg, word: u32 },
    /// It loaded this word from this address, or stored it there. The word of a load is what the register got; the word of
    /// a store has the bytes that were stored, and zeros above them.
    Memory { address: u32, word: u32 },
    /// It appended this word to the output.
    Output { word: u32 },
    /// It stopped its unit, whose task left to this address.
    Stops { address: u32 },
    /// It ended the run in this way.
    Ends { standing: Standing },
}
