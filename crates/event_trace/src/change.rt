//! The changes that an event of the machine makes.

ghost use Rattle.std.specs.Prelude.{◌≡◌, ◌++◌, ◌∷◌, [], IfOk, OnOk};
ghost use Rattle.event_trace.specs.declared.change.Change.TheVariants.{AtUnit};

use crate::unit_change::UnitChange;
use machine_model::event::Standing;
use mips_instructions::number::Reg;
use std::alloc::{AllocError, Global};

/// A change that an event made. A unit is known by its position in the queue, 0 for the head, and by the number of its task.
/// Instructions are known by their code index, words are unsigned, and addresses are in bytes.
#[derive(Clone, Copy, Debug, PartialEq, Eq)]
pub enum Change {
    /// A unit changed. What an instruction did comes after the change of the unit that executed it, and the registers that
    /// arrived come after the change of the unit that took its task or became the head.
    AtUnit {
        position: u32,
        task: u32,
        change: UnitChange,
    },
    /// This register, which was not there before, arrived with this word, which is not 0, as the unit took its task or
    /// became the head.
    Took {
        register: Reg,
        word: u32,
    },
    /// The instruction loaded this word from this address; a byte or half is extended by its sign or by zeros.
    Loaded {
        address: u32,
        word: u32,
    },
    /// The instruction stored `size` bytes, 1, 2 or 4, at this address; the word has them, and zeros above them.
    Stored {
        address: u32,
        word: u32,
        size: u32,
    },
    /// The instruction wrote this word to this register.
    Wrote {
        register: Reg,
        word: u32,
    },
    /// The instruction sent this register, which was not sent before, with this word.
    Sent {
        register: Reg,
        word: u32,
    },
    /// The instruction appended this word to the output.
    PutOut {
        word: u32,
    },
    /// The unit continues at the instruction of this code index.
    MovedTo {
        index: u32,
    },
    /// The unit stopped, after an exit of its task that leads to this address.
    StoppedAt {
        address: u32,
    },
    /// The run ended in this way.
    Ended {
        standing: Standing,
    },
}

/// Adds a change. An error says that memory was refused.
pub(crate) fn add(changes: &mut Vec<Change>, change: Change) -> Result<(), AllocError>
    ensures { OnOk result (changes.new.items ≡ changes.old.items ++ change ∷ []) }
{
    // `push` has no proof for a value of a type that holds another enum of the crate.
    changes.extend_from_slice(&[change])?;
    Ok(())
}

/// A change alone. An error says that memory was refused.
pub(crate) fn alone(alloc: Global, change: Change) -> Result<Vec<Change>, AllocError>
    ensures { IfOk result (λ changes. changes.items ≡ change ∷ []) }
{
    let mut changes = Vec::new(alloc);
    add(&mut changes, change)?;
    Ok(changes)
}

/// A change at a unit alone. An error says that memory was refused.
pub(crate) fn at_unit(
    alloc: Global,
    position: u32,
    task: u32,
    change: UnitChange,
) -> Result<Vec<Change>, AllocError>
    ensures { IfOk result (λ changes. changes.items ≡ AtUnit position task change ∷ []) }
{
    alone(
        alloc,
        Change::AtUnit {
            position,
            task,
            change,
        },
    )
}
