//! Why a unit does not execute, or does not send.

use mips_instructions::number::Reg;
use mips_plain::outcome::OutOfMemory;
use std::alloc::AllocError;
use thiserror::Error;

/// Why a unit does not execute its next instruction; where several hold, the one with the least number. Nothing
/// is changed.
#[derive(Clone, Copy, Debug, PartialEq, Eq, Error)]
pub enum Wait {
    /// 1: it has stopped.
    #[error("1 Stopped")]
    Stopped,
    /// 2: this register is reserved: the least without a value of those that the instruction needs.
    #[error("2 Waiting ${}", .0.get())]
    Waiting(Reg),
    /// 3: the instruction waits until the unit is the head: it is `out`, `halt` or a memory operation other
    /// than a load of read-only data.
    #[error("3 NotHead")]
    NotHead,
    /// 4: memory was refused for the log or the output.
    #[error("4 OutOfMemory")]
    OutOfMemory,
}

impl From<AllocError> for Wait {
    ghost use Rattle.std.specs.Prelude.{◌≡◌};
    ghost use Rattle.unit_core.specs.declared.wait.Wait.TheVariants as wait;

    ghost from_gives = { λ e w. w ≡ wait.OutOfMemory };

    fn from(_error: AllocError) -> Wait {
        Wait::OutOfMemory
    }
}

impl From<OutOfMemory> for Wait {
    ghost use Rattle.std.specs.Prelude.{◌≡◌};
    ghost use Rattle.unit_core.specs.declared.wait.Wait.TheVariants as wait;

    ghost from_gives = { λ e w. w ≡ wait.OutOfMemory };

    fn from(_error: OutOfMemory) -> Wait {
        Wait::OutOfMemory
    }
}

/// Why a unit does not send a register after its stop; where several hold, the one with the least number.
/// Nothing is changed.
#[derive(Clone, Copy, Debug, PartialEq, Eq, Error)]
pub enum DrainFault {
    /// 1: the register is not in the create mask of the unit's task.
    #[error("1 NotInCreate")]
    NotInCreate,
    /// 2: the unit has not stopped.
    #[error("2 NotStopped")]
    NotStopped,
    /// 3: the register has been sent.
    #[error("3 AlreadySent")]
    AlreadySent,
    /// 4: the register has no value.
    #[error("4 NoValue")]
    NoValue,
}
