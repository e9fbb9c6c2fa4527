//! What is wrong with a program text.

ghost use Rattle.std.specs.Prelude.{◌≡◌};
ghost use Rattle.annotated_asm.specs.declared.fault.AsmFault.TheVariants.{OutOfMemory};

use std::alloc::{AllocError, AllocFailed};
use task_descriptor::program::BuildFault;

/// What is wrong with a program text; lines are counted from 1. After 1, the first line with a fault of 2
/// to 7 is reported, by its lowest number; then the first line of 8, then of 9, then 10. Lack of memory
/// may be reported at any point in place of a later fault.
#[derive(Clone, Copy, Debug, PartialEq, Eq)]
pub enum AsmFault {
    /// 1: more than 4,194,304 bytes.
    TooLong,
    /// 2: the line has a byte that no text may have.
    NotAscii(u32),
    /// 3: the line has bytes that are no token.
    Token(u32),
    /// 4: the line's statement is not one that its section allows.
    Mnemonic(u32),
    /// 5: the operands do not fit the statement in number or kind.
    Operand(u32),
    /// 6: a number is out of its range.
    Number(u32),
    /// 7: a mark is unknown, repeated, or on a directive.
    Mark(u32),
    /// 8: the line has a label, or a `.task` of one name, a second time, or a second `.start`.
    Duplicate(u32),
    /// 9: the line uses a name that is no label of the wanted kind.
    Unknown(u32),
    /// 10: the parts make no program.
    Build(BuildFault),
    /// 11: out of memory.
    OutOfMemory,
}

impl From<AllocError> for AsmFault {
    ghost from_gives = { λ _ e. e ≡ OutOfMemory };

    fn from(_e: AllocError) -> AsmFault {
        AsmFault::OutOfMemory
    }
}

impl<T: Drop> From<AllocFailed<T>> for AsmFault {
    ghost from_gives = { λ _ e. e ≡ OutOfMemory };

    fn from(_e: AllocFailed<T>) -> AsmFault {
        AsmFault::OutOfMemory
    }
}
