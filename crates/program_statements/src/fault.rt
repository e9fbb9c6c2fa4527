//! What is wrong with the statement of a line.

ghost use Rattle.std.specs.Prelude.{◌≡◌};
ghost use Rattle.program_statements.specs.declared.fault.StatementError.TheVariants.{OutOfMemory};

use std::alloc::{AllocError, AllocFailed};
use thiserror::Error;

/// What is wrong with the statement of a line, judged by itself and its section. The numbers are the program
/// text's: a byte that no text has (2) and bytes that are no token (3) come before.
#[derive(Clone, Copy, Debug, PartialEq, Eq, Error)]
pub enum StatementFault {
    /// 4: the section has no such statement.
    #[error("4 Mnemonic")]
    Mnemonic,
    /// 5: the operands are not of the statement's number and kinds.
    #[error("5 Operand")]
    Operand,
    /// 6: a number is out of its range.
    #[error("6 Number")]
    Number,
    /// 7: a mark is unknown, repeated, or on a directive.
    #[error("7 Mark")]
    Mark,
}

/// Why a line's tokens give no statement.
#[derive(Debug, Drop, Error)]
pub enum StatementError {
    /// They spell none.
    #[error(transparent)]
    Fault(StatementFault),
    /// Memory for the statement was refused.
    #[error("out of memory")]
    OutOfMemory,
}

impl From<AllocError> for StatementError {
    ghost from_gives = { λ _ e. e ≡ OutOfMemory };

    fn from(_e: AllocError) -> StatementError {
        StatementError::OutOfMemory
    }
}

impl<T: Drop> From<AllocFailed<T>> for StatementError {
    ghost from_gives = { λ _ e. e ≡ OutOfMemory };

    fn from(_e: AllocFailed<T>) -> StatementError {
        StatementError::OutOfMemory
    }
}
