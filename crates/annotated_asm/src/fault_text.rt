//! What is reported about a program text that is refused.

use crate::fault::AsmFault;
use std::error::Error;
use std::fmt;

impl fmt::Display for AsmFault {
    ghost use Rattle.std.specs.Prelude.{Some};
    ghost use Rattle.annotated_asm.specs.FaultText.{asm_fault_text};

    ghost output = { λ fault. Some (asm_fault_text fault) };

    /// The number and the name of the fault, and the line.
    fn fmt<W: fmt::Write>(&self, f: &mut fmt::Formatter<W>) -> fmt::Result {
        match *self {
            AsmFault::TooLong => write!(f, "1 TooLong"),
            AsmFault::NotAscii(line) => write!(f, "2 NotAscii line {line}"),
            AsmFault::Token(line) => write!(f, "3 Token line {line}"),
            AsmFault::Mnemonic(line) => write!(f, "4 Mnemonic line {line}"),
            AsmFault::Operand(line) => write!(f, "5 Operand line {line}"),
            AsmFault::Number(line) => write!(f, "6 Number line {line}"),
            AsmFault::Mark(line) => write!(f, "7 Mark line {line}"),
            AsmFault::Duplicate(line) => write!(f, "8 Duplicate line {line}"),
            AsmFault::Unknown(line) => write!(f, "9 Unknown line {line}"),
            AsmFault::Build(fault) => write!(f, "10 Build {fault}"),
            AsmFault::OutOfMemory => write!(f, "11 OutOfMemory"),
        }
    }
}

impl Error for AsmFault {}
