//! What a trap reports.

use crate::outcome::Trap;
use std::error::Error;
use std::fmt;

impl fmt::Display for Trap {
    ghost use Rattle.std.specs.Prelude.{Some};
    ghost use Rattle.mips_plain.specs.TrapText.{trap_text};

    ghost output = { λ trap. Some (trap_text trap) };

    /// The number and the name of the trap.
    fn fmt<W: fmt::Write>(&self, f: &mut fmt::Formatter<W>) -> fmt::Result {
        match *self {
            Trap::Unaligned => write!(f, "1 Unaligned"),
            Trap::OutOfRange => write!(f, "2 OutOfRange"),
            Trap::BadPc => write!(f, "3 BadPc"),
            Trap::ReadOnly => write!(f, "4 ReadOnly"),
        }
    }
}

impl Error for Trap {}
