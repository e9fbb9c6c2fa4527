//! Why no text is written.

ghost use Rattle.std.specs.Prelude.{◌≡◌};
ghost use Rattle.canonical_text.specs.declared.fault.MarksFault.TheVariants.{OutOfMemory};

use std::alloc::AllocError;
use std::error::Error;
use std::fmt;

/// Why no text with other marks is written.
#[derive(Clone, Copy, Debug, PartialEq, Eq)]
pub enum MarksFault {
    /// 1: the text with these marks has more than 4,194,304 bytes.
    TooLong,
    /// 2: the text with these marks is not the program's.
    Differs,
    /// 3: out of memory; this may come in place of any other answer.
    OutOfMemory,
}

impl From<AllocError> for MarksFault {
    ghost from_gives = { λ _ e. e ≡ OutOfMemory };

    fn from(_e: AllocError) -> MarksFault {
        MarksFault::OutOfMemory
    }
}

impl fmt::Display for MarksFault {
    ghost use Rattle.std.specs.Prelude.{Some};
    ghost use Rattle.canonical_text.specs.FaultText.{marks_fault_text};

    ghost output = { λ fault. Some (marks_fault_text fault) };

    /// The number and the name of the fault.
    fn fmt<W: fmt::Write>(&self, f: &mut fmt::Formatter<W>) -> fmt::Result {
        match *self {
            MarksFault::TooLong => write!(f, "1 TooLong"),
            MarksFault::Differs => write!(f, "2 Differs"),
            MarksFault::OutOfMemory => write!(f, "3 OutOfMemory"),
        }
    }
}

impl Error for MarksFault {}
