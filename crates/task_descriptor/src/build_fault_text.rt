//! The texts of build faults.

use crate::program::BuildFault;
use std::error::Error;
use std::fmt;

impl fmt::Display for BuildFault {
    ghost use Rattle.std.specs.Prelude.{Some};
    ghost use Rattle.task_descriptor.specs.BuildFaultText.{build_fault_text};

    ghost output = { λ fault. Some (build_fault_text fault) };

    /// The number and the name of the fault, and the index of a bad mark.
    fn fmt<W: fmt::Write>(&self, f: &mut fmt::Formatter<W>) -> fmt::Result {
        match *self {
            BuildFault::TooMany => write!(f, "1 TooMany"),
            BuildFault::NoTask => write!(f, "2 NoTask"),
            BuildFault::BadEntry => write!(f, "3 BadEntry"),
            BuildFault::DuplicateEntry => write!(f, "4 DuplicateEntry"),
            BuildFault::BadMask => write!(f, "5 BadMask"),
            BuildFault::BadMark(index) => write!(f, "6 BadMark {index}"),
            BuildFault::BadStart => write!(f, "7 BadStart"),
        }
    }
}

impl Error for BuildFault {}
