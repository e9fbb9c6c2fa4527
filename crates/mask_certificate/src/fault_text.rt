//! What is reported for a certificate text that is refused.

use crate::fault::CertFault;
use std::error::Error;
use std::fmt;

impl fmt::Display for CertFault {
    ghost use Rattle.std.specs.Prelude.{Some};
    ghost use Rattle.mask_certificate.specs.FaultText.{cert_fault_text};

    ghost output = { λ fault. Some (cert_fault_text fault) };

    /// The number and the name of the fault, and the line.
    fn fmt<W: fmt::Write>(&self, f: &mut fmt::Formatter<W>) -> fmt::Result {
        match *self {
            CertFault::Header => write!(f, "1 Header"),
            CertFault::Line(line) => write!(f, "2 Line {line}"),
            CertFault::TaskName(line) => write!(f, "3 TaskName {line}"),
            CertFault::MissingTask => write!(f, "4 MissingTask"),
            CertFault::Shape => write!(f, "5 Shape"),
            CertFault::OutOfMemory => write!(f, "6 OutOfMemory"),
        }
    }
}

impl Error for CertFault {}
