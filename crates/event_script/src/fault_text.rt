//! What is reported about a script that is refused.

use crate::fault::ScriptFault;
use std::error::Error;
use std::fmt;

impl fmt::Display for ScriptFault {
    ghost use Rattle.std.specs.Prelude.{Some};
    ghost use Rattle.event_script.specs.FaultText.{script_fault_text};

    ghost output = { λ fault. Some (script_fault_text fault) };

    /// The number and the name of the fault, and the line.
    fn fmt<W: fmt::Write>(&self, f: &mut fmt::Formatter<W>) -> fmt::Result {
        match *self {
            ScriptFault::Line(line) => write!(f, "1 Line {line}"),
            ScriptFault::TaskName(line) => write!(f, "2 TaskName {line}"),
            ScriptFault::OutOfMemory => write!(f, "3 OutOfMemory"),
        }
    }
}

impl Error for ScriptFault {}
