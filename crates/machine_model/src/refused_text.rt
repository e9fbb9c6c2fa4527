//! What is reported of an event that is refused.

use crate::event::Refused;
use std::error::Error;
use std::fmt;

impl Refused {
    ghost use Rattle.std.specs.Prelude.{◌≡◌};
    ghost use Rattle.machine_model.specs.RefusedText.{number_and_name};

    /// The number, 1..=17, and the name of the refusal.
    pub fn number_and_name(&self) -> (u8, &'static str)
        ensures number { result.0 ≡ (number_and_name self.now).0 }
        ensures name { result.1.now ≡ (number_and_name self.now).1 }
    {
        match self {
            Refused::Ended => (1, "Ended"),
            Refused::NoUnit => (2, "NoUnit"),
            Refused::NoSuch => (3, "NoSuch"),
            Refused::NotATarget => (4, "NotATarget"),
            Refused::Stopped => (5, "Stopped"),
            Refused::Waiting(_) => (6, "Waiting"),
            Refused::NotHead => (7, "NotHead"),
            Refused::NotStopped => (8, "NotStopped"),
            Refused::AlreadyThere => (9, "AlreadyThere"),
            Refused::NotYet(_) => (10, "NotYet"),
            Refused::NoMismatch => (11, "NoMismatch"),
            Refused::Unfinished(_) => (12, "Unfinished"),
            Refused::Mismatch => (13, "Mismatch"),
            Refused::NotListed => (14, "NotListed"),
            Refused::IsListed => (15, "IsListed"),
            Refused::Full => (16, "Full"),
            Refused::OutOfMemory => (17, "OutOfMemory"),
        }
    }
}

impl fmt::Display for Refused {
    ghost use Rattle.std.specs.Prelude.{Some};
    ghost use Rattle.machine_model.specs.RefusedText.{refusal_text};

    ghost output = { λ refused. Some (refusal_text refused) };

    /// The number and the name of the refusal, and the register that is waited for.
    fn fmt<W: fmt::Write>(&self, f: &mut fmt::Formatter<W>) -> fmt::Result {
        let (number, name) = self.number_and_name();
        match *self {
            Refused::Waiting(register)
            | Refused::NotYet(register)
            | Refused::Unfinished(register) => {
                let register = register.get();
                write!(f, "{number} {name} ${register}")
            }
            _ => write!(f, "{number} {name}"),
        }
    }
}

impl Error for Refused {}
