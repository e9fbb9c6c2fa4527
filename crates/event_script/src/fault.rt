//! Why the text of an event script is refused.

use std::alloc::{AllocError, AllocFailed};
use thiserror::Error;

/// Why the text of an event script is refused. Lines are counted from 1; the first line that spells no
/// event is named.
#[derive(Clone, Copy, Debug, PartialEq, Eq)]
pub enum ScriptFault {
    /// 1: this line has no form that a line may have.
    Line(usize),
    /// 2: this line assigns a task, and no task of the program has that name.
    TaskName(usize),
    /// 3: out of memory; this may come in place of any other answer.
    OutOfMemory,
}

/// Why a line spells no event; where several hold, the first.
#[derive(Clone, Copy, Debug, PartialEq, Eq, Error)]
pub enum EventFault {
    /// No event begins with the line's first word.
    #[error("no event begins with the first word")]
    NoEvent,
    /// The line ends before the event does.
    #[error("a word is missing at the line's end")]
    TooFew,
    /// The line continues after the event, which has this many words.
    #[error("the event has only {0} words")]
    TooMany(usize),
    /// The second word is no position: 1 to 3 decimal digits, counted from the head, which is 0.
    #[error("the second word is no position")]
    NoPosition,
    /// The third word is no register: `$` and a number, 0 to 33.
    #[error("the third word is no register")]
    NoRegister,
    /// The line assigns a task, and its second word can be no task's name.
    #[error("the second word is no name")]
    NoName,
    /// The line assigns a task, and no task of the program has that name.
    #[error("no task has the name that the line assigns")]
    NoTask,
}

impl EventFault {
    ghost use Rattle.std.specs.Prelude.{◌≡◌};
    ghost use Rattle.event_script.specs.EventScript.{fault_at};

    /// The fault of a script whose line `line`, counted from 1, has this fault.
    pub fn at(self, line: usize) -> ScriptFault
        ensures { result ≡ fault_at line self }
    {
        match self {
            EventFault::NoTask => ScriptFault::TaskName(line),
            _ => ScriptFault::Line(line),
        }
    }
}

impl From<AllocError> for ScriptFault {
    ghost use Rattle.std.specs.Prelude.{◌≡◌};
    ghost use Rattle.event_script.specs.declared.fault.ScriptFault.TheVariants.{OutOfMemory};

    ghost from_gives = { λ _ e. e ≡ OutOfMemory };

    fn from(_error: AllocError) -> ScriptFault {
        ScriptFault::OutOfMemory
    }
}

impl<T: Drop> From<AllocFailed<T>> for ScriptFault {
    ghost use Rattle.std.specs.Prelude.{◌≡◌};
    ghost use Rattle.event_script.specs.declared.fault.ScriptFault.TheVariants.{OutOfMemory};

    ghost from_gives = { λ _ e. e ≡ OutOfMemory };

    fn from(_error: AllocFailed<T>) -> ScriptFault {
        ScriptFault::OutOfMemory
    }
}
