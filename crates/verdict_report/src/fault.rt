//! The reason why a job was not done.

use std::alloc::AllocError;
use thiserror::Error;

/// The reason why a job was not done.
#[derive(Clone, Copy, Debug, PartialEq, Eq, Error)]
pub enum ServeFault {
    /// 1: memory ran out, or a thread of `run` could not be made; nothing was written.
    #[error("1 OutOfMemory")]
    OutOfMemory,
    /// 2: the writer failed; what was written is a prefix of the job's text.
    #[error("2 Write")]
    Write,
    /// 3: the threads of `run` returned another machine; nothing was written. No job answers this.
    #[error("3 Foreign")]
    Foreign,
    /// 4: memory ran out while a text was written that is made on the way; what was written is a beginning of the
    /// job's text.
    #[error("4 PartWritten")]
    PartWritten,
}

impl ServeFault {
    ghost use Rattle.std.specs.Prelude.{◌≡◌};
    ghost use Rattle.verdict_report.specs.FaultText.{serve_fault_text};

    /// The number and the name of the fault, as its `Display` writes them.
    pub fn name(self) -> &'static str
        ensures { result.now ≡ serve_fault_text self }
    {
        match self {
            ServeFault::OutOfMemory => "1 OutOfMemory",
            ServeFault::Write => "2 Write",
            ServeFault::Foreign => "3 Foreign",
            ServeFault::PartWritten => "4 PartWritten",
        }
    }
}

impl From<AllocError> for ServeFault {
    ghost use Rattle.std.specs.Prelude.{◌≡◌};
    ghost use Rattle.verdict_report.specs.declared.fault.ServeFault.TheVariants.{OutOfMemory};

    ghost from_gives = { λ _ e. e ≡ OutOfMemory };

    fn from(_error: AllocError) -> ServeFault {
        ServeFault::OutOfMemory
    }
}
