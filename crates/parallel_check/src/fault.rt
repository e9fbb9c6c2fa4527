//! Why a check by several workers is refused.

use std::alloc::AllocError;
use thiserror::Error;

/// Why a check by several workers is refused.
#[derive(Clone, Copy, Debug, PartialEq, Eq, Error)]
pub enum ShareFault {
    /// 1: the number of workers is not 1 to 16.
    #[error("1 Workers")]
    Workers,
    /// 2: memory was refused.
    #[error("2 OutOfMemory")]
    OutOfMemory,
}

impl From<AllocError> for ShareFault {
    ghost use Rattle.std.specs.Prelude.{◌≡◌};
    ghost use Rattle.parallel_check.specs.declared.fault.ShareFault.TheVariants.{OutOfMemory};

    ghost from_gives = { λ _ e. e ≡ OutOfMemory };

    fn from(_error: AllocError) -> ShareFault {
        ShareFault::OutOfMemory
    }
}
