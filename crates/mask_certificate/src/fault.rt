//! Why a certificate text is refused.

use std::alloc::{AllocError, AllocFailed};

/// Why a certificate text is refused. Lines are counted from 1.
#[derive(Clone, Copy, Debug, PartialEq, Eq)]
pub enum CertFault {
    /// 1: the text begins with neither `cert 1` nor `cert 2` and an LF.
    Header,
    /// 2: this line has no form that a line may have, or is an entry before the first `task` line.
    Line(usize),
    /// 3: this `task` line names another task than the next one, or there is none left.
    TaskName(usize),
    /// 4: a task has no `task` line.
    MissingTask,
    /// 5: a list does not rise, or has an index of 4,096 or more.
    Shape,
    /// 6: there was no memory; it may come in place of any other answer.
    OutOfMemory,
}

/// How a certificate text spells its masks, as its first line names it.
#[derive(Clone, Copy, Debug, PartialEq, Eq)]
pub enum MaskSpelling {
    /// `cert 1`: 8 hexadecimal digits, for registers 0 to 31.
    Narrow,
    /// `cert 2`: 16 hexadecimal digits, for registers 0 to 33.
    Wide,
}

impl MaskSpelling {
    ghost use Rattle.std.specs.Prelude.{◌≡◌, ◌≤◌};
    ghost use Rattle.mask_certificate.specs.CertificateText.{mask_digits};

    /// The number of hexadecimal digits of a mask: 8 or 16.
    pub fn mask_digits(self) -> usize
        ensures digits { result ≡ mask_digits self }
        ensures few { result ≤ 16 }
    {
        match self {
            MaskSpelling::Narrow => 8,
            MaskSpelling::Wide => 16,
        }
    }
}

impl From<AllocError> for CertFault {
    ghost use Rattle.std.specs.Prelude.{◌≡◌};
    ghost use Rattle.mask_certificate.specs.declared.fault.CertFault.TheVariants.{OutOfMemory};

    ghost from_gives = { λ _ e. e ≡ OutOfMemory };

    fn from(_error: AllocError) -> CertFault {
        CertFault::OutOfMemory
    }
}

impl<T: Drop> From<AllocFailed<T>> for CertFault {
    ghost use Rattle.std.specs.Prelude.{◌≡◌};
    ghost use Rattle.mask_certificate.specs.declared.fault.CertFault.TheVariants.{OutOfMemory};

    ghost from_gives = { λ _ e. e ≡ OutOfMemory };

    fn from(_error: AllocFailed<T>) -> CertFault {
        CertFault::OutOfMemory
    }
}
