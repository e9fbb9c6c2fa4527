//! Why a file is not written.
ghost use Rattle.std.specs.Prelude.{◌≡◌};
ghost use Rattle.std.specs.IoError.{error_kind};
ghost use Rattle.result_files.specs.Refusals.{unwritten_of};

use std::alloc::AllocError;
use std::io;
use std::io::ErrorKind;
use thiserror::Error;

/// Why a file is not written, as far as the system reports it.
#[derive(Debug, Drop, Error)]
pub enum Unwritten {
    /// The folder that the file is to go into does not exist.
    #[error("no such folder")]
    NoSuchFolder,
    /// The name belongs to a link to the file of this path.
    #[error("is a link")]
    Link(String),
    /// The name belongs to something other than a file: a folder, a link to no file, a device or a pipe.
    #[error("is no plain file")]
    NoPlainFile,
    /// The system does not permit writing it, or making a file in its folder.
    #[error("no permission to write")]
    NotPermitted,
    /// It belongs to another, whom the process can't give the new file.
    #[error("its owner and group cannot be kept")]
    Owner,
    /// Each name is taken that the new file may have until it is whole.
    #[error("the new file's name is taken")]
    InTheWay,
    /// The limit on the size of files is lower than its new size.
    #[error("longer than the limit on the size of files (ulimit -f)")]
    TooLong,
    /// The disk is full.
    #[error("no space left")]
    Full,
    /// Memory was refused.
    #[error("out of memory")]
    OutOfMemory,
    /// Any other reason.
    #[error("cannot be written")]
    Other,
}

impl Unwritten {
    ghost use Rattle.std.specs.Prelude.{◌≡◌};
    ghost use Rattle.result_files.specs.Refusals.{unwritten_words};

    /// The reason in words, without the path of a link's file.
    pub fn words(&self) -> &'static str
        ensures { result.now ≡ unwritten_words self.now }
    {
        match self {
            Unwritten::NoSuchFolder => "no such folder",
            Unwritten::Link(_) => "is a link",
            Unwritten::NoPlainFile => "is no plain file",
            Unwritten::NotPermitted => "no permission to write",
            Unwritten::Owner => "its owner and group cannot be kept",
            Unwritten::InTheWay => "the new file's name is taken",
            Unwritten::TooLong => "longer than the limit on the size of files (ulimit -f)",
            Unwritten::Full => "no space left",
            Unwritten::OutOfMemory => "out of memory",
            Unwritten::Other => "cannot be written",
        }
    }
}

impl From<AllocError> for Unwritten {
    ghost use Rattle.std.specs.Prelude.{◌≡◌};
    ghost use Rattle.result_files.specs.declared.unwritten.Unwritten.TheVariants.{OutOfMemory};

    ghost from_gives = { λ _ e. e ≡ OutOfMemory };

    fn from(_error: AllocError) -> Unwritten {
        Unwritten::OutOfMemory
    }
}

impl From<io::Error> for Unwritten {
    ghost use Rattle.std.specs.Prelude.{◌≡◌};
    ghost use Rattle.std.specs.IoError.{error_kind};
    ghost use Rattle.result_files.specs.Refusals.{unwritten_of};

    ghost from_gives = { λ error e. e ≡ unwritten_of (error_kind error) };

    fn from(error: io::Error) -> Unwritten {
        unwritten_of(error.kind())
    }
}

/// The reason why a file is not written, for the kind of error that the system reported.
pub fn unwritten_of(kind: ErrorKind) -> Unwritten
    ensures { result ≡ unwritten_of kind }
{
    match kind {
        ErrorKind::NotFound => Unwritten::NoSuchFolder,
        ErrorKind::NotADirectory => Unwritten::NoSuchFolder,
        ErrorKind::IsADirectory => Unwritten::NoPlainFile,
        ErrorKind::PermissionDenied => Unwritten::NotPermitted,
        ErrorKind::ReadOnlyFilesystem => Unwritten::NotPermitted,
        ErrorKind::AlreadyExists => Unwritten::InTheWay,
        ErrorKind::FileTooLarge => Unwritten::TooLong,
        ErrorKind::StorageFull => Unwritten::Full,
        ErrorKind::OutOfMemory => Unwritten::OutOfMemory,
        _ => Unwritten::Other,
    }
}
