//! The reason why a file gives no text.
ghost use Rattle.std.specs.Prelude.{◌≡◌, ◌≢◌};
ghost use Rattle.program_edge.specs.FileTexts.{opening_reason};

use std::io::ErrorKind;
use text_pieces::serial::FetchFault;

/// The reason why a file gives no text, as far as the system reports it.
#[derive(Clone, Copy, Debug, PartialEq, Eq)]
pub enum UnreadReason {
    /// There is no file of this name.
    NoSuchFile,
    /// It is a directory.
    IsDirectory,
    /// The system does not permit reading it.
    NotPermitted,
    /// It is longer than 134,217,728 bytes. A program text that is too long is cut instead, so this holds for
    /// certificates and scripts alone.
    TooLong,
    /// Memory ran out while it was read.
    OutOfMemory,
    /// Any other reason.
    Other,
}

impl UnreadReason {
    /// The reason in words, for a message.
    pub fn words(self) -> &'static str {
        match self {
            UnreadReason::NoSuchFile => "no such file",
            UnreadReason::IsDirectory => "is a directory",
            UnreadReason::NotPermitted => "no permission",
            UnreadReason::TooLong => "longer than 134217728 bytes",
            UnreadReason::OutOfMemory => "out of memory",
            UnreadReason::Other => "cannot be read",
        }
    }
}

/// A file that gives no text, with the reason.
#[derive(Debug, Drop)]
pub struct Unread {
    /// The name of the file, as the command line has it.
    pub path: String,
    /// The reason why it gives no text.
    pub reason: UnreadReason,
}

/// The reason why a file was not opened, for the kind of error that the system reported.
pub fn reason_of_opening(kind: ErrorKind) -> UnreadReason
    ensures { result ≡ opening_reason kind }
{
    match kind {
        ErrorKind::NotFound => UnreadReason::NoSuchFile,
        ErrorKind::IsADirectory => UnreadReason::IsDirectory,
        ErrorKind::PermissionDenied => UnreadReason::NotPermitted,
        ErrorKind::OutOfMemory => UnreadReason::OutOfMemory,
        _ => UnreadReason::Other,
    }
}

/// The reason why an open file was not read. It is never that the file is missing or too long.
pub fn reason_of_reading(fault: FetchFault) -> UnreadReason
    ensures { result ≢ UnreadReason.TooLong }
{
    match fault {
        FetchFault::OutOfMemory => UnreadReason::OutOfMemory,
        FetchFault::Read(kind) => match reason_of_opening(kind) {
            UnreadReason::NoSuchFile => UnreadReason::Other,
            reason => reason,
        },
    }
}
