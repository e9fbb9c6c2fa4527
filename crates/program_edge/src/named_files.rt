//! Files by their names.
ghost use Rattle.std.specs.Prelude.{List, ℕ, None};
ghost use Rattle.program_edge.specs.FileTexts.{Known, Unknown, OpensAs, IsUnreadOpen};

use crate::asked::STANDARD_INPUT;
use crate::unread::{UnreadReason, reason_of_reading};
use std::fs::OpenFile;
use std::io::{ErrorKind, Input, Read};
use std::marker::Sync;
use std::os::unix::fs::FileExt;
use std::rt::Files;
use std::{fs, io};
use text_pieces::positioned::PositionedFile;
use text_pieces::serial::FetchFault;

/// The files that a program can open by their names.
pub trait NamedFiles {
    /// An open file.
    type File: PositionedFile + Drop;

    // What is known of the file of a name.
    ghost known: { Self → List ℕ → Known };

    /// Opens the file of this name for reading.
    ///
    /// # Errors
    ///
    /// What the system reports; `NotFound` only where there is no file of this name. A file of known bytes is
    /// refused only for want of memory.
    fn open(&self, name: &str) -> io::Result<Self::File>
        ensures opened { OpensAs Self.File.remaining (known self.now name.now) result }
        ensures positioned { OpensAs Self.File.bytes (known self.now name.now) result };

    /// Why the open file of this name was not read, for the fault that reading it had. A file of known bytes
    /// is read unless memory runs out.
    fn why_unread(&self, name: &str, fault: FetchFault) -> UnreadReason
        ensures { IsUnreadOpen (known self.now name.now) result };
}

/// The files of the system, of whose contents nothing is assumed; `-` is standard input.
#[derive(Drop)]
pub struct SystemFiles<'a, R> {
    rt: &'a R,
}

impl<'a, R> SystemFiles<'a, R> {
    /// The files that a runtime reaches.
    pub fn new(rt: &'a R) -> SystemFiles<'a, R> {
        SystemFiles { rt }
    }
}

/// An open file of the system.
#[derive(Drop)]
pub enum SystemFile<F, I> {
    /// A file that was opened by its path.
    Path(F),
    /// Standard input. It has no size and no positioned reads, so one thread reads it from its beginning.
    Input(I),
}

impl<F: Read, I: Read> Read for SystemFile<F, I> {
    fn read(&mut self, buffer: &mut [u8]) -> io::Result<usize> {
        match self {
            SystemFile::Path(file) => file.read(buffer),
            SystemFile::Input(input) => input.read(buffer),
        }
    }
}

impl<F: Read + FileExt + OpenFile + Sync, I: Read + Sync> PositionedFile for SystemFile<F, I> {
    ghost bytes = { λ _. None };

    fn size_hint(&self) -> Option<u64> {
        let SystemFile::Path(file) = self else {
            return None;
        };
        // What the system says of any other file is no size.
        let metadata = file.metadata().ok()?;
        metadata.is_file().then_some(metadata.len())
    }

    fn read_at(&self, buffer: &mut [u8], offset: u64) -> io::Result<usize> {
        match self {
            SystemFile::Path(file) => file.read_at(buffer, offset),
            SystemFile::Input(_) => Err(io::Error::from(ErrorKind::NotSeekable)),
        }
    }
}

impl<R: Files + Input> NamedFiles for SystemFiles<'_, R>
where
    R::File: FileExt + Sync,
    R::Reader: Sync,
{
    type File = SystemFile<R::File, R::Reader>;

    ghost known = { λ _ _. Unknown };

    fn open(&self, name: &str) -> io::Result<SystemFile<R::File, R::Reader>> {
        if name == STANDARD_INPUT {
            return Ok(SystemFile::Input(self.rt.reader()));
        }
        let file = fs::open(self.rt, name)?;
        Ok(SystemFile::Path(file))
    }

    fn why_unread(&self, _name: &str, fault: FetchFault) -> UnreadReason {
        reason_of_reading(fault)
    }
}

/// The files of this process.
impl NamedFiles for HostRuntime {
    type File = SystemFile<<HostRuntime as Files>::File, <HostRuntime as Input>::Reader>;

    ghost known = { λ _ _. Unknown };

    fn open(&self, name: &str) -> io::Result<Self::File> {
        SystemFiles::new(self).open(name)
    }

    fn why_unread(&self, name: &str, fault: FetchFault) -> UnreadReason {
        SystemFiles::new(self).why_unread(name, fault)
    }
}
