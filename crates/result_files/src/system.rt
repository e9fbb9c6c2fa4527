//! The files of the operating system.
ghost use Rattle.std.specs.Prelude.{None, false};

use crate::folder::Folder;
use crate::rights::{has_owner_of, rights_of};
use crate::size_limit::file_size_limit;
use crate::unwritten::{Unwritten, unwritten_of};
use std::alloc::Global;
use std::fs::{Metadata, OpenFile, OpenOptions, Permissions};
use std::io::{ErrorKind, Write};
use std::os::fd::AsFd;
use std::os::unix::fs::{MetadataExt, OpenOptionsExt, fchown};
use std::rt::Files;
use std::{fs, io};

/// The files of the operating system; contracts know nothing of what they hold.
#[derive(Drop)]
pub struct SystemFolder<'a, R> {
    rt: &'a R,
    alloc: Global,
    number: u32,
}

impl<'a, R> SystemFolder<'a, R> {
    /// The files that the runtime `rt` reaches, for the process of this number.
    pub fn new(rt: &'a R, alloc: Global, number: u32) -> SystemFolder<'a, R> {
        SystemFolder { rt, alloc, number }
    }
}

/// A file of the operating system that is being written; contracts know nothing of what it holds.
#[derive(Drop)]
pub struct NewFile<F> {
    file: F,
    // The rights that it gets when it is whole; `None` where it has them.
    rights: Option<Permissions>,
}

impl<F: Write> Write for NewFile<F> {
    fn write(&mut self, buffer: &[u8]) -> io::Result<usize> {
        self.file.write(buffer)
    }

    fn flush(&mut self) -> io::Result<()> {
        self.file.flush()
    }
}

impl<R: Files> Folder for SystemFolder<'_, R>
where
    R::File: AsFd,
{
    type File = NewFile<R::File>;

    ghost is_watched = { false };

    ghost known = { λ _ _. None };

    fn number(&self) -> u32 {
        self.number
    }

    fn most_bytes(&self) -> u64 {
        file_size_limit(self.rt, self.alloc)
    }

    fn create(&mut self, name: &str, place: &str) -> Result<NewFile<R::File>, Unwritten> {
        let Some(old) = self.old_of(place)? else {
            let file = self.make(name, 0o666)?;
            return Ok(NewFile { file, rights: None });
        };
        let file = self.make(name, 0o600)?;
        if let Err(reason) = take_owner(&file, &old) {
            self.remove(name);
            return Err(reason);
        }
        let rights = Some(rights_of(&old));
        Ok(NewFile { file, rights })
    }

    fn finish(&mut self, _name: &str, file: NewFile<R::File>) -> Result<(), Unwritten> {
        let NewFile { file, rights } = file;
        file.sync_all()?;
        if let Some(rights) = rights {
            file.set_permissions(rights)?;
        }
        Ok(())
    }

    fn rename(&mut self, from: &str, to: &str) -> Result<(), Unwritten> {
        Ok(fs::rename(self.rt, from, to)?)
    }

    fn remove(&mut self, name: &str) {
        let _ = fs::remove_file(self.rt, name);
    }
}

impl<R: Files> SystemFolder<'_, R> {
    // What the system says of the file of this name; `None` where there is none.
    fn old_of(&self, name: &str) -> Result<Option<Metadata>, Unwritten> {
        match fs::symlink_metadata(self.rt, name) {
            Ok(old) if old.is_file() => Ok(Some(old)),
            Ok(old) if old.is_symlink() => Err(self.link_fault(name)),
            Ok(_) => Err(Unwritten::NoPlainFile),
            Err(error) if error.kind() == ErrorKind::NotFound => Ok(None),
            Err(error) => Err(error.into()),
        }
    }

    // Why a link takes no result: it says which file it leads to, if it leads to one.
    fn link_fault(&self, name: &str) -> Unwritten {
        match fs::metadata(self.rt, name) {
            Ok(file) if file.is_file() => {}
            _ => return Unwritten::NoPlainFile,
        }
        match self.rt.canonicalize(self.alloc, name) {
            Ok(path) => Unwritten::Link(path.into_string()),
            Err(error) => unwritten_of(error.kind()),
        }
    }

    // Makes a file of this name, where there is none; the system narrows its mode.
    fn make(&self, name: &str, mode: u32) -> Result<R::File, Unwritten> {
        let mut options = OpenOptions::new();
        options.write(true).create_new(true).mode(mode);
        Ok(options.open(self.rt, name)?)
    }
}

// Gives a new file the owner and the group of the old one, if it has others.
fn take_owner<F: OpenFile + AsFd>(new: &F, old: &Metadata) -> Result<(), Unwritten> {
    let own = new.metadata()?;
    if has_owner_of(&own, old) {
        return Ok(());
    }
    match fchown(new, Some(old.uid()), Some(old.gid())) {
        Ok(()) => Ok(()),
        Err(error) if error.kind() == ErrorKind::PermissionDenied => Err(Unwritten::Owner),
        Err(error) => Err(error.into()),
    }
}
