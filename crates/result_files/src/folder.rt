//! Files that can be made and renamed.
ghost use Rattle.std.specs.Prelude.{◌≡◌, ◌≢◌, ℕ, Bool, true, List, [], Option, Some, IfOk, OnOk, OnErr};
ghost use Rattle.result_files.specs.Files.{ChangesOnly, Same};

use crate::unwritten::Unwritten;
use std::io::Write;

/// Files that can be made, renamed and removed by their names. What is known of them assumes that two names are
/// two files.
pub trait Folder {
    /// A file that is being written.
    type File: Write + Drop;

    // Whether what the files hold is known.
    ghost is_watched: { Bool };

    // What the file of a name holds, where that is known.
    ghost known: { Self → List ℕ → Option (List ℕ) };

    /// The process's number, which no other process has at the time; it goes into the names of the files that
    /// this process makes.
    fn number(&self) -> u32;

    /// The most bytes that a file may have. Writing more ends the process, or fails.
    fn most_bytes(&self) -> u64;

    /// Makes an empty file `name` that is to take the place of the file `place`. Where `place` exists, the new
    /// file has its owner and group from the start, and is for this process alone until it is finished.
    ///
    /// # Errors
    ///
    /// What the system reports; `InTheWay` where there is a file `name`, `Link` and `NoPlainFile` where `place`
    /// is something other than a file, `Owner` where the new file can't have its owner and group. Everything is
    /// then as it was.
    fn create(&mut self, name: &str, place: &str) -> Result<Self::File, Unwritten>
        ensures empty { IfOk result (λ file. is_watched ≡ true → Self.File.contents file ≡ Some []) }
        ensures others { ChangesOnly (known self.old) (known self.new) name.now }
        ensures err { OnErr result (Same (known self.old) (known self.new)) };

    /// Ends the writing of the file that was made as `name`: what was written is on the disk, and those who may
    /// read, write and run the file whose place it is to take may do so with this one.
    ///
    /// # Errors
    ///
    /// What the system reports; the other files are as they were.
    fn finish(&mut self, name: &str, file: Self::File) -> Result<(), Unwritten>
        ensures kept { OnOk result (known self.new name.now ≡ Self.File.contents file) }
        ensures others { ChangesOnly (known self.old) (known self.new) name.now };

    /// Renames the file `from` to `to`, where it replaces what `to` was; `from` then no longer exists.
    ///
    /// # Errors
    ///
    /// What the system reports; everything is then as it was.
    fn rename(&mut self, from: &str, to: &str) -> Result<(), Unwritten>
        ensures ok { OnOk result (known self.new to.now ≡ known self.old from.now) }
        ensures others { OnOk result ((name : List ℕ) → name ≢ from.now → name ≢ to.now
            → known self.new name ≡ known self.old name) }
        ensures err { OnErr result (Same (known self.old) (known self.new)) };

    /// Removes a file, as far as the system allows it; the other files stay as they are.
    fn remove(&mut self, name: &str)
        ensures others { ChangesOnly (known self.old) (known self.new) name.now };
}
