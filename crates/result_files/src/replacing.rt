//! Writing a file whole, or not at all.
ghost use Rattle.std.specs.Prelude.{◌≡◌, ◌≢◌, ℕ, true, List, [], Some, IfOk, OnOk, OnErr};
ghost use Rattle.std.specs.String.{string_bytes};
ghost use Rattle.result_files.specs.Files.{ChangesAt, ChangesOnly, IsNewName, Same};

use crate::folder::Folder;
use crate::unwritten::{Unwritten, unwritten_of};
use std::alloc::Global;
use std::io::Write;

// How many names a new file is tried under. A process that a signal ended may have left its file under one of them.
const MOST_NAMES: u32 = 64;

/// Makes `bytes` the whole contents of the file `name`. They are written to a new file in the same folder,
/// which then takes the name; so nobody sees a part of them under the name itself.
///
/// # Errors
///
/// Those of the folder, `OutOfMemory` where memory was refused, `TooLong` where a file can't have so many
/// bytes, and `InTheWay` where 64 names of the new file are taken. The file `name` is then as it was, and the
/// new one is removed, as far as the folder allows it.
pub fn replace<F: Folder>(
    alloc: Global,
    folder: &mut F,
    name: &str,
    bytes: &[u8],
) -> Result<(), Unwritten>
    ensures ok { OnOk result (F.is_watched ≡ true → F.known folder.new name.now ≡ Some bytes.now) }
    ensures err { OnErr result (F.known folder.new name.now ≡ F.known folder.old name.now) }
    ensures others { ChangesAt (F.known folder.old) (F.known folder.new) name.now }
{
    if bytes.len() as u64 > folder.most_bytes() {
        return Err(Unwritten::TooLong);
    }
    let Made { name: new, file } = make_beside(alloc, folder, name)?;
    match fill(folder, new.as_str(), file, bytes) {
        Ok(()) => take_place(folder, new.as_str(), name),
        Err(reason) => {
            folder.remove(new.as_str());
            Err(reason)
        }
    }
}

// A file that was made, and its name.
#[derive(Drop)]
struct Made<F> {
    name: String,
    file: F,
}

// Makes an empty file that is to take the place of the one of this name, under the first name that is free.
fn make_beside<F: Folder>(
    alloc: Global,
    folder: &mut F,
    place: &str,
) -> Result<Made<F::File>, Unwritten>
    ensures named { IfOk result (λ made. IsNewName place.now (string_bytes made.name)) }
    ensures empty { IfOk result (λ made. F.is_watched ≡ true → F.File.contents made.file ≡ Some []) }
    ensures others { IfOk result (λ made. ChangesOnly (F.known folder.old) (F.known folder.new) (string_bytes made.name)) }
    ensures err { OnErr result (Same (F.known folder.old) (F.known folder.new)) }
{
    let first = folder.number();
    for shift in 0..MOST_NAMES {
        let number = first.wrapping_add(shift);
        let name = format!(in alloc; "{place}.{number}.new")?;
        match folder.create(name.as_str(), place) {
            Ok(file) => return Ok(Made { name, file }),
            Err(Unwritten::InTheWay) => {}
            Err(reason) => return Err(reason),
        }
    }
    Err(Unwritten::InTheWay)
}

// Writes all bytes to the new file, which is empty.
fn fill<F: Folder>(
    folder: &mut F,
    new: &str,
    mut file: F::File,
    bytes: &[u8],
) -> Result<(), Unwritten>
    requires { F.is_watched ≡ true → F.File.contents file ≡ Some [] }
    ensures ok { OnOk result (F.is_watched ≡ true → F.known folder.new new.now ≡ Some bytes.now) }
    ensures others { ChangesOnly (F.known folder.old) (F.known folder.new) new.now }
{
    match file.write_all(bytes) {
        Ok(()) => folder.finish(new, file),
        Err(error) => Err(unwritten_of(error.kind())),
    }
}

// Gives the new file its name, or removes it.
fn take_place<F: Folder>(folder: &mut F, new: &str, name: &str) -> Result<(), Unwritten>
    requires { new.now ≢ name.now }
    ensures ok { OnOk result (F.known folder.new name.now ≡ F.known folder.old new.now) }
    ensures err { OnErr result (F.known folder.new name.now ≡ F.known folder.old name.now) }
    ensures others { (other : List ℕ) → other ≢ name.now → other ≢ new.now
        → F.known folder.new other ≡ F.known folder.old other }
{
    match folder.rename(new, name) {
        Ok(()) => Ok(()),
        Err(reason) => {
            folder.remove(new);
            Err(reason)
        }
    }
}
