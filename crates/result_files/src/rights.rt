//! What a new file takes over from the one whose place it is to take.
ghost use Rattle.std.specs.Prelude.{◌≡◌};
ghost use Rattle.std.specs.Fs.{metadata_mode, permissions_mode};
ghost use Rattle.result_files.specs.Rights.{permission_bits};

use std::fs::{Metadata, Permissions};
use std::os::unix::fs::{MetadataExt, PermissionsExt};

/// Who may read, write and run the file; nothing else of its mode. So a program that runs as its owner is not made anew
/// with other bytes.
pub(crate) fn rights_of(old: &Metadata) -> Permissions
    ensures { permissions_mode result ≡ permission_bits (metadata_mode old.now) }
{
    Permissions::from_mode(old.mode() & 0o777)
}

/// Whether two files have one owner and one group.
pub(crate) fn has_owner_of(new: &Metadata, old: &Metadata) -> bool {
    new.uid() == old.uid() && new.gid() == old.gid()
}
