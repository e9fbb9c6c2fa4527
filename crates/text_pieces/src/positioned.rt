//! Files with positioned reads: from any offset on.
ghost use Rattle.std.specs.Prelude.{◌≡◌, ℕ, List, Option, Some, IfOk};
ghost use Rattle.std.specs.Io.{ReadsAtMost};
ghost use Rattle.text_pieces.specs.PositionedReads.{ReadsAt};

use std::io;
use std::io::Read;
use std::marker::Sync;

/// A file whose parts several threads can read at the same time, each from an offset in bytes.
pub trait PositionedFile: Read + Sync {
    // The bytes of the file, where they are known.
    ghost bytes: { Self → Option (List ℕ) };

    /// The number of bytes, as far as the system tells: a hint, on which no result depends. `None` where the
    /// file has no positioned reads, such as a pipe or a device.
    fn size_hint(&self) -> Option<u64>;

    /// Reads from byte `offset` on into `buffer` and returns how many bytes that was: 0 at the end. The
    /// position of `Read` does not move.
    ///
    /// # Errors
    ///
    /// Those of `Read::read`; also where the file has no positioned reads.
    fn read_at(&self, buffer: &mut [u8], offset: u64) -> io::Result<usize>
        ensures bound { ReadsAtMost result buffer.new }
        ensures read { IfOk result (λ count. (all : List ℕ) → bytes self.now ≡ Some all
            → ReadsAt offset count buffer.new all) };
}
