//! Writing to a stream, so that it has arrived.
ghost use Rattle.std.specs.Prelude.{OnOk};
ghost use Rattle.std.specs.Io.KnownBytes.{Appends};
ghost use Rattle.result_files.specs.Writing.{Begins};
ghost use Rattle.program_edge.specs.Hints.{IsSaid};

use result_files::writing::write_bytes;
use std::io;
use std::io::Write;

// Writes a hint, so that it has arrived; answers whether it was written whole.
pub(crate) fn say<E: Write>(hint: &[u8], errors: &mut E) -> bool
    ensures { IsSaid hint.now result (E.contents errors.old) (E.contents errors.new) }
{
    hint.is_empty() || write_whole(hint, errors).is_ok()
}

// Writes bytes, so that they have arrived.
pub(crate) fn write_whole<W: Write>(bytes: &[u8], writer: &mut W) -> io::Result<()>
    ensures whole { OnOk result (Appends (W.contents writer.old) (W.contents writer.new) bytes.now) }
    ensures part { Begins (W.contents writer.old) (W.contents writer.new) bytes.now }
{
    write_bytes(bytes, writer)?;
    if bytes.is_empty() {
        return Ok(());
    }
    writer.flush()
}
