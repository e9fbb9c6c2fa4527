//! Writing bytes, so that it is known what was written where the writer failed.
ghost use Rattle.std.specs.Prelude.{◌≡◌, OnOk};
ghost use Rattle.std.specs.Io.KnownBytes.{Appends};
ghost use Rattle.result_files.specs.Writing.{Begins, Grows};

use std::io;
use std::io::{ErrorKind, Write};

/// Writes all bytes of a text.
///
/// # Errors
///
/// The writer's errors, and `WriteZero` where it takes nothing; what was written is then a prefix of the text.
pub fn write_text<W: Write>(text: &str, writer: &mut W) -> io::Result<()>
    ensures whole { OnOk result (Appends (W.contents writer.old) (W.contents writer.new) text.now) }
    ensures part { Begins (W.contents writer.old) (W.contents writer.new) text.now }
{
    write_bytes(text.as_bytes(), writer)
}

/// Writes all bytes; a write that was interrupted is tried again.
///
/// # Errors
///
/// The writer's errors, and `WriteZero` where it takes nothing; what was written is then a prefix of the bytes.
pub fn write_bytes<W: Write>(bytes: &[u8], writer: &mut W) -> io::Result<()>
    ensures whole { OnOk result (Appends (W.contents writer.old) (W.contents writer.new) bytes.now) }
    ensures part { Begins (W.contents writer.old) (W.contents writer.new) bytes.now }
{
    let mut rest = bytes;
    for _turn in 0..u64::MAX {
        if rest.is_empty() {
            return Ok(());
        }
        match writer.write(rest) {
            Ok(0) => return Err(io::Error::from(ErrorKind::WriteZero)),
            Ok(count) => rest = &rest[count..],
            Err(error) => {
                if error.kind() != ErrorKind::Interrupted {
                    return Err(error);
                }
            }
        }
    }
    Err(io::Error::from(ErrorKind::Interrupted))
}

/// Writes a text and empties it, where it has at least `least` bytes; a shorter one stays as it is.
///
/// # Errors
///
/// Those of `write_bytes`.
pub fn write_off<W: Write>(text: &mut String, least: usize, writer: &mut W) -> io::Result<()>
    ensures { Grows (W.contents writer.old) (W.contents writer.new) }
{
    if text.len() < least {
        return Ok(());
    }
    write_text(text.as_str(), writer)?;
    text.clear();
    Ok(())
}
