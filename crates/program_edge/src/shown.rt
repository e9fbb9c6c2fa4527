//! Writing a name as it is shown.
ghost use Rattle.std.specs.Prelude.{OnOk};
ghost use Rattle.std.specs.Io.KnownBytes.{Appends};
ghost use Rattle.shown_names.specs.Shown.{shown, shown_as, shown_byte};
ghost use Rattle.result_files.specs.Writing.{Begins};

use result_files::writing::{write_bytes, write_text};
use shown_names::letters::{escaped, is_printable, is_printed, is_readable};
use std::io;
use std::io::Write;

// Writes a name as it is shown. It takes no memory, since a fault may be that there is none.
pub(crate) fn write_shown<W: Write>(name: &str, writer: &mut W) -> io::Result<()>
    ensures whole { OnOk result (Appends (W.contents writer.old) (W.contents writer.new) (shown name.now)) }
    ensures part { Begins (W.contents writer.old) (W.contents writer.new) (shown name.now) }
{
    let bytes = name.as_bytes();
    if is_printable(bytes) {
        return write_text(name, writer);
    }
    write_escaped(is_readable(bytes), bytes, writer)
}

// Writes bytes as they are shown, one by one.
fn write_escaped<W: Write>(readable: bool, bytes: &[u8], writer: &mut W) -> io::Result<()>
    ensures whole { OnOk result (Appends (W.contents writer.old) (W.contents writer.new) (shown_as readable bytes.now)) }
    ensures part { Begins (W.contents writer.old) (W.contents writer.new) (shown_as readable bytes.now) }
{
    for byte in bytes {
        write_byte(readable, *byte, writer)?;
    }
    Ok(())
}

// Writes a byte as it is shown.
fn write_byte<W: Write>(readable: bool, byte: u8, writer: &mut W) -> io::Result<()>
    ensures whole { OnOk result (Appends (W.contents writer.old) (W.contents writer.new) (shown_byte readable byte)) }
    ensures part { Begins (W.contents writer.old) (W.contents writer.new) (shown_byte readable byte) }
{
    if is_printed(readable, byte) {
        return write_bytes(&[byte], writer);
    }
    write_bytes(&escaped(byte), writer)
}
