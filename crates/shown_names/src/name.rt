//! Names as they are shown.
ghost use Rattle.std.specs.Prelude.{◌≡◌, ◌++◌, IfOk, OnOk};
ghost use Rattle.std.specs.String.{string_bytes};
ghost use Rattle.shown_names.specs.Shown.{shown, shown_as, shown_byte};

use crate::letters::{escaped, is_printed, is_readable};
use std::alloc::{AllocError, Global};

/// The name with `\x` and two hexadecimal digits for each byte that is no printable text.
///
/// # Errors
///
/// `AllocError` where memory was refused.
pub fn shown_name(alloc: Global, name: &str) -> Result<String, AllocError>
    ensures { IfOk result (λ text. string_bytes text ≡ shown name.now) }
{
    let bytes = name.as_bytes();
    match String::from_utf8(shown_as(alloc, is_readable(bytes), bytes)?) {
        Ok(text) => Ok(text),
        Err(_) => unreachable!(),
    }
}

// Bytes as they are shown.
fn shown_as(alloc: Global, readable: bool, bytes: &[u8]) -> Result<Vec<u8>, AllocError>
    ensures { IfOk result (λ made. made.items ≡ shown_as readable bytes.now) }
{
    let mut made = Vec::new(alloc);
    for byte in bytes {
        push_shown(&mut made, readable, *byte)?;
    }
    Ok(made)
}

// Adds a byte as it is shown.
pub(crate) fn push_shown(made: &mut Vec<u8>, readable: bool, byte: u8) -> Result<(), AllocError>
    ensures { OnOk result (made.new.items ≡ made.old.items ++ shown_byte readable byte) }
{
    if is_printed(readable, byte) {
        made.push(byte)?;
        return Ok(());
    }
    made.extend_from_slice(&escaped(byte))
}
