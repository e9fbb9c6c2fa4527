//! The title of a picture: the program, if it has a name, and how many units and events or steps there are.

use crate::shape::Axis;
use crate::shape_text::word_of_counted;
use crate::words_text::plural;
use std::alloc::AllocError;

/// How many bytes of a name are shown.
const MOST_SHOWN: usize = 60;

/// Adds the title of a picture: the program's name, unless that is empty, how many units and events or steps there are, and
/// from which to which they are drawn, if that is a part.
///
/// # Errors
///
/// `AllocError` where memory was refused; a part may have been added.
pub fn write_title(text: &mut String, name: &str, axis: Axis) -> Result<(), AllocError> {
    let between = if name.is_empty() { ": " } else { ", " };
    if name.is_empty() {
        text.push_str("Run on ")?;
    } else {
        write_name(text, name.as_bytes())?;
        text.push_str(": ")?;
    }
    let (units, count) = (axis.units, axis.total);
    let (of_units, of_counted) = (plural(units as usize), plural(count as usize));
    let counted = word_of_counted(axis.counted);
    write!(
        text,
        "{units} unit{of_units}{between}{count} {counted}{of_counted}"
    )?;
    if axis.count == axis.total {
        return Ok(());
    }
    if axis.count == 0 {
        return text.push_str(", none of them in this part");
    }
    let first = axis.before.saturating_add(1);
    let last = axis.before.saturating_add(axis.count);
    write!(text, ", from {first} to {last}")
}

/// Adds a name; of a long one, its first bytes and two periods, as `write_escaped` writes it.
///
/// # Errors
///
/// `AllocError` where memory was refused; a part may have been added.
pub fn write_name(text: &mut String, name: &[u8]) -> Result<(), AllocError> {
    write_escaped(text, &name[..name.len().min(MOST_SHOWN)])?;
    if name.len() > MOST_SHOWN {
        text.push_str("..")?;
    }
    Ok(())
}

// Adds bytes: one that has a meaning in SVG as its entity, and one that does not print as `\x` and two hexadecimal digits.
pub(crate) fn write_escaped(text: &mut String, bytes: &[u8]) -> Result<(), AllocError> {
    for byte in bytes {
        match *byte {
            b'&' => text.push_str("&amp;")?,
            b'<' => text.push_str("&lt;")?,
            b'>' => text.push_str("&gt;")?,
            b'"' => text.push_str("&quot;")?,
            byte @ 32..=126 => text.push(char::from(byte))?,
            byte => write!(text, "\\x{byte:02x}")?,
        }
    }
    Ok(())
}
