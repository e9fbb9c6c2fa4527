//! Where a text of a command is.

use diagnostics::files::Files;
use json_text::{JsonText, Written};
use percent_encoding::{AsciiSet, NON_ALPHANUMERIC, ascii_set, percent_encode};
use std::alloc::Global;

/// The bytes of a file's name that are escaped in its URI: all but letters, digits, and `-`, `.`, `_`, `~` and
/// `/` (RFC 3986, section 2.3, and the separator of paths).
const ESCAPED: AsciiSet = ascii_set!(
    NON_ALPHANUMERIC
        .remove(b'-')
        .remove(b'.')
        .remove(b'_')
        .remove(b'~')
        .remove(b'/')
);

/// The name by which standard input is given.
pub(crate) const STANDARD_INPUT: &str = "-";

/// Adds the URI of a file of this name.
fn write_uri(alloc: Global, out: &mut JsonText, name: &str) -> Written {
    let is_absolute = name.starts_with('/');
    let mut uri = String::new(alloc);
    uri.push_str(if is_absolute { "file:///" } else { "" })?;
    let path = name.trim_start_matches('/');
    percent_encode(path.as_bytes(), ESCAPED).append_to(&mut uri)?;
    out.text("uri", uri.as_str())
}

/// Adds where a text of a command is: on standard input, or in a file named from the root or from the working folder.
pub(crate) fn write_artifact(alloc: Global, out: &mut JsonText, name: &str) -> Written {
    out.begin()?;
    if name == STANDARD_INPUT {
        out.number("index", 0)?;
    } else {
        write_uri(alloc, out, name)?;
        if !name.starts_with('/') {
            out.text("uriBaseId", "PWD")?;
        }
    }
    out.end()
}

/// Adds where a file is that a line of a program names, whose folder may not be known.
pub(crate) fn write_named(alloc: Global, out: &mut JsonText, name: &str) -> Written {
    out.begin()?;
    write_uri(alloc, out, name)?;
    out.end()
}

/// Whether one of the texts of a command is on standard input.
pub(crate) fn read_standard_input(files: &Files<'_>) -> bool {
    files.program.name == STANDARD_INPUT
        || files.certificate.name == STANDARD_INPUT
        || files.script.name == STANDARD_INPUT
}
