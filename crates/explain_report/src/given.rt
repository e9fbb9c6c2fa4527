//! What `explain` is given beside the text of a program.
ghost use Rattle.std.specs.Prelude.{◌≡◌, IfOk};

use jobs::job::{Texts, Warnings};
use operand_forms::rows::lines_of;
use std::alloc::{AllocError, Global};
use text_pieces::text::Text;

/// What `explain` is given beside the text of a program: the names of the files, the texts of those that are named, and
/// what it does about marks that cost speed.
#[derive(Clone, Copy)]
pub struct Given<'a> {
    /// The name of the program's file.
    pub name: &'a str,
    /// The name of the certificate's file; `None` where there is none.
    pub cert_file: &'a Option<String>,
    /// The name of the script's file; `None` where there is none.
    pub script_file: &'a Option<String>,
    /// What is done about marks that cost speed.
    pub warnings: Warnings,
    /// The texts of the job.
    pub texts: &'a Texts,
}

/// The name of a file; empty where none is named.
pub(crate) fn file_name(file: &Option<String>) -> &str {
    match file {
        Some(file) => file.as_str(),
        None => "",
    }
}

/// The lines of a text in a file, if one is named; else none.
pub(crate) fn file_lines<'a>(
    alloc: Global,
    file: &Option<String>,
    text: &'a [u8],
) -> Result<Vec<&'a [u8]>, AllocError> {
    match file {
        Some(_) => lines_of(alloc, text),
        None => Ok(Vec::new(alloc)),
    }
}

/// The bytes of a text in pieces.
pub(crate) fn joined(alloc: Global, text: &Text) -> Result<Vec<u8>, AllocError>
    ensures { IfOk result (λ bytes. bytes.items ≡ text.now) }
{
    let pieces = text.pieces(alloc)?;
    let mut bytes = Vec::new(alloc);
    for piece in &pieces {
        bytes.extend_from_slice(piece)?;
    }
    Ok(bytes)
}
