//! The note that says how many things are not shown.

ghost use Rattle.std.specs.Prelude.{◌≡◌, ◌++◌, IfOk, OnOk};
ghost use Rattle.diagnostics.specs.More.{more_message, more_note};

use crate::code::Code;
use crate::diagnostic::{Diagnostic, Severity, Source};
use crate::listed::Listed;
use crate::words;
use crate::words::Words;
use std::alloc::{AllocError, Global};

/// How many more there are.
fn more_message(alloc: Global, more: usize, one: &str, many: &str) -> Result<Words, AllocError>
    ensures { IfOk result (λ words. words ≡ more_message more one.now many.now) }
{
    if more == 1 {
        words!(in alloc; "1 more {one}")
    } else {
        words!(in alloc; "{more} more {many}")
    }
}

/// Adds a note about a text that says how many more things there are, such as `3 more errors`; nothing if `more` is 0.
/// `one` and `many` are the noun in the singular and in the plural.
///
/// # Errors
///
/// `AllocError` where memory was refused; what `list` then has is not stated.
pub fn add_more(
    alloc: Global,
    list: &mut Vec<Diagnostic>,
    source: Source,
    more: usize,
    one: &str,
    many: &str,
) -> Result<(), AllocError>
    ensures { OnOk result (list.new.items ≡ list.old.items ++ more_note source more one.now many.now) }
{
    if more > 0 {
        list.push(Diagnostic {
            severity: Severity::Note,
            code: Code::More,
            source,
            span: None,
            message: more_message(alloc, more, one, many)?,
            notes: Listed::new(Vec::new(alloc)),
            help: None,
        })?;
    }
    Ok(())
}
