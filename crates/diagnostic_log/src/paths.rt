//! Paths as they are listed.

use diagnostics::diagnostic::Span;

/// How many places are listed at either end of a path: a path can have nearly as many as the program has
/// instructions, and each diagnostic has its own.
const LISTED_AT_AN_END: usize = 50;

/// Whether the place of this number is listed, of a path: those at its beginning and those at its end are.
pub(crate) fn is_listed(path: &[Span], number: usize) -> bool {
    let behind = path.len().saturating_sub(number);
    number < LISTED_AT_AN_END || behind <= LISTED_AT_AN_END
}

/// How many places in the middle of a path are not listed.
pub(crate) fn left_out(path: &[Span]) -> usize {
    path.len().saturating_sub(2 * LISTED_AT_AN_END)
}
