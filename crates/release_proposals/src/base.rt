//! The trial of a program as it is.

ghost use Rattle.std.specs.Prelude.{◌≡◌, IfOk, IfSome};
ghost use Rattle.release_proposals.specs.Paying.{IsTrialOf};

use crate::due::Due;
use crate::trial::{TRIAL_UNITS, Trial, run_of, trial_of};
use crate::waited::{Waited, most_waited};
use mark_checker::accept::Accepted;
use run_picture::events::single_events;
use std::alloc::{AllocError, Global};
use wait_table::table::table_of;

/// The trial of a program as it is, and the places where a release is due that other tasks wait for in it.
#[derive(Drop)]
pub(crate) struct Base {
    pub(crate) before: Trial,
    pub(crate) waited: Vec<Waited>,
}

/// The trial of a program in which releases are due at these places, and at most so many of the places; `None` where it does
/// not halt.
///
/// # Errors
///
/// `AllocError` where memory was refused.
pub(crate) fn base_of(
    alloc: Global,
    accepted: &Accepted,
    dues: &[Due],
    most: usize,
) -> Result<Option<Base>, AllocError>
    ensures { IfOk result (λ found. IfSome found (λ base. IsTrialOf accepted.now.program base.before)) }
{
    let report = run_of(alloc, accepted)?;
    let Some(before) = trial_of(alloc, accepted, &report)? else {
        return Ok(None);
    };
    let events = single_events(alloc, report.machine.history())?;
    let table = table_of(alloc, accepted, TRIAL_UNITS, &events)?;
    let (program, least) = (accepted.program(), accepted.cert());
    let waited = most_waited(alloc, program, least, &table.counts, dues, most)?;
    Ok(Some(Base { before, waited }))
}
