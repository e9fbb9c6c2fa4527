//! The warnings about releases that may be forgotten.

ghost use Rattle.std.specs.Prelude.{◌≡◌, Ok, IfOk, IfSome};
ghost use Rattle.std.specs.List.{All};
ghost use Rattle.annotated_asm.specs.ProgramText.{parse};
ghost use Rattle.release_proposals.specs.Paying.{IsForgotten, IsTried};

use crate::attempt::attempted;
use crate::base::base_of;
use crate::due::dues_in;
use crate::proposal::{gain, proposed};
use crate::trial::{Trial, accepted_of, is_faster};
use crate::waited::Waited;
use diagnostics::diagnostic::Diagnostic;
use mark_subjects::subject::Subject;
use mask_certificate::certificate::Cert;
use std::alloc::{AllocError, Global};
use std::slice::from_ref;
use task_descriptor::program::Program;

/// The most releases that are tried for warnings.
const MOST_WARNED: usize = 4;

/// A release is worth a warning if it saves more than one in so many steps.
const LEAST_SHARE: u32 = 50;

// The warning about one place, if its fix pays.
fn judged(
    alloc: Global,
    text: &[u8],
    subject: &Subject,
    before: &Trial,
    waited: &Waited,
) -> Result<Option<Diagnostic>, AllocError>
    requires { IsTried text.now before.now }
    ensures { IfOk result (λ found. IfSome found (IsForgotten text.now)) }
{
    let draft = proposed(subject, waited)?;
    let Some(new) = attempted(alloc, text, from_ref(&draft), None)? else {
        return Ok(None);
    };
    let saved = before.steps.saturating_sub(new.trial.steps);
    if !is_faster(&new.trial, before) || saved <= before.steps / LEAST_SHARE {
        return Ok(None);
    }
    let notes = gain(subject, waited, before, &new.trial)?;
    Ok(Some(Diagnostic { notes, ..draft }))
}

// The warnings about the places whose fix pays.
fn all_judged(
    alloc: Global,
    text: &[u8],
    subject: &Subject,
    before: &Trial,
    places: &[Waited],
) -> Result<Vec<Diagnostic>, AllocError>
    requires { IsTried text.now before.now }
    ensures { IfOk result (λ list. All (IsForgotten text.now) list.items) }
{
    let mut list = Vec::new(alloc);
    for waited in places {
        if let Some(said) = judged(alloc, text, subject, before, waited)? {
            list.push(said)?;
        }
    }
    Ok(list)
}

/// The warnings about releases that may be forgotten in the program that a text spells, whose marks are right: each proposes a
/// release that makes a run shorter. `least` is the program's least certificate.
///
/// # Errors
///
/// `AllocError` where memory was refused.
pub fn release_warnings(
    alloc: Global,
    text: &[u8],
    program: &Program,
    least: &Cert,
) -> Result<Vec<Diagnostic>, AllocError>
    requires { parse text.now ≡ Ok program.now }
    ensures { IfOk result (λ list. All (IsForgotten text.now) list.items) }
{
    let dues = dues_in(alloc, program, least)?;
    if dues.is_empty() {
        return Ok(Vec::new(alloc));
    }
    let Some(accepted) = accepted_of(alloc, text)? else {
        return Ok(Vec::new(alloc));
    };
    let Some(base) = base_of(alloc, &accepted, &dues, MOST_WARNED)? else {
        return Ok(Vec::new(alloc));
    };
    let subject = Subject::read(alloc, text, program, least)?;
    if !subject.names_no_index() {
        // An insertion would move the places that the text gives by their indexes.
        return Ok(Vec::new(alloc));
    }
    all_judged(alloc, text, &subject, &base.before, &base.waited)
}
