//! A text with the releases that pay.

ghost use Rattle.std.specs.Prelude.{◌≡◌, Ok, IfOk, IfSome};
ghost use Rattle.annotated_asm.specs.ProgramText.{parse};
ghost use Rattle.release_proposals.specs.Paying.{IsAttempt, IsReleased, IsTried};

use crate::attempt::{Attempt, attempted};
use crate::base::{Base, base_of};
use crate::due::dues_in;
use crate::proposal::proposed;
use crate::trial::{accepted_of, is_faster};
use crate::waited::Waited;
use diagnostics::diagnostic::Diagnostic;
use mark_checker::accept::Accepted;
use mark_subjects::subject::Subject;
use std::alloc::{AllocError, Global};

/// The most releases that are tried together.
const MOST_RELEASED: usize = 16;

/// A text with the releases that pay.
#[derive(Debug, Drop)]
pub struct Released {
    /// The text.
    pub text: Vec<u8>,
    /// How many steps a run of the text takes without and with them; `None` where the marks are wrong, or it does not halt.
    pub steps: Option<(u32, u32)>,
}

// Whether an attempt takes no more steps than another.
fn is_no_slower(attempt: &Option<Attempt>, than: &Option<Attempt>) -> bool {
    match (attempt, than) {
        (Some(one), Some(other)) => one.trial.steps <= other.trial.steps,
        (one, _) => one.is_some(),
    }
}

// The best attempt that is found: with all releases at first, then one after another is left out that does not pay.
fn best_attempt(
    alloc: Global,
    text: &[u8],
    said: &[Diagnostic],
) -> Result<Option<Attempt>, AllocError>
    ensures { IfOk result (λ found. IfSome found (IsAttempt text.now said.now)) }
{
    let mut chosen: Vec<usize> = (0..said.len()).collect(alloc)?;
    let mut best = attempted(alloc, text, said, Some(&chosen))?;
    for number in (0..said.len()).rev() {
        let rest: Vec<usize> = chosen
            .iter()
            .copied()
            .filter(|one| *one != number)
            .collect(alloc)?;
        let other = attempted(alloc, text, said, Some(&rest))?;
        if is_no_slower(&other, &best) {
            chosen = rest;
            best = other;
        }
    }
    Ok(best)
}

// The warnings that propose a release at each place; none of a text that gives places by their indexes.
fn all_proposed(
    alloc: Global,
    subject: &Subject,
    places: &[Waited],
) -> Result<Vec<Diagnostic>, AllocError> {
    let mut list = Vec::new(alloc);
    for waited in places {
        if subject.names_no_index() {
            list.push(proposed(subject, waited)?)?;
        }
    }
    Ok(list)
}

// The text of an accepted program with the releases that pay, compared with its trial.
fn improved(
    alloc: Global,
    text: &[u8],
    accepted: &Accepted,
    base: &Base,
) -> Result<Released, AllocError>
    requires spelled { parse text.now ≡ Ok accepted.now.program }
    requires tried { IsTried text.now base.now.before }
    ensures { IfOk result (λ r. IsReleased text.now r.text.items) }
{
    let subject = Subject::read(alloc, text, accepted.program(), accepted.cert())?;
    let said = all_proposed(alloc, &subject, &base.waited)?;
    let steps = base.before.steps;
    match best_attempt(alloc, text, &said)? {
        Some(best) if is_faster(&best.trial, &base.before) => Ok(Released {
            text: best.text,
            steps: Some((steps, best.trial.steps)),
        }),
        _ => Ok(Released {
            text: text.to_vec(alloc)?,
            steps: Some((steps, steps)),
        }),
    }
}

/// A text with the releases that pay: with them the marks are right, and a run in steps on four units puts out the same in
/// fewer steps. The text itself where none do, where its marks are wrong, and where the run does not halt.
///
/// # Errors
///
/// `AllocError` where memory was refused.
pub fn with_releases(alloc: Global, text: &[u8]) -> Result<Released, AllocError>
    ensures { IfOk result (λ r. IsReleased text.now r.text.items) }
{
    if let Some(accepted) = accepted_of(alloc, text)? {
        let dues = dues_in(alloc, accepted.program(), accepted.cert())?;
        if let Some(base) = base_of(alloc, &accepted, &dues, MOST_RELEASED)? {
            return improved(alloc, text, &accepted, &base);
        }
    }
    Ok(Released {
        text: text.to_vec(alloc)?,
        steps: None,
    })
}
