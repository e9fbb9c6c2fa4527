//! Fixes for wrong marks, which are made together and judged, or one by one.

ghost use Rattle.std.specs.Prelude.{◌≡◌, [], false, IfOk, IfSome};
ghost use Rattle.std.specs.List.{All};
ghost use Rattle.annotator.specs.Least.{IsLeast};
ghost use Rattle.judged_fixes.specs.Fixed.{AreSameErrors, IsFixed, IsTakenIfRight, in_words_alone, says_right, words_of};
ghost use Rattle.judged_fixes.specs.Proposed.{IsProposed, has_fix, replacements_of};

use crate::fixed::Fixed;
use crate::judge::{Marks, is_gone, marks_of};
use crate::mended::mended;
use crate::proposal::{Proposed, has_fix, proposal};
use diagnostics::diagnostic::{Diagnostic, Help};
use diagnostics::helps::in_words;
use diagnostics::listed::Listed;
use mark_checker::survey::Surveyed;
use mark_diagnostics::told::first_told;
use mask_certificate::certificate::Cert;
use std::alloc::{AllocError, Global};
use task_descriptor::program::Program;

/// The most fixes that are judged one by one, where all together do not make the marks right.
pub const MOST_ALONE: usize = 15;

/// How much the runs of the checker that judge fixes alone look at in all: bytes of the text, and entries of certificates.
const MOST_READ: usize = 1_000_000;

/// The errors of a text, and the text with those fixes that the judge confirmed.
#[derive(Debug, Drop)]
pub struct Judged {
    /// The errors. One whose fix was judged not to help has its help in words alone.
    pub errors: Vec<Diagnostic>,
    /// The text with fixes; `None` where none were made.
    pub fixed: Option<Fixed>,
}

// A text with a proposal made in it; `None` where it proposes nothing, or what comes out cannot be read.
fn made(
    alloc: Global,
    text: &[u8],
    said: &[Diagnostic],
    proposal: &Proposed,
) -> Result<Option<Fixed>, AllocError>
    requires { All (IsProposed text.now said.now) proposal.now.edits.items }
    ensures fixed { IfOk result (λ found. IfSome found (IsFixed text.now said.now)) }
    ensures taken { IfOk result (IsTakenIfRight text.now proposal.now.edits.items proposal.now.from.items) }
{
    if proposal.from.is_empty() {
        return Ok(None);
    }
    let Some(new) = mended(alloc, text, &proposal.edits)? else {
        return Ok(None);
    };
    let marks = marks_of(alloc, &new)?;
    if marks == Marks::Unread {
        return Ok(None);
    }
    Ok(Some(Fixed {
        text: Listed::new(new),
        fixes: proposal.from.len(),
        is_right: marks.are_right(),
    }))
}

// The places of the errors whose fix makes them go, and of those whose fix does not.
#[derive(Drop)]
struct Tried {
    good: Vec<usize>,
    bad: Vec<usize>,
}

// How many entries a program's certificate has.
fn entries_in(program: &Program, cert: &Cert) -> usize {
    let mut count: usize = 0;
    for task in 0..program.tasks().len() {
        count = count.saturating_add(cert.list(task as u32).len());
    }
    count
}

// How many fixes are judged alone: fewer, or none, where a run of the checker takes long.
fn most_alone(text: &[u8], program: &Program, least: &Cert) -> usize {
    let read = text.len().saturating_add(entries_in(program, least));
    MOST_READ
        .checked_div(read)
        .unwrap_or(MOST_ALONE)
        .min(MOST_ALONE)
}

// Tries fixes one by one, at most so many.
fn try_each(
    alloc: Global,
    text: &[u8],
    said: &[Diagnostic],
    program: &Program,
    least: &Cert,
    most: usize,
) -> Result<Tried, AllocError>
    requires { IsLeast program.now least.now }
{
    let mut good = Vec::new(alloc);
    let mut bad = Vec::new(alloc);
    let surveyed = Surveyed::new(alloc, program)?;
    let findings = first_told(alloc, &surveyed.survey(), least, said.len())?;
    for (place, finding) in findings.0.iter().enumerate() {
        if good.len().saturating_add(bad.len()) >= most {
            break;
        }
        if said.get(place).is_some_and(has_fix) {
            let alone = proposal(alloc, text, said, Some(&[place]))?;
            match mended(alloc, text, &alone.edits)? {
                Some(new) if is_gone(alloc, &new, finding)? => good.push(place)?,
                _ => bad.push(place)?,
            }
        }
    }
    Ok(Tried { good, bad })
}

// What is to be done, in words alone.
fn words_of(alloc: Global, help: Option<Help>) -> Option<Help>
    ensures words { result ≡ words_of help }
    ensures alone { replacements_of result ≡ [] }
{
    match help {
        Some(help) => Some(in_words(alloc, help.message)),
        None => None,
    }
}

/// Leaves of a diagnostic's help its words alone.
pub(crate) fn tell_in_words(alloc: Global, said: &mut Diagnostic)
    ensures told { said.new ≡ in_words_alone said.old }
    ensures words { has_fix said.new ≡ false }
{
    let help = said.help.take();
    said.help = words_of(alloc, help);
}

// Leaves of the helps of the errors at these places their words alone.
fn tell_all_in_words(alloc: Global, errors: &mut Vec<Diagnostic>, places: &[usize])
    ensures { AreSameErrors errors.new.items errors.old.items }
{
    for place in places {
        if let Some(said) = errors.get_mut(*place) {
            tell_in_words(alloc, said);
        }
    }
}

// The places of the errors whose fix is not among those from these places.
fn left_out(
    alloc: Global,
    errors: &[Diagnostic],
    from: &[usize],
) -> Result<Vec<usize>, AllocError> {
    let mut left = Vec::new(alloc);
    for (place, error) in errors.iter().enumerate() {
        if has_fix(error) && from.binary_search(&place).is_err() {
            left.push(place)?;
        }
    }
    Ok(left)
}

// Whether it is said that the marks of a text with fixes are right.
fn says_right(fixed: &Option<Fixed>) -> bool
    ensures { result ≡ says_right fixed.now }
{
    match fixed {
        Some(fixed) => fixed.is_right,
        None => false,
    }
}

/// Judges the fixes that the errors of a program's marks propose. `least` is the program's least certificate, `all` the
/// proposal of all errors.
///
/// The fixes of `all` are made together if that makes the marks right. Else some are judged one by one, at most
/// `MOST_ALONE`, and fewer of a long text; those are made that remove their error.
///
/// # Errors
///
/// `AllocError` where memory was refused.
#[tactic(auto, using(crate::proofs::Telling::as_they_are))]
pub fn judge_fixes(
    alloc: Global,
    text: &[u8],
    program: &Program,
    least: &Cert,
    mut errors: Vec<Diagnostic>,
    all: &Proposed,
) -> Result<Judged, AllocError>
    requires least { IsLeast program.now least.now }
    requires proposed { All (IsProposed text.now errors.items) all.now.edits.items }
    ensures taken { IfOk result (λ judged. IsTakenIfRight text.now all.now.edits.items all.now.from.items judged.fixed) }
    ensures same { IfOk result (λ judged. AreSameErrors judged.errors.items errors.items) }
    ensures fixed { IfOk result (λ judged. IfSome judged.fixed (IsFixed text.now errors.items)) }
{
    if all.from.is_empty() {
        return Ok(Judged {
            errors,
            fixed: None,
        });
    }
    let together = made(alloc, text, &errors, all)?;
    if says_right(&together) {
        let left = left_out(alloc, &errors, &all.from)?;
        tell_all_in_words(alloc, &mut errors, &left);
        return Ok(Judged {
            errors,
            fixed: together,
        });
    }
    let most = most_alone(text, program, least);
    if most == 0 {
        return Ok(Judged {
            errors,
            fixed: None,
        });
    }
    let tried = try_each(alloc, text, &errors, program, least, most)?;
    let some = proposal(alloc, text, &errors, Some(&tried.good))?;
    let fixed = made(alloc, text, &errors, &some)?;
    let left = if says_right(&fixed) {
        left_out(alloc, &errors, &some.from)?
    } else {
        tried.bad
    };
    tell_all_in_words(alloc, &mut errors, &left);
    Ok(Judged { errors, fixed })
}
