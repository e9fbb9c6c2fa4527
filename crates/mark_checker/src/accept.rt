//! Programs that are accepted.

ghost use Rattle.std.specs.Prelude.{◌≡◌, ◌↔◌, ◌<◌, ℕ, true, Some, None, [], slice_get, length};
ghost use Rattle.std.specs.List.{flat_map};
ghost use Rattle.task_descriptor.specs.Listing.{IsWellFormed};
ghost use Rattle.mask_certificate.specs.Lists.{list_of};
ghost use Rattle.mark_checker.specs.Rules.{rules_at, places, rules, all_rules};
ghost use Rattle.mark_checker.specs.Places.{IsRight, AllRight, IsAccepted};

use crate::look::{look_through, nothing};
use crate::place::{begun_after, faults_at, is_clean};
use crate::quiet::is_quiet;
use crate::survey::{MOST_INDICES, MOST_PLACES, Survey, mark_entries};
use mask_certificate::certificate::Cert;
use mask_certificate::masks::Masks;
use mips_instructions::number::RegSet;
use std::marker::Model;
use task_descriptor::descriptor::Descriptor;
use task_descriptor::program::Program;

/// Whether the rules find nothing: then the program is accepted, and its annotations are sound, whoever made
/// the certificate. Takes no memory from the allocator.
// Not inlined, so that only a call takes the stack that the survey needs, some 170 kilobytes.
#[inline(never)]
pub fn accepts(program: &Program, cert: &Cert) -> bool
    ensures exact { (result ≡ true) ↔ (all_rules program.now cert.now ≡ []) }
    ensures accepted { (result ≡ true) → IsAccepted program.now cert.now }
{
    let mut looks = [nothing(); MOST_PLACES];
    look_through(program, &mut looks);
    let mut begins = [false; MOST_INDICES];
    mark_entries(program, &mut begins);
    accepts_surveyed(&Survey::over(program, &looks, &begins), cert)
}

/// Whether the rules find nothing in a surveyed program.
fn accepts_surveyed(survey: &Survey<'_>, cert: &Cert) -> bool
    ensures exact { (result ≡ true) ↔ (all_rules survey.now cert.now ≡ []) }
    ensures accepted { (result ≡ true) → IsAccepted survey.now cert.now }
{
    for (task, descriptor) in survey.program().tasks().iter().enumerate() {
        if !is_task_right(survey, cert, descriptor, task as u32) {
            return false;
        }
    }
    true
}

/// Whether the rules find nothing in task `task`, from 0, of a surveyed program; true also for a task number
/// that does not exist. Takes no memory.
pub fn accepts_task(survey: &Survey<'_>, cert: &Cert, task: u32) -> bool
    ensures { (result ≡ true) ↔ (rules survey.now cert.now task ≡ []) }
{
    match survey.program().tasks().get(task as usize) {
        Some(descriptor) => is_task_right(survey, cert, descriptor, task),
        None => true,
    }
}

/// Whether the rules find nothing in one task.
fn is_task_right(survey: &Survey<'_>, cert: &Cert, descriptor: &Descriptor, task: u32) -> bool
    requires there { slice_get survey.now.tasks task ≡ Some descriptor.now }
    requires well_formed { IsWellFormed survey.now }
    ensures right { (result ≡ true) → AllRight survey.now descriptor.now (list_of cert.now task) (places descriptor.now.entry (list_of cert.now task)) }
    ensures nothing { rules survey.now cert.now task ≡ [] → result ≡ true }
{
    is_list_right(survey, &Masks::new(cert.list(task)), descriptor)
}

/// Whether the rules find nothing at the places of one task, whose list this is.
fn is_list_right(survey: &Survey<'_>, masks: &Masks<'_>, descriptor: &Descriptor) -> bool
    requires inside { descriptor.now.entry < length survey.now.code }
    ensures right { (result ≡ true) → AllRight survey.now descriptor.now masks.now (places descriptor.now.entry masks.now) }
    ensures nothing { (task : ℕ) → flat_map (rules_at survey.now descriptor.now masks.now task) (places descriptor.now.entry masks.now) ≡ [] → result ≡ true }
{
    let entry = descriptor.entry.get();
    let entries = masks.entries();
    let mut begun = false;
    for (index, mask) in entries {
        let Some(now) = begun_after(begun, *index, entry) else {
            return false;
        };
        begun = now;
        if !is_right(survey, masks, descriptor, *index, *mask) {
            return false;
        }
    }
    begun
}

/// Whether the rules find nothing at one entry of the list.
#[inline]
fn is_right(
    survey: &Survey<'_>,
    masks: &Masks<'_>,
    descriptor: &Descriptor,
    index: u32,
    mask: RegSet,
) -> bool
    ensures right { (result ≡ true) → IsRight survey.now descriptor.now masks.now (index, Some mask) }
    ensures nothing { (task : ℕ) → rules_at survey.now descriptor.now masks.now task (index, Some mask) ≡ [] → result ≡ true }
{
    if is_quiet(survey, masks, descriptor, index, mask) {
        return true;
    }
    is_place_right(survey, masks, descriptor, index, Some(mask))
}

/// Whether the rules find nothing at one place.
fn is_place_right(
    survey: &Survey<'_>,
    masks: &Masks<'_>,
    descriptor: &Descriptor,
    index: u32,
    mask: Option<RegSet>,
) -> bool
    ensures right { (result ≡ true) → IsRight survey.now descriptor.now masks.now (index, mask) }
    ensures nothing { (task : ℕ) → rules_at survey.now descriptor.now masks.now task (index, mask) ≡ [] → result ≡ true }
{
    match survey.program().code().get(index as usize) {
        Some(marked) => is_clean(&faults_at(survey, masks, descriptor, marked, index, mask)),
        None => true,
    }
}

/// An accepted program: a program with a certificate against which the rules find nothing.
#[derive(Debug, Drop)]
pub struct Accepted {
    program: Program,
    cert: Cert,
}

impl Model for Accepted {
    ghost use Rattle.mark_checker.specs.Places.{Checked, IsAccepted};

    ghost Value = { Checked };

    ghost view = { λ a. record { program = a.program; cert = a.cert } };

    ghost invariant = { λ a. IsAccepted a.program a.cert };
}

impl Accepted {
    ghost use Rattle.std.specs.Prelude.{◌≡◌, ◌≢◌, [], MatchResult};
    ghost use Rattle.task_graph.specs.Soundness.{Sound};
    ghost use Rattle.mark_checker.specs.Rules.{all_rules};
    ghost use Rattle.mark_checker.specs.Places.{Checked, IsAccepted};

    /// The two as an accepted program. Takes no memory from the allocator.
    ///
    /// # Errors
    ///
    /// The program and the certificate, unchanged, exactly where the rules find something.
    pub fn new(program: Program, cert: Cert) -> Result<Accepted, (Program, Cert)>
        ensures { MatchResult result
            (λ accepted. (all_rules program cert ≡ []) × (accepted.program ≡ program) × (accepted.cert ≡ cert))
            (λ refused. (all_rules program cert ≢ []) × (refused.0 ≡ program) × (refused.1 ≡ cert)) }
    {
        if accepts(&program, &cert) {
            Ok(Accepted { program, cert })
        } else {
            Err((program, cert))
        }
    }

    /// The program; its annotations are sound.
    pub fn program(&self) -> &Program
        ensures value { result.now ≡ self.now.program }
        ensures accepted { IsAccepted self.now.program self.now.cert }
        ensures sound { Sound self.now.program }
    {
        &self.program
    }

    /// The certificate against which the program was accepted.
    pub fn cert(&self) -> &Cert
        ensures value { result.now ≡ self.now.cert }
        ensures accepted { IsAccepted self.now.program self.now.cert }
    {
        &self.cert
    }
}
