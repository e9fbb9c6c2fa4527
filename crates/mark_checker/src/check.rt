//! The findings of a task and of a program.

ghost use Rattle.std.specs.Prelude.{◌≡◌, ◌∷◌, ◌++◌, ℕ, List, Some, None, IfOk, OnOk, slice_get, length};
ghost use Rattle.std.specs.List.{flat_map, range_with_len};
ghost use Rattle.mark_checker.specs.Rules.{rules_at, places, rules, all_rules};
ghost use Rattle.mark_checker.specs.CheckerSteps.{left_places};

use crate::append::append_faults;
use crate::finding::{Finding, Findings, Verdict};
use crate::place::{begun_after, faults_at, is_clean};
use crate::quiet::is_quiet;
use crate::survey::{Survey, Surveyed};
use mask_certificate::certificate::Cert;
use mask_certificate::masks::Masks;
use mips_instructions::number::RegSet;
use std::alloc::{AllocError, Global};
use task_descriptor::descriptor::Descriptor;
use task_descriptor::program::Program;

/// The findings of task `task`, from 0, in order of code index, rule and register; none for a task number that
/// does not exist.
///
/// # Errors
///
/// `AllocError` where memory was refused.
pub fn check_task(
    alloc: Global,
    program: &Program,
    cert: &Cert,
    task: u32,
) -> Result<Vec<Finding>, AllocError>
    ensures { IfOk result (λ v. v.items ≡ rules program.now cert.now task) }
{
    let surveyed = Surveyed::new(alloc, program)?;
    check_surveyed(alloc, &surveyed.survey(), cert, task)
}

/// The findings of task `task`, from 0, of a surveyed program, in order of code index, rule and register; none
/// for a task number that does not exist. One survey serves all tasks, so checking a task costs only its list's
/// length.
///
/// # Errors
///
/// `AllocError` where memory was refused.
pub fn check_surveyed(
    alloc: Global,
    survey: &Survey<'_>,
    cert: &Cert,
    task: u32,
) -> Result<Vec<Finding>, AllocError>
    ensures { IfOk result (λ v. v.items ≡ rules survey.now cert.now task) }
{
    let mut list = Vec::new(alloc);
    append_task(survey, cert, task, &mut list)?;
    Ok(list)
}

/// The findings of all tasks, task 0 first, in order of task, code index, rule and register.
///
/// # Errors
///
/// `AllocError` where memory was refused.
pub fn verdict(alloc: Global, program: &Program, cert: &Cert) -> Result<Verdict, AllocError>
    ensures { IfOk result (λ v. v.findings ≡ all_rules program.now cert.now) }
{
    let surveyed = Surveyed::new(alloc, program)?;
    let survey = surveyed.survey();
    let mut list = Vec::new(alloc);
    for task in 0..program.tasks().len() {
        append_task(&survey, cert, task as u32, &mut list)?;
    }
    Ok(Verdict {
        findings: Findings::new(list),
    })
}

/// Appends the findings of one task.
fn append_task(
    survey: &Survey<'_>,
    cert: &Cert,
    task: u32,
    list: &mut Vec<Finding>,
) -> Result<(), AllocError>
    ensures { OnOk result (list.new.items ≡ list.old.items ++ rules survey.now cert.now task) }
{
    match survey.program().tasks().get(task as usize) {
        Some(descriptor) => append_places(
            survey,
            &Masks::new(cert.list(task)),
            descriptor,
            task,
            list,
        ),
        None => Ok(()),
    }
}

/// Appends the findings of the places of one task, whose list this is.
fn append_places(
    survey: &Survey<'_>,
    masks: &Masks<'_>,
    descriptor: &Descriptor,
    task: u32,
    list: &mut Vec<Finding>,
) -> Result<(), AllocError>
    ensures { OnOk result
        (list.new.items
        ≡ list.old.items
        ++ flat_map (rules_at survey.now descriptor.now masks.now task) (places descriptor.now.entry masks.now)) }
{
    let entries = masks.entries();
    let mut begun = false;
    for (index, mask) in entries {
        begun = append_next(
            survey,
            masks,
            descriptor,
            task,
            begun,
            (*index, *mask),
            list,
        )?;
    }
    if begun {
        return Ok(());
    }
    append_place(
        survey,
        masks,
        descriptor,
        task,
        (descriptor.entry.get(), None),
        list,
    )
}

/// Appends the findings of the next entry of the task's list, preceded by those of the task's entry
/// where it is passed over. Returns whether the task's entry is done.
fn append_next(
    survey: &Survey<'_>,
    masks: &Masks<'_>,
    descriptor: &Descriptor,
    task: u32,
    begun: bool,
    next: (u32, RegSet),
    list: &mut Vec<Finding>,
) -> Result<bool, AllocError>
    ensures { IfOk result
        (λ now. (rest : List (ℕ × ℕ))
        → list.new.items ++ flat_map (rules_at survey.now descriptor.now masks.now task) (left_places now descriptor.now.entry rest)
        ≡ list.old.items ++ flat_map (rules_at survey.now descriptor.now masks.now task) (left_places begun descriptor.now.entry (next ∷ rest))) }
{
    let entry = descriptor.entry.get();
    match begun_after(begun, next.0, entry) {
        Some(now) => {
            append_entry(survey, masks, descriptor, task, next, list)?;
            Ok(now)
        }
        None => {
            append_place(survey, masks, descriptor, task, (entry, None), list)?;
            append_entry(survey, masks, descriptor, task, next, list)?;
            Ok(true)
        }
    }
}

/// Appends the findings of one entry of the list.
#[inline]
fn append_entry(
    survey: &Survey<'_>,
    masks: &Masks<'_>,
    descriptor: &Descriptor,
    task: u32,
    entry: (u32, RegSet),
    list: &mut Vec<Finding>,
) -> Result<(), AllocError>
    ensures { OnOk result (list.new.items ≡ list.old.items ++ rules_at survey.now descriptor.now masks.now task (entry.0, Some entry.1)) }
{
    let (index, mask) = entry;
    if is_quiet(survey, masks, descriptor, index, mask) {
        return Ok(());
    }
    append_place(survey, masks, descriptor, task, (index, Some(mask)), list)
}

/// Appends the findings of one place.
fn append_place(
    survey: &Survey<'_>,
    masks: &Masks<'_>,
    descriptor: &Descriptor,
    task: u32,
    place: (u32, Option<RegSet>),
    list: &mut Vec<Finding>,
) -> Result<(), AllocError>
    ensures { OnOk result (list.new.items ≡ list.old.items ++ rules_at survey.now descriptor.now masks.now task place) }
{
    let (index, mask) = place;
    match survey.program().code().get(index as usize) {
        Some(marked) => {
            let faults = faults_at(survey, masks, descriptor, marked, index, mask);
            if is_clean(&faults) {
                return Ok(());
            }
            append_faults(task, index, &faults, list)
        }
        None => Ok(()),
    }
}
