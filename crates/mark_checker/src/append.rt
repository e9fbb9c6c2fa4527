//! Findings put into a list, in the order of the rules.

ghost use Rattle.std.specs.Prelude.{◌≡◌, ◌<◌, ◌++◌, true, false, OnOk, MatchOption};
ghost use Rattle.mips_instructions.specs.Words.{has};
ghost use Rattle.mark_checker.specs.Rules.{once, each, found};
ghost use Rattle.mark_checker.specs.CheckerSteps.{told, first_rules, last_rules};

use crate::finding::{Finding, Rule};
use crate::place::Faults;
use mips_instructions::number::{Reg, RegSet};
use std::alloc::AllocError;

/// Appends the findings of one place.
pub(crate) fn append_faults(
    task: u32,
    index: u32,
    faults: &Faults,
    list: &mut Vec<Finding>,
) -> Result<(), AllocError>
    ensures { OnOk result (list.new.items ≡ list.old.items ++ found task index (told faults.now)) }
{
    append_first(task, index, faults, list)?;
    append_last(task, index, faults, list)
}

/// Appends what rules 1 to 6 find.
fn append_first(
    task: u32,
    index: u32,
    faults: &Faults,
    list: &mut Vec<Finding>,
) -> Result<(), AllocError>
    ensures { OnOk result (list.new.items ≡ list.old.items ++ first_rules task index (told faults.now)) }
{
    let inside = &faults.inside;
    append_once(
        task,
        index,
        Rule::EntryWithoutMask,
        faults.entry.without_mask,
        list,
    )?;
    append_once(
        task,
        index,
        Rule::NextWithoutMask,
        inside.next_without_mask,
        list,
    )?;
    append_each(
        task,
        index,
        Rule::LacksDestination,
        inside.lacks_destination,
        list,
    )?;
    append_each(task, index, Rule::LacksNext, inside.lacks_next, list)?;
    append_each(
        task,
        index,
        Rule::ExceedsCreate,
        faults.entry.exceeds_create,
        list,
    )?;
    append_each(
        task,
        index,
        Rule::ForwardedInNext,
        inside.forwarded_in_next,
        list,
    )
}

/// Appends what rules 7 to 12 find.
fn append_last(
    task: u32,
    index: u32,
    faults: &Faults,
    list: &mut Vec<Finding>,
) -> Result<(), AllocError>
    ensures { OnOk result (list.new.items ≡ list.old.items ++ last_rules task index (told faults.now)) }
{
    let inside = &faults.inside;
    append_each(
        task,
        index,
        Rule::ReleasedInNext,
        inside.released_in_next,
        list,
    )?;
    append_each(
        task,
        index,
        Rule::SentNotCreated,
        inside.sent_not_created,
        list,
    )?;
    append_once(
        task,
        index,
        Rule::ExitNotListed,
        inside.exit_not_listed,
        list,
    )?;
    append_once(task, index, Rule::FallsOff, inside.falls_off, list)?;
    append_once(
        task,
        index,
        Rule::IndirectGoesOn,
        inside.indirect_goes_on,
        list,
    )?;
    append_once(
        task,
        index,
        Rule::TargetNotEntry,
        faults.entry.target_not_entry,
        list,
    )
}

/// Appends one finding without a register, if the rule finds something.
fn append_once(
    task: u32,
    index: u32,
    rule: Rule,
    holds: bool,
    list: &mut Vec<Finding>,
) -> Result<(), AllocError>
    ensures { OnOk result (list.new.items ≡ list.old.items ++ once task index rule holds) }
{
    if holds {
        list.push(Finding {
            task,
            index,
            rule,
            reg: None,
        })?;
    }
    Ok(())
}

/// Appends one finding for each register of the set.
fn append_each(
    task: u32,
    index: u32,
    rule: Rule,
    set: RegSet,
    list: &mut Vec<Finding>,
) -> Result<(), AllocError>
    ensures { OnOk result (list.new.items ≡ list.old.items ++ each task index rule (has set)) }
{
    for number in 0..34u8 {
        if let Some(reg) = member(set, number) {
            list.push(Finding {
                task,
                index,
                rule,
                reg: Some(reg),
            })?;
        }
    }
    Ok(())
}

/// The register of this number, if the set has it.
fn member(set: RegSet, number: u8) -> Option<Reg>
    requires { number < 34 }
    ensures { MatchOption result (has set number ≡ false) (λ reg. (reg ≡ number) × (has set number ≡ true)) }
{
    match Reg::new(number) {
        Some(reg) if set.has(reg) => Some(reg),
        _ => None,
    }
}
