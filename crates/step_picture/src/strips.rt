//! The waits of a run, unit by unit, consecutive steps together.

ghost use Rattle.std.specs.Prelude.{◌≡◌, ◌++◌, true, IfOk, IfSome, OnOk, flat_map};
ghost use Rattle.std.specs.List.{range_with_len};
ghost use Rattle.step_picture.specs.Strips.{each_step, option_list, wait_on as wait_on_unit, waits_on, why_of as why_of_reason};

use mips_instructions::number::Reg;
use run_picture::shape::{Debt, Wait, Why};
use std::alloc::{AllocError, Global};
use unit_waits::waiting::{Owed, Reason, Waiting};

/// The waits of `units` units, unit after unit, of each in the order of its steps, with consecutive steps for one reason
/// together.
///
/// # Errors
///
/// `AllocError` where memory was refused.
pub fn strips(alloc: Global, units: u32, waits: &[Waiting]) -> Result<Vec<Wait>, AllocError>
    ensures { IfOk result (λ strips. flat_map each_step strips.items ≡ flat_map (waits_on waits.now) (range_with_len 0 units)) }
{
    let mut strips = Vec::new(alloc);
    for unit in 0..units {
        push_strips(&mut strips, unit, waits)?;
    }
    Ok(strips)
}

/// Adds the waits of a unit.
fn push_strips(strips: &mut Vec<Wait>, unit: u32, waits: &[Waiting]) -> Result<(), AllocError>
    ensures { OnOk result (flat_map each_step strips.new.items ≡ flat_map each_step strips.old.items ++ waits_on waits.now unit) }
{
    let mut current: Option<Wait> = None;
    for waiting in waits {
        let before = current;
        current = with_next(strips, before, wait_on(unit, waiting))?;
    }
    match current {
        None => Ok(()),
        Some(last) => {
            strips.push(last)?;
            Ok(())
        }
    }
}

/// The wait that goes on: the next one, if there is any, together with the one before it, if they go together. Else the one
/// before it is added.
fn with_next(
    strips: &mut Vec<Wait>,
    before: Option<Wait>,
    next: Option<Wait>,
) -> Result<Option<Wait>, AllocError>
    ensures { IfOk result (λ current. flat_map each_step strips.new.items ++ flat_map each_step (option_list current)
        ≡ flat_map each_step strips.old.items ++ (flat_map each_step (option_list before) ++ flat_map each_step (option_list next))) }
{
    let Some(next) = next else {
        return Ok(before);
    };
    let Some(before) = before else {
        return Ok(Some(next));
    };
    match joined(before, next) {
        Some(both) => Ok(Some(both)),
        None => {
            strips.push(before)?;
            Ok(Some(next))
        }
    }
}

/// Two waits as one, if the second is of the next step, of the same task of the same unit, and for the same reason.
fn joined(before: Wait, next: Wait) -> Option<Wait>
    ensures { IfSome result (λ both. each_step both ≡ each_step before ++ each_step next) }
{
    let step = u64::from(before.step) + u64::from(before.count);
    if u64::from(next.step) != step {
        return None;
    }
    if before.count == u32::MAX {
        return None;
    }
    if is_alike(before, next) {
        Some(Wait {
            count: before.count + 1,
            ..before
        })
    } else {
        None
    }
}

/// Whether a wait is of one step, of the same task of the same unit as another one, and for the same reason.
#[tactic(auto, using(crate::proofs::Joining::same_wait))]
fn is_alike(before: Wait, next: Wait) -> bool
    ensures { result ≡ true → record before { step = next.step; count = 1 } ≡ next }
{
    if next.count != 1 {
        return false;
    }
    if before.unit != next.unit {
        return false;
    }
    if before.task != next.task {
        return false;
    }
    is_same_why(before.why, next.why)
}

/// Whether two reasons are the same.
#[tactic(auto, using(crate::proofs::Joining::same_need, crate::proofs::Joining::same_duty))]
fn is_same_why(one: Why, other: Why) -> bool
    ensures { result ≡ true → one ≡ other }
{
    match one {
        Why::NeedsRegister(debt) => match other {
            Why::NeedsRegister(another) => is_same_debt(debt, another),
            _ => false,
        },
        Why::NeedsHead => matches!(other, Why::NeedsHead),
        Why::HasToPass(debt) => match other {
            Why::HasToPass(another) => is_same_debt(debt, another),
            _ => false,
        },
        Why::HasFinished => matches!(other, Why::HasFinished),
    }
}

/// Whether two registers are the same one, and owed alike.
#[tactic(auto, using(crate::proofs::Joining::same_debt))]
fn is_same_debt(one: Debt, other: Debt) -> bool
    ensures { result ≡ true → one ≡ other }
{
    if one.register != other.register {
        return false;
    }
    if one.task != other.task {
        return false;
    }
    if one.unit != other.unit {
        return false;
    }
    if one.is_sent {
        return other.is_sent;
    }
    if other.is_sent {
        return false;
    }
    true
}

/// What keeps a unit waiting in a step, if this wait is its own and anything does.
fn wait_on(unit: u32, waiting: &Waiting) -> Option<Wait>
    ensures value { result ≡ wait_on_unit unit waiting.now }
    ensures step { flat_map each_step (option_list result) ≡ option_list result }
{
    if waiting.unit != unit {
        return None;
    }
    let why = why_of(waiting.reason)?;
    Some(Wait {
        unit,
        task: waiting.task,
        step: waiting.step,
        count: 1,
        why,
    })
}

/// Why a unit waits, if a reason keeps it waiting.
fn why_of(reason: Reason) -> Option<Why>
    ensures { result ≡ why_of_reason reason }
{
    match reason {
        Reason::NeedsRegister(register, owed) => Some(Why::NeedsRegister(debt(register, owed))),
        Reason::NeedsHead => Some(Why::NeedsHead),
        Reason::HasToPass(register, owed) => Some(Why::HasToPass(debt(register, owed))),
        Reason::HasFinished => Some(Why::HasFinished),
        Reason::CouldGoOn => None,
    }
}

/// Who owes a register.
fn debt(register: Reg, owed: Owed) -> Debt
    ensures { result ≡ record { register = register; task = owed.task; unit = owed.unit; is_sent = owed.is_sent } }
{
    Debt {
        register: register.get(),
        task: owed.task,
        unit: owed.unit,
        is_sent: owed.is_sent,
    }
}
