//! Which waits are counted together.

ghost use Rattle.std.specs.Prelude.{◌≡◌};
ghost use Rattle.unit_waits.specs.declared.waiting.Reason.TheVariants.{NeedsRegister, HasToPass};
ghost use Rattle.unit_waits.specs.Counts.{is_alike as is_alike_to, is_same_debt as is_same_debt_as, is_same_place as is_same_place_as, is_same_reason as is_same_reason_as};

use crate::waiting::{Owed, Reason, Waiting};
use machine_model::event::Spot;
use mips_instructions::number::Reg;

/// Whether two places are the same.
fn is_same_place(place: &Spot, other: &Spot) -> bool
    ensures { result ≡ is_same_place_as place.now other.now }
{
    match (*place, *other) {
        (Spot::Inside(index), Spot::Inside(other)) => index == other,
        (Spot::Stopped(exit), Spot::Stopped(other)) => exit == other,
        _ => false,
    }
}

/// Whether two registers that are owed are the same one, owed by units of one task that both have sent it or
/// both have not.
fn is_same_debt(register: Reg, owed: &Owed, other: Reg, debt: &Owed) -> bool
    ensures { result ≡ is_same_debt_as register owed.now other debt.now }
{
    if register.get() != other.get() || owed.task != debt.task {
        return false;
    }
    if owed.is_sent {
        debt.is_sent
    } else {
        !debt.is_sent
    }
}

/// Whether a reason is that the next instruction needs a register that is owed like this one.
fn is_same_need(register: Reg, owed: &Owed, other: &Reason) -> bool
    ensures { result ≡ is_same_reason_as (NeedsRegister register owed.now) other.now }
{
    match *other {
        Reason::NeedsRegister(another, debt) => is_same_debt(register, owed, another, &debt),
        _ => false,
    }
}

/// Whether a reason is that a register owed like this one has to be passed on.
fn is_same_duty(register: Reg, owed: &Owed, other: &Reason) -> bool
    ensures { result ≡ is_same_reason_as (HasToPass register owed.now) other.now }
{
    match *other {
        Reason::HasToPass(another, debt) => is_same_debt(register, owed, another, &debt),
        _ => false,
    }
}

/// Whether two units wait for the same reason. Where it is a register that is owed, the units that owe it may differ.
fn is_same_reason(reason: &Reason, other: &Reason) -> bool
    ensures { result ≡ is_same_reason_as reason.now other.now }
{
    match *reason {
        Reason::NeedsRegister(register, owed) => is_same_need(register, &owed, other),
        Reason::NeedsHead => matches!(other, Reason::NeedsHead),
        Reason::HasToPass(register, owed) => is_same_duty(register, &owed, other),
        Reason::HasFinished => matches!(other, Reason::HasFinished),
        Reason::CouldGoOn => matches!(other, Reason::CouldGoOn),
    }
}

/// Whether two waits are of the same task, at the same place and for the same reason.
pub(crate) fn is_alike(waiting: &Waiting, other: &Waiting) -> bool
    ensures { result ≡ is_alike_to waiting.now other.now }
{
    if waiting.task != other.task {
        return false;
    }
    if !is_same_place(&waiting.place, &other.place) {
        return false;
    }
    is_same_reason(&waiting.reason, &other.reason)
}
