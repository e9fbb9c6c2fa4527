//! Whether marks fit their instruction.

ghost use Rattle.std.specs.Prelude.{◌≡◌, ℕ, Some, position};
ghost use Rattle.std.specs.List.{list_any};
ghost use Rattle.mips_instructions.specs.Words.{has};
ghost use Rattle.task_descriptor.specs.Listing.{registers, has_destination as has_destination_of, is_conditional as is_conditional_of, stop_fits as stop_fits_of, release_fits as release_fits_of, is_bad_mark as is_bad_mark_of, has_bad_mask as has_bad_mask_of};

use crate::descriptor::{Descriptor, Marked, Stop};
use mips_instructions::instruction::Op;
use mips_instructions::number::RegSet;

pub(crate) fn bad_mark(code: &[Marked]) -> Option<usize>
    ensures { result ≡ position is_bad_mark_of code.now }
{
    code.iter().position(is_bad_mark)
}

fn is_bad_mark(marked: &Marked) -> bool
    ensures { result ≡ is_bad_mark_of marked.now }
{
    (marked.forward && !has_destination(&marked.op))
        || !stop_fits(marked.stop, &marked.op)
        || !release_fits(&marked.op)
}

fn has_destination(op: &Op) -> bool
    ensures { result ≡ has_destination_of op.now }
{
    has_member(op.dests())
}

/// Whether the set of registers has a member.
pub fn has_member(set: RegSet) -> bool
    ensures { result ≡ list_any (has set) registers }
{
    set.bits() != 0
}

fn is_conditional(op: &Op) -> bool
    ensures { result ≡ is_conditional_of op.now }
{
    matches!(op, Op::BranchTwo(..) | Op::BranchOne(..))
}

fn stop_fits(stop: Stop, op: &Op) -> bool
    ensures { result ≡ stop_fits_of stop op.now }
{
    match stop {
        Stop::None => true,
        Stop::Always => !matches!(op, Op::Halt),
        Stop::Taken | Stop::NotTaken => is_conditional(op),
    }
}

fn release_fits(op: &Op) -> bool
    ensures { result ≡ release_fits_of op.now }
{
    match op {
        Op::Release(set) => has_member(*set) && !has_zero(*set),
        _ => true,
    }
}

fn has_zero(set: RegSet) -> bool
    ensures { result ≡ has set 0 }
{
    set.bits() % 2 == 1
}

pub(crate) fn has_bad_mask(tasks: &[Descriptor]) -> bool
    ensures { result ≡ has_bad_mask_of tasks.now }
{
    tasks.iter().any(|task| has_zero(task.create))
}
