//! Entries at which it is plain from the survey that no rule finds anything.

ghost use Rattle.std.specs.Prelude.{◌≡◌, true, Some, slice_get};
ghost use Rattle.task_descriptor.specs.declared.descriptor.Marked.{Marked};
ghost use Rattle.mark_checker.specs.Rules.{conditions};
ghost use Rattle.mark_checker.specs.Places.{IsClean};
ghost use Rattle.mark_checker.specs.Looks.{IsQuiet};

use crate::look::Look;
use crate::place::{ahead_at, common, is_nobody};
use crate::survey::Survey;
use mask_certificate::masks::Masks;
use mips_instructions::number::RegSet;
use task_descriptor::descriptor::Descriptor;

/// Whether it is plain from the survey that no rule finds anything at an entry of a task's list. `false`
/// leaves it open.
#[inline]
pub(crate) fn is_quiet(
    survey: &Survey<'_>,
    masks: &Masks<'_>,
    descriptor: &Descriptor,
    index: u32,
    mask: RegSet,
) -> bool
    ensures { result ≡ true → (m : Marked) → slice_get survey.now.code index ≡ Some m
        → IsClean (conditions survey.now descriptor.now masks.now index m (Some mask)) }
{
    match survey.looks().get(index as usize) {
        Some(look) => {
            index != descriptor.entry.get() && is_quiet_inside(look, masks, descriptor.create, mask)
        }
        None => false,
    }
}

/// Whether no rule besides those of the entry finds anything at an instruction that is looked at.
#[inline]
fn is_quiet_inside(look: &Look, masks: &Masks<'_>, create: RegSet, mask: RegSet) -> bool
    ensures { result ≡ true → IsQuiet look.now masks.now create mask }
{
    let first = ahead_at(masks, widened(look.next.first));
    let second = ahead_at(masks, widened(look.next.second));
    if !look.stays || first.without_mask || second.without_mask {
        return false;
    }
    let next = first.masks.union(second.masks);
    let lost = look.written.union(next).minus(mask);
    let again = common(look.sent, next);
    let beside = look.sent.minus(create);
    is_nobody(lost.union(again.union(beside)))
}

fn widened(index: Option<u16>) -> Option<u32>
    ensures { result ≡ index }
{
    match index {
        Some(index) => Some(u32::from(index)),
        None => None,
    }
}
