//! What the rules find at one place: an instruction of a task with its mask.

use crate::survey::Survey;
use mask_certificate::masks::Masks;
use mips_instructions::instruction::Op;
use mips_instructions::number::RegSet;
use task_descriptor::descriptor::{Descriptor, Marked, Stop};
use task_descriptor::program::Program;
use task_graph::edges::{Next, exits_of, next_inside};

/// What the rules find at one place.
#[derive(Clone, Copy)]
pub(crate) struct Faults {
    pub(crate) entry: EntryFaults,
    pub(crate) inside: InsideFaults,
}

/// What rules 1, 5 and 12 find: nothing except at the task's entry.
#[derive(Clone, Copy)]
pub(crate) struct EntryFaults {
    pub(crate) without_mask: bool,
    pub(crate) exceeds_create: RegSet,
    pub(crate) target_not_entry: bool,
}

/// What the other rules find: nothing except where there is a mask.
#[derive(Clone, Copy)]
pub(crate) struct InsideFaults {
    pub(crate) next_without_mask: bool,
    pub(crate) lacks_destination: RegSet,
    pub(crate) lacks_next: RegSet,
    pub(crate) forwarded_in_next: RegSet,
    pub(crate) released_in_next: RegSet,
    pub(crate) sent_not_created: RegSet,
    pub(crate) exit_not_listed: bool,
    pub(crate) falls_off: bool,
    pub(crate) indirect_goes_on: bool,
}

/// What is found at the inner successors of an instruction.
#[derive(Clone, Copy)]
pub(crate) struct Ahead {
    /// One of them has no mask.
    pub(crate) without_mask: bool,
    /// The registers of their masks.
    pub(crate) masks: RegSet,
}

ghost use Rattle.std.specs.Prelude.{◌≡◌, ℕ, ◌<◌, ◌≤◌, ◌↔◌, true, false, not, ◌&&◌, ◌||◌, length, Some, None, slice_get, is_none, nat_eq, nat_lt, nat_le};
ghost use Rattle.std.specs.List.{list_any};
ghost use Rattle.mips_instructions.specs.Words.{has};
ghost use Rattle.mips_instructions.specs.Instruction.{dests, released};
ghost use Rattle.task_graph.specs.Edges.{ends_of, sends, is_indirect};
ghost use Rattle.task_graph.specs.Soundness.{is_target, is_entry};
ghost use Rattle.mask_certificate.specs.Lists.{mask_at};
ghost use Rattle.mark_checker.specs.Rules.{conditions, in_mask, next_has, stops_always};
ghost use Rattle.mark_checker.specs.Places.{IsClean};
ghost use Rattle.mark_checker.specs.CheckerSteps.{holds_at, told, Same};

/// What the rules find at an instruction at its index, with its mask or none.
#[inline]
pub(crate) fn faults_at(
    survey: &Survey<'_>,
    masks: &Masks<'_>,
    descriptor: &Descriptor,
    marked: &Marked,
    index: u32,
    mask: Option<RegSet>,
) -> Faults
    requires { slice_get survey.now.code index ≡ Some marked.now }
    ensures { Same (told result) (conditions survey.now descriptor.now masks.now index marked.now mask) }
{
    let inside = match &mask {
        Some(mask) => masked_faults(survey.program(), masks, descriptor, marked, index, *mask),
        None => maskless_faults(),
    };
    let entry = entry_faults(survey, descriptor, index, mask);
    Faults { entry, inside }
}

/// What the rules of the entry find at a place.
#[inline]
fn entry_faults(
    survey: &Survey<'_>,
    descriptor: &Descriptor,
    index: u32,
    mask: Option<RegSet>,
) -> EntryFaults
    ensures without_mask { result.without_mask ≡ (nat_eq index descriptor.now.entry && is_none mask) }
    ensures exceeds_create { (r : ℕ) → has result.exceeds_create r ≡ (nat_eq index descriptor.now.entry && (in_mask mask r && not (has descriptor.now.create r))) }
    ensures target_not_entry { result.target_not_entry ≡ (nat_eq index descriptor.now.entry && list_any (λ j. not (is_entry survey.now j)) descriptor.now.targets) }
{
    if index != descriptor.entry.get() {
        return EntryFaults {
            without_mask: false,
            exceeds_create: RegSet::empty(),
            target_not_entry: false,
        };
    }
    EntryFaults {
        without_mask: mask.is_none(),
        exceeds_create: registers_of(mask).minus(descriptor.create),
        target_not_entry: has_bad_target(survey, descriptor),
    }
}

fn maskless_faults() -> InsideFaults
    ensures next_without_mask { result.next_without_mask ≡ false }
    ensures lacks_destination { (r : ℕ) → has result.lacks_destination r ≡ false }
    ensures lacks_next { (r : ℕ) → has result.lacks_next r ≡ false }
    ensures forwarded_in_next { (r : ℕ) → has result.forwarded_in_next r ≡ false }
    ensures released_in_next { (r : ℕ) → has result.released_in_next r ≡ false }
    ensures sent_not_created { (r : ℕ) → has result.sent_not_created r ≡ false }
    ensures exit_not_listed { result.exit_not_listed ≡ false }
    ensures falls_off { result.falls_off ≡ false }
    ensures indirect_goes_on { result.indirect_goes_on ≡ false }
{
    InsideFaults {
        next_without_mask: false,
        lacks_destination: RegSet::empty(),
        lacks_next: RegSet::empty(),
        forwarded_in_next: RegSet::empty(),
        released_in_next: RegSet::empty(),
        sent_not_created: RegSet::empty(),
        exit_not_listed: false,
        falls_off: false,
        indirect_goes_on: false,
    }
}

/// What the other rules find at an instruction with this mask.
#[inline]
fn masked_faults(
    program: &Program,
    masks: &Masks<'_>,
    descriptor: &Descriptor,
    marked: &Marked,
    index: u32,
    mask: RegSet,
) -> InsideFaults
    requires { slice_get program.now.code index ≡ Some marked.now }
    ensures next_without_mask { result.next_without_mask
        ≡ list_any (λ j. nat_lt j (length program.now.code) && is_none (mask_at masks.now j)) (ends_of false marked.now index) }
    ensures lacks_destination { (r : ℕ) → has result.lacks_destination r ≡ (dests marked.now.op r && not (has mask r)) }
    ensures lacks_next { (r : ℕ) → has result.lacks_next r ≡ (next_has program.now masks.now marked.now index r && not (has mask r)) }
    ensures forwarded_in_next { (r : ℕ) → has result.forwarded_in_next r
        ≡ ((marked.now.forward && dests marked.now.op r) && next_has program.now masks.now marked.now index r) }
    ensures released_in_next { (r : ℕ) → has result.released_in_next r
        ≡ (released marked.now.op r && next_has program.now masks.now marked.now index r) }
    ensures sent_not_created { (r : ℕ) → has result.sent_not_created r ≡ (sends marked.now r && not (has descriptor.now.create r)) }
    ensures exit_not_listed { result.exit_not_listed ≡ list_any (λ j. not (is_target descriptor.now j)) (ends_of true marked.now index) }
    ensures falls_off { result.falls_off ≡ list_any (λ j. nat_le (length program.now.code) j) (ends_of false marked.now index) }
    ensures indirect_goes_on { result.indirect_goes_on ≡ (is_indirect marked.now.op && not (stops_always marked.now.stop)) }
{
    let ahead = ahead_of(program, masks, marked, index);
    let exits = exits_of(program, index);
    let written = marked.op.dests();
    let forwarded = forwarded_by(marked, written);
    let named = released_by(&marked.op);
    let sent = forwarded.union(named);
    let lacks_destination = written.minus(mask);
    let lacks_next = ahead.masks.minus(mask);
    let forwarded_in_next = common(forwarded, ahead.masks);
    let released_in_next = common(named, ahead.masks);
    let sent_not_created = sent.minus(descriptor.create);
    let exit_not_listed = exits_unlisted(descriptor, exits.direct);
    let indirect_goes_on = goes_on_indirectly(marked);
    InsideFaults {
        next_without_mask: ahead.without_mask,
        lacks_destination,
        lacks_next,
        forwarded_in_next,
        released_in_next,
        sent_not_created,
        exit_not_listed,
        falls_off: exits.falls_off,
        indirect_goes_on,
    }
}

/// What is found at the inner successors.
#[inline]
fn ahead_of(program: &Program, masks: &Masks<'_>, marked: &Marked, index: u32) -> Ahead
    requires { slice_get program.now.code index ≡ Some marked.now }
    ensures without_mask { result.without_mask
        ≡ list_any (λ j. nat_lt j (length program.now.code) && is_none (mask_at masks.now j)) (ends_of false marked.now index) }
    ensures masks { (r : ℕ) → has result.masks r ≡ next_has program.now masks.now marked.now index r }
{
    let next = next_inside(program, index);
    let first = ahead_at(masks, next.first);
    let second = ahead_at(masks, next.second);
    let without_mask = first.without_mask || second.without_mask;
    Ahead {
        without_mask,
        masks: first.masks.union(second.masks),
    }
}

#[inline]
pub(crate) fn ahead_at(masks: &Masks<'_>, next: Option<u32>) -> Ahead
    ensures without_mask { result.without_mask ≡ holds_at next (λ j. is_none (mask_at masks.now j)) }
    ensures masks { (r : ℕ) → has result.masks r ≡ holds_at next (λ j. in_mask (mask_at masks.now j) r) }
{
    match next {
        Some(index) => {
            let mask = masks.at(index);
            Ahead {
                without_mask: mask.is_none(),
                masks: registers_of(mask),
            }
        }
        None => Ahead {
            without_mask: false,
            masks: RegSet::empty(),
        },
    }
}

/// Whether one of the exits is not listed.
fn exits_unlisted(descriptor: &Descriptor, exits: Next) -> bool
    ensures { result ≡ (holds_at exits.first (λ j. not (is_target descriptor.now j)) || holds_at exits.second (λ j. not (is_target descriptor.now j))) }
{
    let first = is_unlisted(descriptor, exits.first);
    let second = is_unlisted(descriptor, exits.second);
    first || second
}

fn is_unlisted(descriptor: &Descriptor, exit: Option<u32>) -> bool
    ensures { result ≡ holds_at exit (λ j. not (is_target descriptor.now j)) }
{
    match exit {
        Some(index) => !is_listed(descriptor, index),
        None => false,
    }
}

fn is_listed(descriptor: &Descriptor, index: u32) -> bool
    ensures { result ≡ is_target descriptor.now index }
{
    descriptor
        .targets
        .as_slice()
        .iter()
        .any(|target| index == target.get())
}

/// Whether a listed target is no task's entry.
fn has_bad_target(survey: &Survey<'_>, descriptor: &Descriptor) -> bool
    ensures { result ≡ list_any (λ j. not (is_entry survey.now j)) descriptor.now.targets }
{
    descriptor
        .targets
        .as_slice()
        .iter()
        .any(|target| !survey.begins_task(*target))
}

/// The registers of a mask; none where there is no mask.
fn registers_of(mask: Option<RegSet>) -> RegSet
    ensures { (r : ℕ) → has result r ≡ in_mask mask r }
{
    match mask {
        Some(mask) => mask,
        None => RegSet::empty(),
    }
}

/// The registers that the instruction forwards, where these are the ones that it writes.
pub(crate) fn forwarded_by(marked: &Marked, written: RegSet) -> RegSet
    requires { (r : ℕ) → has written r ≡ dests marked.now.op r }
    ensures { (r : ℕ) → has result r ≡ (marked.now.forward && dests marked.now.op r) }
{
    if marked.forward {
        written
    } else {
        RegSet::empty()
    }
}

/// The registers that a `release` names.
pub(crate) fn released_by(op: &Op) -> RegSet
    ensures { (r : ℕ) → has result r ≡ released op.now r }
{
    match op {
        Op::Release(set) => *set,
        _ => RegSet::empty(),
    }
}

/// The registers of both sets.
pub(crate) fn common(one: RegSet, other: RegSet) -> RegSet
    ensures { (r : ℕ) → has result r ≡ (has one r && has other r) }
{
    one.minus(one.minus(other))
}

/// Whether a jump to an address in a register doesn't stop always.
pub(crate) fn goes_on_indirectly(marked: &Marked) -> bool
    ensures { result ≡ (is_indirect marked.now.op && not (stops_always marked.now.stop)) }
{
    match &marked.op {
        Op::JumpReg(_) | Op::JumpLinkReg(_, _) => marked.stop != Stop::Always,
        _ => false,
    }
}

ghost use Rattle.std.specs.Prelude.{◌^◌, []};
ghost use Rattle.mark_checker.specs.Rules.{found};

/// Whether the rules find nothing.
#[inline]
pub(crate) fn is_clean(faults: &Faults) -> bool
    ensures clean { (result ≡ true) → IsClean (told faults.now) }
    ensures nothing { (t i : ℕ) → found t i (told faults.now) ≡ [] → result ≡ true }
{
    !has_flag(faults) && is_nobody(registers(faults))
}

/// Whether a rule without registers finds something.
fn has_flag(faults: &Faults) -> bool
    ensures { result ≡ (faults.now.entry.without_mask || (faults.now.inside.next_without_mask || (faults.now.inside.exit_not_listed
        || (faults.now.inside.falls_off || (faults.now.inside.indirect_goes_on || faults.now.entry.target_not_entry))))) }
{
    faults.entry.without_mask
        || faults.inside.next_without_mask
        || faults.inside.exit_not_listed
        || faults.inside.falls_off
        || faults.inside.indirect_goes_on
        || faults.entry.target_not_entry
}

/// The registers at which some rule finds something.
fn registers(faults: &Faults) -> RegSet
    ensures { (r : ℕ) → has result r ≡ (has faults.now.inside.lacks_destination r || (has faults.now.inside.lacks_next r || (has faults.now.entry.exceeds_create r
        || (has faults.now.inside.forwarded_in_next r || (has faults.now.inside.released_in_next r || has faults.now.inside.sent_not_created r))))) }
{
    let inside = faults.inside;
    let sent = inside
        .forwarded_in_next
        .union(inside.released_in_next.union(inside.sent_not_created));
    inside.lacks_destination.union(
        inside
            .lacks_next
            .union(faults.entry.exceeds_create.union(sent)),
    )
}

/// Whether the set has no member; only members below 34 need to be checked.
pub(crate) fn is_nobody(set: RegSet) -> bool
    ensures all { (result ≡ true) → (r : ℕ) → has set r ≡ false }
    ensures below { ((r : ℕ) → r < 34 → has set r ≡ false) → result ≡ true }
{
    set.bits() == 0
}

ghost use Rattle.mark_checker.specs.CheckerSteps.{begun_after as begun_after_of};

/// Whether the task's entry is done after the next index of its list, `begun` telling whether it was
/// before; `None` where it is passed over.
pub(crate) fn begun_after(begun: bool, index: u32, entry: u32) -> Option<bool>
    ensures { result ≡ begun_after_of begun index entry }
{
    if begun || index == entry {
        Some(true)
    } else if index < entry {
        Some(false)
    } else {
        None
    }
}
