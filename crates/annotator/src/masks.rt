//! Which registers may still be written, instruction by instruction.
//!
//! What a task may write from an instruction on does not depend on the task, since where tasks end is
//! marked at the instructions. So the masks are found once for the whole program: registers spread
//! backward along inner edges. An instruction waits again only when its mask has grown, which is 33
//! times at most: the time is linear in the number of instructions, however loops are nested.

ghost use Rattle.std.specs.Prelude.{◌≡◌, ℕ, ◌<◌, ◌||◌, true, length, IfOk, OnOk, IfSome, IfNone};
ghost use Rattle.std.specs.List.{range_with_len, All};
ghost use Rattle.mips_instructions.specs.Words.{has};
ghost use Rattle.annotator.specs.Spreading.{AreExact, AreDestinations, Widened, room_of};

use crate::leading::leading;
use mips_instructions::number::RegSet;
use std::alloc::{AllocError, Global};
use task_descriptor::descriptor::Marked;
use task_descriptor::program::Program;

/// For each instruction the registers that some path from it along inner edges writes.
pub(crate) fn least_masks(alloc: Global, program: &Program) -> Result<Vec<RegSet>, AllocError>
    ensures { IfOk result (λ v. AreExact program.now v.items) }
{
    let sources = leading(alloc, program)?;
    let mut masks = destinations(alloc, program.code())?;
    let mut work = indices(alloc, masks.len() as u32)?;
    while let Some(j) = work.pop() {
        let mask = masks[j as usize];
        widen(&sources[j as usize], mask, &mut masks, &mut work)?;
    }
    Ok(masks)
}

/// What each instruction writes.
fn destinations(alloc: Global, code: &[Marked]) -> Result<Vec<RegSet>, AllocError>
    ensures { IfOk result (λ v. AreDestinations code.now (length code.now) v.items) }
{
    let mut masks = Vec::with_capacity(alloc, code.len())?;
    for marked in code {
        masks.push(marked.op.dests())?;
    }
    Ok(masks)
}

/// The numbers below `count`, rising.
fn indices(alloc: Global, count: u32) -> Result<Vec<u32>, AllocError>
    ensures { IfOk result (λ v. v.items ≡ range_with_len 0 count) }
{
    let mut list = Vec::with_capacity(alloc, count as usize)?;
    for i in 0..count {
        list.push(i)?;
    }
    Ok(list)
}

/// Puts the registers of a mask into the masks of the sources; a source whose mask grew waits.
fn widen(
    sources: &[u32],
    mask: RegSet,
    masks: &mut Vec<RegSet>,
    work: &mut Vec<u32>,
) -> Result<(), AllocError>
    requires { All (λ i. i < length masks.old.items) sources.now }
    ensures { OnOk result (Widened sources.now mask masks.old.items masks.new.items work.old.items work.new.items) }
{
    for source in sources {
        let i = *source as usize;
        if let Some(joined) = grown(masks[i], mask) {
            work.push(*source)?;
            masks[i] = joined;
        }
    }
    Ok(())
}

/// The set with the registers of the mask added; `None` where it has them all.
fn grown(set: RegSet, mask: RegSet) -> Option<RegSet>
    ensures smaller_room { IfSome result (λ joined. room_of joined < room_of set) }
    ensures members { IfSome result (λ joined. (r : ℕ) → has joined r ≡ (has set r || has mask r)) }
    ensures none { IfNone result ((r : ℕ) → has mask r ≡ true → has set r ≡ true) }
{
    let joined = set.union(mask);
    if joined.bits() > set.bits() {
        Some(joined)
    } else {
        None
    }
}
