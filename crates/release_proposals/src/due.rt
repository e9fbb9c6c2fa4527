//! Where a release is due. In a program with right marks, what a mask has was not sent before. So where one edge of a branch
//! leads to fewer of these registers than the other, the rest is sent at the end of the task, unless it is released.

ghost use Rattle.std.specs.Prelude.{◌≡◌, ◌<◌, length, IfOk};

use crate::ahead::{Ahead, all_ahead};
use mask_certificate::certificate::Cert;
use mips_instructions::number::RegSet;
use std::alloc::{AllocError, Global};
use task_descriptor::program::Program;
use task_graph::edges::next_inside;

/// The registers that are due to be released at an instruction: no way from there on writes or releases them.
#[derive(Clone, Copy, Debug, PartialEq, Eq)]
pub(crate) struct Due {
    /// The code index of the instruction.
    pub(crate) index: u32,
    pub(crate) registers: RegSet,
    /// Whether they come unsent from elsewhere than from the instruction above.
    pub(crate) is_jumped_to: bool,
}

// Puts the masks of a task into the table.
fn put_masks(table: &mut Vec<RegSet>, list: &[(u32, RegSet)])
    ensures { length table.new.items ≡ length table.old.items }
{
    for (index, mask) in list {
        if let Some(place) = table.get_mut(*index as usize) {
            *place = *mask;
        }
    }
}

// The mask of each instruction, which is the same in each task that reaches it; empty where none does.
fn masks_of(alloc: Global, program: &Program, least: &Cert) -> Result<Vec<RegSet>, AllocError>
    ensures { IfOk result (λ table. length table.items ≡ length program.now.code) }
{
    let mut table = vec![in alloc; RegSet::empty(); program.code().len()]?;
    for task in 0..program.tasks().len() {
        put_masks(&mut table, least.list(task as u32));
    }
    Ok(table)
}

// Adds what is due behind an edge, of a mask without what the instruction writes; whether that is anything.
fn add_edge(dues: &mut Vec<Due>, masks: &[RegSet], from: u32, mask: RegSet, to: u32) -> bool {
    let (Some(behind), Some(due)) = (masks.get(to as usize), dues.get_mut(to as usize)) else {
        return false;
    };
    let more = mask.minus(*behind);
    due.index = to;
    due.registers = due.registers.union(more);
    due.is_jumped_to |= !more.is_empty() && to.checked_sub(1) != Some(from);
    !more.is_empty()
}

// Adds what is due behind each instruction from which two edges lead on; whether that is anything.
fn add_branches(program: &Program, masks: &[RegSet], dues: &mut Vec<Due>) -> bool
    requires { length masks.now ≡ length program.now.code }
{
    let mut is_some = false;
    for (from, marked) in program.code().iter().enumerate() {
        let next = next_inside(program, from as u32);
        if let (Some(first), Some(second)) = (next.first, next.second) {
            let mask = masks[from].minus(marked.op.dests());
            is_some |= add_edge(dues, masks, from as u32, mask, first);
            is_some |= add_edge(dues, masks, from as u32, mask, second);
        }
    }
    is_some
}

// Of what is due at each instruction, that which no later instruction releases, on ways that lead to another task.
fn kept(alloc: Global, dues: &[Due], table: &[Ahead]) -> Result<Vec<Due>, AllocError> {
    let mut list = Vec::new(alloc);
    for (due, ahead) in dues.iter().zip(table.iter()) {
        let registers = due.registers.minus(ahead.released);
        if ahead.goes_on && !registers.is_empty() {
            list.push(Due { registers, ..*due })?;
        }
    }
    Ok(list)
}

/// Where releases are due in a program with right marks, by rising code index, each index once. `least` is the program's least
/// certificate.
///
/// # Errors
///
/// `AllocError` where memory was refused.
pub(crate) fn dues_in(
    alloc: Global,
    program: &Program,
    least: &Cert,
) -> Result<Vec<Due>, AllocError> {
    let masks = masks_of(alloc, program, least)?;
    let nothing = Due {
        index: 0,
        registers: RegSet::empty(),
        is_jumped_to: false,
    };
    let mut dues = vec![in alloc; nothing; program.code().len()]?;
    if add_branches(program, &masks, &mut dues) {
        let table = all_ahead(alloc, program)?;
        kept(alloc, &dues, &table)
    } else {
        Ok(Vec::new(alloc))
    }
}
