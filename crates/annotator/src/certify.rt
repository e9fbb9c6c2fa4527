//! The least certificate of a program.

ghost use Rattle.std.specs.Prelude.{◌≡◌, ◌<◌, length, slice_get, IfOk, OnOk, Some};
ghost use Rattle.task_descriptor.specs.Listing.{IsWellFormed};
ghost use Rattle.task_descriptor.specs.declared.descriptor.Descriptor.{Descriptor};
ghost use Rattle.annotator.specs.Least.{IsLeast, LeastList};
ghost use Rattle.annotator.specs.Spreading.{AreExact};

use crate::masks::least_masks;
use mask_certificate::certificate::Cert;
use mips_instructions::number::RegSet;
use std::alloc::{AllocError, Global};
use task_descriptor::program::Program;
use task_graph::members::members;

/// The certificate with the least masks: for each task one list, a code index in it exactly where the task
/// reaches the instruction, and its mask exactly the registers that some path from there writes. It does not
/// change the marks.
///
/// # Errors
///
/// `AllocError` where memory was refused.
pub fn certify(alloc: Global, program: &Program) -> Result<Cert, AllocError>
    ensures least { IfOk result (λ cert. IsLeast program.now cert) }
    ensures well_formed { OnOk result (IsWellFormed program.now) }
{
    let masks = least_masks(alloc, program)?;
    certificate(alloc, program, &masks)
}

/// The certificate with these masks.
pub(crate) fn certificate(
    alloc: Global,
    program: &Program,
    masks: &[RegSet],
) -> Result<Cert, AllocError>
    requires { AreExact program.now masks.now }
    ensures least { IfOk result (λ cert. IsLeast program.now cert) }
    ensures well_formed { OnOk result (IsWellFormed program.now) }
{
    let count = program.tasks().len();
    let mut lists = Vec::with_capacity(alloc, count)?;
    for task in 0..count {
        lists.push(list_of_task(alloc, program, masks, task as u32)?)?;
    }
    match Cert::build(lists) {
        Ok(cert) => Ok(cert),
        Err(_) => unreachable!(),
    }
}

/// The masks of what a task reaches.
fn list_of_task(
    alloc: Global,
    program: &Program,
    masks: &[RegSet],
    task: u32,
) -> Result<Vec<(u32, RegSet)>, AllocError>
    requires masks { AreExact program.now masks.now }
    requires well_formed { IsWellFormed program.now }
    requires there { task < length program.now.tasks }
    ensures { IfOk result
        (λ v. (d : Descriptor) → slice_get program.now.tasks task ≡ Some d → LeastList program.now d v.items) }
{
    let reached = members(alloc, program, task)?;
    let mut list = Vec::with_capacity(alloc, reached.len())?;
    for i in &reached {
        list.push((*i, masks[*i as usize]))?;
    }
    Ok(list)
}
