//! Which tasks reach an instruction, read off the least certificate.

ghost use Rattle.std.specs.Prelude.{◌≡◌, ◌<◌, ◌↔◌, true, length, IfOk};
ghost use Rattle.std.specs.List.{All};
ghost use Rattle.annotator.specs.Least.{IsLeast};
ghost use Rattle.annotator.specs.Proposed.{IsMember};
ghost use Rattle.finding_paths.specs.Costly.{BeginsUnreached, IsAwaited, has_target};
ghost use Rattle.annotator.specs.Marking.{indices_of};
ghost use Rattle.finding_paths.specs.Steps.{AllHave, AreNoted, AreReaching, SomeTaskLacks, TaskIsAwaited, TaskLacks};

use mask_certificate::certificate::Cert;
use mips_instructions::number::RegSet;
use std::alloc::{AllocError, Global};
use task_descriptor::descriptor::Descriptor;
use task_descriptor::program::Program;

/// For each instruction a task that reaches it, if there is one.
pub(crate) fn reaching_tasks(
    alloc: Global,
    program: &Program,
    cert: &Cert,
) -> Result<Vec<Option<u32>>, AllocError>
    requires { IsLeast program.now cert.now }
    ensures { IfOk result (λ v. AreReaching program.now (length program.now.tasks) v.items) }
{
    let mut table = vec![in alloc; None; program.code().len()]?;
    for task in 0..program.tasks().len() {
        note_all(cert.list(task as u32), task as u32, &mut table);
    }
    Ok(table)
}

/// Notes a task at the indices of a list.
fn note_all(list: &[(u32, RegSet)], task: u32, table: &mut [Option<u32>])
    requires { All (λ entry. entry.0 < length table.old) list.now }
    ensures { AreNoted (indices_of list.now) task table.old table.new }
{
    for (index, _) in list {
        table[*index as usize] = Some(task);
    }
}

/// Whether some task reaches the instruction.
pub(crate) fn is_member(program: &Program, reaching: &[Option<u32>], index: u32) -> bool
    requires table { AreReaching program.now (length program.now.tasks) reaching.now }
    requires there { index < length program.now.code }
    ensures { (result ≡ true) ↔ IsMember program.now index }
{
    reaching[index as usize].is_some()
}

/// Registers that the create masks of all tasks have.
#[tactic(auto, using(crate::proofs::Reached::all_have_more))]
pub(crate) fn created_by_all(program: &Program) -> RegSet
    ensures { AllHave program.now.tasks (length program.now.tasks) result }
{
    let mut set = RegSet::from_bits(0x3_ffff_ffff).unwrap_or(RegSet::empty());
    for descriptor in program.tasks() {
        let lacked = set.minus(descriptor.create);
        set = set.minus(lacked);
    }
    set
}

/// Whether some task that reaches the instruction does not have all these registers in its create mask. `common` has registers
/// that all create masks have.
pub(crate) fn some_task_lacks(
    program: &Program,
    cert: &Cert,
    common: RegSet,
    index: u32,
    written: RegSet,
) -> bool
    requires least { IsLeast program.now cert.now }
    requires common { AllHave program.now.tasks (length program.now.tasks) common }
    ensures { (result ≡ true) ↔ SomeTaskLacks program.now index written }
{
    if written.is_subset(common) {
        return false;
    }
    for task in 0..program.tasks().len() {
        if task_lacks(program, cert, task as u32, index, written) {
            return true;
        }
    }
    false
}

/// Whether the task reaches the instruction and does not have all these registers in its create mask.
fn task_lacks(program: &Program, cert: &Cert, task: u32, index: u32, written: RegSet) -> bool
    requires least { IsLeast program.now cert.now }
    requires there { task < length program.now.tasks }
    ensures { (result ≡ true) ↔ TaskLacks program.now task index written }
{
    if cert.mask(task, index).is_none() {
        return false;
    }
    !written.is_subset(program.tasks()[task as usize].create)
}

/// Whether some task that has a target reaches the instruction: this one, or another.
pub(crate) fn is_awaited(program: &Program, cert: &Cert, first: u32, index: u32) -> bool
    requires least { IsLeast program.now cert.now }
    requires there { first < length program.now.tasks }
    ensures { (result ≡ true) ↔ IsAwaited program.now index }
{
    if task_is_awaited(program, cert, first, index) {
        return true;
    }
    for task in 0..program.tasks().len() {
        if task_is_awaited(program, cert, task as u32, index) {
            return true;
        }
    }
    false
}

/// Whether the task reaches the instruction and has a target.
fn task_is_awaited(program: &Program, cert: &Cert, task: u32, index: u32) -> bool
    requires least { IsLeast program.now cert.now }
    requires there { task < length program.now.tasks }
    ensures { (result ≡ true) ↔ TaskIsAwaited program.now task index }
{
    if cert.mask(task, index).is_none() {
        return false;
    }
    has_target(&program.tasks()[task as usize])
}

/// Whether a task has a target.
pub(crate) fn has_target(descriptor: &Descriptor) -> bool
    ensures { result ≡ has_target descriptor.now.targets }
{
    match descriptor.targets.as_slice() {
        [] => false,
        _ => true,
    }
}

/// Whether no task reaches the instruction, and it is the first or some task reaches the one before it.
pub(crate) fn begins_unreached(program: &Program, reaching: &[Option<u32>], index: u32) -> bool
    requires table { AreReaching program.now (length program.now.tasks) reaching.now }
    requires there { index < length program.now.code }
    ensures { (result ≡ true) ↔ BeginsUnreached program.now index }
{
    if is_member(program, reaching, index) {
        return false;
    }
    if index == 0 {
        return true;
    }
    is_member(program, reaching, index - 1)
}
