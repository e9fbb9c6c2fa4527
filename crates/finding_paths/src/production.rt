//! What the instructions of a task write or release.

ghost use Rattle.std.specs.Prelude.{◌≡◌, ℕ, ◌<◌, ◌↔◌, ◌&&◌, true, false, Some, length, slice_get};
ghost use Rattle.mips_instructions.specs.Words.{has};
ghost use Rattle.mips_instructions.specs.Instruction.{released as released_by};
ghost use Rattle.task_descriptor.specs.declared.descriptor.Descriptor.{Descriptor};
ghost use Rattle.annotator.specs.Least.{IsLeast};
ghost use Rattle.annotator.specs.Proposed.{Produces};
ghost use Rattle.finding_paths.specs.Costly.{IsNeverProduced};

use crate::reaching::has_target;
use annotator::updates::produced_at;
use mask_certificate::certificate::Cert;
use mips_instructions::instruction::Op;
use mips_instructions::number::RegSet;
use task_descriptor::program::Program;

/// The registers of a task's create mask that it never produces; none for a task without a target.
pub(crate) fn spare(program: &Program, cert: &Cert, task: u32) -> RegSet
    requires least { IsLeast program.now cert.now }
    requires there { task < length program.now.tasks }
    ensures { (r : ℕ) → (has result r ≡ true) ↔ IsNeverProduced program.now task r }
{
    let descriptor = &program.tasks()[task as usize];
    if has_target(descriptor) {
        descriptor.create.minus(produced(program, cert, task))
    } else {
        RegSet::empty()
    }
}

/// The registers that the instructions which the task reaches write or release.
fn produced(program: &Program, cert: &Cert, task: u32) -> RegSet
    requires least { IsLeast program.now cert.now }
    requires there { task < length program.now.tasks }
    ensures { (d : Descriptor) → slice_get program.now.tasks task ≡ Some d → (r : ℕ) → (has result r ≡ true) ↔ Produces program.now d r }
{
    produced_at(program.code(), cert.list(task))
}

/// Whether the instruction is a release.
pub(crate) fn is_release(op: &Op) -> bool
    ensures { result ≡ false → (r : ℕ) → released_by op.now r ≡ false }
{
    match op {
        Op::Release(_) => true,
        _ => false,
    }
}

/// The registers that an instruction releases.
pub(crate) fn released(op: &Op) -> RegSet
    ensures { (r : ℕ) → has result r ≡ released_by op.now r }
{
    match op {
        Op::Release(set) => *set,
        _ => RegSet::empty(),
    }
}
