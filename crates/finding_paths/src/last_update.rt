//! Last updates without a forward bit.

ghost use Rattle.std.specs.Prelude.{◌≡◌, ℕ, ◌<◌, ◌↔◌, true, Some, length, IsSome, slice_get};
ghost use Rattle.mips_instructions.specs.Words.{has};
ghost use Rattle.mask_certificate.specs.Lists.{list_of, mask_at};
ghost use Rattle.mark_checker.specs.CheckerSteps.{holds_at};
ghost use Rattle.mark_checker.specs.Rules.{in_mask};
ghost use Rattle.annotator.specs.Least.{IsLeast};
ghost use Rattle.annotator.specs.Marking.{WrittenBehind};
ghost use Rattle.finding_paths.specs.Costly.{IsNotForwarded};
ghost use Rattle.finding_paths.specs.Steps.{AllHave, AreReaching};

use crate::reaching::{is_awaited, some_task_lacks};
use annotator::updates::writes_last;
use mask_certificate::certificate::Cert;
use mips_instructions::number::RegSet;
use task_descriptor::program::Program;
use task_graph::edges::next_inside;

/// Whether the instruction could have a forward bit, and has none.
pub(crate) fn is_not_forwarded(
    program: &Program,
    cert: &Cert,
    reaching: &[Option<u32>],
    common: RegSet,
    index: u32,
) -> bool
    requires least { IsLeast program.now cert.now }
    requires table { AreReaching program.now (length program.now.tasks) reaching.now }
    requires common { AllHave program.now.tasks (length program.now.tasks) common }
    requires there { index < length program.now.code }
    ensures { (result ≡ true) ↔ IsNotForwarded program.now index }
{
    let marked = &program.code()[index as usize];
    if marked.forward {
        return false;
    }
    let Some(task) = reaching[index as usize] else {
        return false;
    };
    let again = written_behind(program, cert, task, index);
    if !writes_last(&marked.op, again) {
        return false;
    }
    if is_awaited(program, cert, task, index) {
        !some_task_lacks(program, cert, common, index, marked.op.dests())
    } else {
        false
    }
}

/// The registers that paths from the inner successors of the instruction, which the task reaches, may write.
fn written_behind(program: &Program, cert: &Cert, task: u32, index: u32) -> RegSet
    requires least { IsLeast program.now cert.now }
    requires task { task < length program.now.tasks }
    requires reaches { IsSome (mask_at (list_of cert.now task) index) }
    ensures { (r : ℕ) → (has result r ≡ true) ↔ WrittenBehind program.now index r }
{
    let next = next_inside(program, index);
    mask_of(cert, task, next.first).union(mask_of(cert, task, next.second))
}

/// The mask of the task at an index, if there is one.
fn mask_of(cert: &Cert, task: u32, index: Option<u32>) -> RegSet
    ensures { (r : ℕ) → has result r ≡ holds_at index (λ j. in_mask (mask_at (list_of cert.now task) j) r) }
{
    match index {
        Some(j) => mask_or_empty(cert.mask(task, j)),
        None => RegSet::empty(),
    }
}

/// A mask; no register where there is none.
fn mask_or_empty(mask: Option<RegSet>) -> RegSet
    ensures { (r : ℕ) → has result r ≡ in_mask mask r }
{
    match mask {
        Some(mask) => mask,
        None => RegSet::empty(),
    }
}
