//! The judge of a text: the assembler and the checker.

ghost use Rattle.std.specs.Prelude.{◌≡◌, ◌↔◌, IfOk};
ghost use Rattle.judged_fixes.specs.declared.judge.Marks.TheVariants.{Right, Unread};
ghost use Rattle.judged_fixes.specs.Right.{IsRight, IsSaidOf, IsUnread};

use annotated_asm::assembler::assemble;
use annotated_asm::fault::AsmFault;
use annotator::certify::certify;
use annotator::laws::least_decides;
use mark_checker::accept::accepts;
use mark_checker::check::verdict;
use mark_checker::finding::Finding;
use std::alloc::{AllocError, Global};
use task_descriptor::program::Program;

/// The verdict on the marks of a text.
#[derive(Clone, Copy, Debug, PartialEq, Eq)]
pub enum Marks {
    /// The text spells a program whose marks are right.
    Right,
    /// It spells a program whose marks are wrong.
    Wrong,
    /// It spells no program, so it has no marks.
    Unread,
}

impl Marks {
    ghost use Rattle.std.specs.Prelude.{◌≡◌, ◌↔◌, true};
    ghost use Rattle.judged_fixes.specs.declared.judge.Marks.TheVariants.{Right};

    /// Whether the verdict is that the marks are right.
    pub fn are_right(self) -> bool
        ensures { (result ≡ true) ↔ (self ≡ Right) }
    {
        matches!(self, Marks::Right)
    }
}

/// The verdict on the marks of a text: it is assembled and, if it spells a program, checked.
///
/// # Errors
///
/// `AllocError` where memory was refused.
pub fn marks_of(alloc: Global, text: &[u8]) -> Result<Marks, AllocError>
    ensures right { IfOk result (λ marks. (marks ≡ Right) ↔ IsRight text.now) }
    ensures unread { IfOk result (λ marks. (marks ≡ Unread) ↔ IsUnread text.now) }
{
    match assemble(alloc, text) {
        Ok(program) => marks_in(alloc, &program),
        Err(AsmFault::OutOfMemory) => Err(AllocError),
        Err(_) => Ok(Marks::Unread),
    }
}

/// Whether the marks of a program are right.
pub(crate) fn marks_in(alloc: Global, program: &Program) -> Result<Marks, AllocError>
    ensures { IfOk result (IsSaidOf program.now) }
{
    least_decides();
    let least = certify(alloc, program)?;
    if accepts(program, &least) {
        Ok(Marks::Right)
    } else {
        Ok(Marks::Wrong)
    }
}

/// Whether a text spells a program in which the checker does not find this any more.
pub(crate) fn is_gone(alloc: Global, text: &[u8], finding: &Finding) -> Result<bool, AllocError> {
    match assemble(alloc, text) {
        Ok(program) => {
            let least = certify(alloc, &program)?;
            let found = verdict(alloc, &program, &least)?;
            Ok(!found.findings.as_slice().iter().any(|one| *one == *finding))
        }
        Err(AsmFault::OutOfMemory) => Err(AllocError),
        Err(_) => Ok(false),
    }
}
