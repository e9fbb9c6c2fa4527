//! Whether a program's annotations are sound: an exact answer.

ghost use Rattle.std.specs.Prelude.{◌≡◌, ◌↔◌, true, IfOk};
ghost use Rattle.task_graph.specs.Soundness.{Sound};

use crate::certify::certify;
use mark_checker::accept::accepts;
use std::alloc::{AllocError, Global};
use task_descriptor::program::Program;

/// Whether the annotations of a program are sound, whatever path a run takes: the checker's answer with the
/// program's least certificate, which is refused only where every other is, too.
///
/// # Errors
///
/// `AllocError` where memory was refused.
pub fn is_sound(alloc: Global, program: &Program) -> Result<bool, AllocError>
    ensures { IfOk result (λ sound. (sound ≡ true) ↔ Sound program.now) }
{
    let cert = certify(alloc, program)?;
    Ok(accepts(program, &cert))
}
