//! What the theorems about the model give for every event that nothing refuses.

ghost use Rattle.std.specs.Prelude.{◌≡◌, ℕ, None};
ghost use Rattle.machine_model.specs.Machine.{State};
ghost use Rattle.machine_model.specs.Step.{Next};
ghost use Rattle.machine_model.specs.Answer.{refusal, after};
ghost use Rattle.machine_model.specs.declared.event.Event.{Event};
ghost use Rattle.machine_model.specs.declared.event.Standing.TheVariants as standing;

use machine_model::laws::answer_is_next;
use task_descriptor::program::Program;

/// While the run continues and nothing refuses an event, the machine step allows it; the call does
/// nothing.
pub(crate) fn known(program: &Program)
    ensures { (units : ℕ) (s : State) (e : Event) → s.outcome ≡ standing.Running → refusal program.now units s e ≡ None → Next program.now units s e (after program.now s e) }
{
    // Reading a program's start gives that it is well formed, which the law requires.
    let _ = program.start();
    answer_is_next();
}
