//! Laws of every machine over an accepted program, from the theorems about the model.

ghost use Rattle.std.specs.Prelude.{◌≡◌, ℕ, ◌+◌, ◌<◌, ◌≤◌, List, [], ◌∷◌, ◌++◌, None, length};
ghost use Rattle.std.specs.List.{All};
ghost use Rattle.machine_model.specs.Machine.{State};
ghost use Rattle.machine_model.specs.Step.{Next};
ghost use Rattle.machine_model.specs.Replay.{ReplaysFrom, Replays};
ghost use Rattle.machine_model.specs.Answer.{refusal, after};
ghost use Rattle.machine_model.specs.Claims.{count_h};
ghost use Rattle.machine_model.specs.HeadEvent.{growth};
ghost use Rattle.machine_model.specs.declared.event.Event.{Event};
ghost use Rattle.processor_steps.specs.Processors.{executed_by};
ghost use Rattle.sequencer.specs.Rings.{AreDistinct, EventFits};

use machine_model::laws::{answer_is_next, events_count, events_grow, next_is_after, replays_join};
use mark_checker::accept::Accepted;

/// Each clause is a law of the replays of an accepted program; the call does nothing.
pub(crate) fn accepted_replays(accepted: &Accepted)
    ensures is_after { (units : ℕ) (s s' : State) (e : Event) → Next accepted.now.program units s e s' → s' ≡ after accepted.now.program s e }
    ensures allowed { (units : ℕ) (s s' : State) (e : Event) → Next accepted.now.program units s e s' → refusal accepted.now.program units s e ≡ None }
    ensures grows { (units : ℕ) (s s' : State) (e : Event) → Next accepted.now.program units s e s' → count_h s' ≡ count_h s + growth s e }
    ensures more { (units : ℕ) (first second : List Event) (s s' : State) → Replays accepted.now.program units first s → ReplaysFrom accepted.now.program units s second s' → Replays accepted.now.program units (first ++ second) s' }
    ensures executed { (units : ℕ) (events : List Event) (s : State) → Replays accepted.now.program units events s → executed_by s ≤ length events }
    ensures fits { (units : ℕ) (events : List Event) (s : State) → Replays accepted.now.program units events s → length s.queue ≤ units }
    ensures distinct { (units : ℕ) (events : List Event) (s : State) → Replays accepted.now.program units events s → AreDistinct s.queue }
    ensures in_range { (units : ℕ) (events : List Event) (s : State) → 0 < units → Replays accepted.now.program units events s → All (EventFits (length accepted.now.program.tasks) units) events }
    ensures assigned { (units : ℕ) (events : List Event) (s : State) → Replays accepted.now.program units events s → s.assigns ≤ length events }
{
    // Reading a program's start gives that it is well formed, which the laws require.
    let _ = accepted.program().start();
    answer_is_next();
    next_is_after();
    replays_join();
    events_count();
    events_grow();
}
