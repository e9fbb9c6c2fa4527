//! Laws: each function does nothing, and its contract is a theorem about the definitions alone.

ghost use Rattle.std.specs.Prelude.{◌≡◌, ℕ, List, length};
ghost use Rattle.task_descriptor.specs.Listing.{Listing};
ghost use Rattle.machine_model.specs.Machine.{State};
ghost use Rattle.machine_model.specs.Replay.{Replays};
ghost use Rattle.machine_model.specs.declared.event.Event.{Event};
ghost use Rattle.threaded_runner.specs.Counts.{retired_by, active_by};

use machine_model::laws::events_count;

/// Law: how many tasks have retired and how many units are at work follows from the history alone.
pub fn history_counts()
    ensures { (p : Listing) (units : ℕ) (history : List Event) (s : State) → Replays p units history s
        → (retired_by history ≡ length s.commits) × (active_by history ≡ length s.queue) }
{
    events_count();
}
