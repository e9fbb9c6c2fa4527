//! Which task begins at a place.

ghost use Rattle.std.specs.Prelude.{◌≡◌, ◌==◌, find};
ghost use Rattle.std.specs.Option.{option_copied};

use task_descriptor::descriptor::Descriptor;

/// The task that begins at a place.
pub(crate) fn task_at(tasks: &[Descriptor], place: u32) -> Option<&Descriptor>
    ensures { option_copied result ≡ find (λ t. t.entry == place) tasks.now }
{
    tasks.iter().find(|task| task.entry.get() == place)
}
