//! The theorems about changes. Each is the contract of a function that does nothing; to use one, call its function.

ghost use Rattle.event_trace.specs.Laws.{ChangesAreTheRun, ChangesAreTheStep, LivesAreOfChanges};

use machine_model::laws::{events_count, next_is_after};

/// The changes of an event that is allowed are all that can be seen of it: the observed state before it, with these
/// changes, is the observed state after it.
pub fn changes_are_the_step()
    ensures { ChangesAreTheStep }
{}

/// For every list of events that a machine allows, the observed state after them follows from the observed state before them
/// and from their changes.
pub fn changes_are_the_run()
    ensures { ChangesAreTheRun }
{
    next_is_after();
}

/// The life of each task in a history that a machine allows is the one that the changes of its events tell, on any number of
/// units: lists and pictures that are made from lives say no more than changes do.
pub fn lives_are_of_changes()
    ensures { LivesAreOfChanges }
{
    next_is_after();
    events_count();
}
