//! The theorems. To use one, call its function on an accepted program.

ghost use Rattle.task_descriptor.specs.Listing.{IsWellFormed};
ghost use Rattle.task_graph.specs.Soundness.{Sound};
ghost use Rattle.mark_checker.specs.Places.{IsAccepted};
ghost use Rattle.sequencer.specs.OfAccepted.{Headline, RunEnds, NeverStuck, PlacesMasked, ReplayedPlacesMasked, AllMasksFit, SentStays};

use machine_model::laws::{
    headline, how_a_run_ends, never_stuck, places_are_valid, sent_registers_stay,
};
use mark_checker::accept::Accepted;
use mark_checker::laws::{accepted_entry, accepted_place};

/// What an `Accepted` keeps.
fn kept(accepted: &Accepted)
    ensures formed { IsWellFormed accepted.now.program }
    ensures sound { Sound accepted.now.program }
    ensures accepted { IsAccepted accepted.now.program accepted.now.cert }
{
    let _ = accepted.program().start();
}

/// Law: after every list of events that the machine of an accepted program allows, units interleaved in any
/// way, with wrong predictions, squashes, drops and repeated assignments of tasks among them, what the retired
/// tasks read is what the plain machine's first c instructions read, and these are c; each retired exit is
/// listed; output and memory are the plain machine's after h instructions, and so is each register of the head.
pub fn accepted_headline(accepted: &Accepted)
    ensures { Headline accepted.now.program }
{
    kept(accepted);
    headline();
}

/// Law: a run of an accepted program ends Halted or Trapped as the plain machine is after h instructions, or
/// Unlisted at an address where the plain machine, still running, is about to fetch, and that the head's task
/// does not list.
pub fn accepted_run_ends(accepted: &Accepted)
    ensures { RunEnds accepted.now.program }
{
    kept(accepted);
    how_a_run_ends();
}

/// Law: with one unit or more, while the run of an accepted program continues there is a head event, and the
/// machine step allows it.
pub fn accepted_never_stuck(accepted: &Accepted)
    ensures { NeverStuck accepted.now.program }
{
    kept(accepted);
    never_stuck();
}

/// Law: a unit of an accepted program whose place is valid, and that has not stopped, is before an instruction
/// that has a mask in its task's list.
pub fn places_masked(accepted: &Accepted)
    ensures { PlacesMasked accepted.now }
{
    kept(accepted);
    accepted_place();
    accepted_entry();
}

/// Law: in every state that a list of events leaves, whatever the registers hold, on a wrong path too, each
/// unit that has not stopped is before an instruction that has a mask in its task's list.
pub fn replayed_places_masked(accepted: &Accepted)
    ensures { ReplayedPlacesMasked accepted.now }
{
    kept(accepted);
    places_are_valid();
    places_masked(accepted);
}

/// Law: the masks of each task's list fit: a mask holds what its instruction writes and what the masks of the
/// inner successors hold, and none of these holds what the instruction sends.
pub fn masks_fit(accepted: &Accepted)
    ensures { AllMasksFit accepted.now }
{
    kept(accepted);
    accepted_place();
}

/// Law: where none of the registers that a unit of an accepted program sent is in the mask of the unit's place,
/// this holds after each Exec too, and each keeps its value.
pub fn accepted_sent_stays(accepted: &Accepted)
    ensures { SentStays accepted.now }
{
    places_masked(accepted);
    masks_fit(accepted);
    sent_registers_stay();
}
