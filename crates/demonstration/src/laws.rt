//! The theorems about what no list of events can show. Each is the contract of a function that does nothing; to use one,
//! call it.

ghost use Rattle.task_descriptor.specs.Listing.{IsWellFormed};
ghost use Rattle.task_graph.specs.Soundness.{Sound};
ghost use Rattle.demonstration.specs.Laws.{SoundMarksShowNothing, ShowsNothing};

use mark_checker::accept::Accepted;

/// Where the marks are sound, no list of events shows what the sequential program never does.
pub fn sound_marks_show_nothing()
    ensures { SoundMarksShowNothing }
{}

/// What an `Accepted` keeps.
fn kept(accepted: &Accepted)
    ensures formed { IsWellFormed accepted.now.program }
    ensures sound { Sound accepted.now.program }
{
    let _ = accepted.program().start();
}

/// No list of events shows a harm of a program that the checker accepts, on any number of units.
pub fn accepted_shows_nothing(accepted: &Accepted)
    ensures { ShowsNothing accepted.now.program }
{
    sound_marks_show_nothing();
    kept(accepted);
}
