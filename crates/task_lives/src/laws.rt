//! The theorems about lives. Each is the contract of a function that does nothing; to use one, call its function.

ghost use Rattle.task_lives.specs.Laws.{HistoriesFit, LivesAddUp};

use machine_model::laws::events_count;

/// In every list of events that a machine allows, each Exec and each Squash is at the position of a unit at work, and each
/// Drop at one of these or directly after them, as `lives_of_runs` requires.
pub fn histories_fit()
    ensures { HistoriesFit }
{
    events_count();
}

/// The lives of a history that a machine allows account for all of its events: each Assign begins one life, and each life
/// retired, was squashed, was dropped or is unfinished. The retired ones are the machine's commits, in their order, and
/// executed its c instructions; the unfinished ones are its units at work; and the lives executed each instruction of the
/// history, none twice.
pub fn lives_add_up()
    ensures { LivesAddUp }
{
    events_count();
}
