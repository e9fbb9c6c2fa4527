//! The predictors of a run in steps.

use sequencer::predict::Script;

/// The predictor of a run in steps: which target is followed after a task that has not stopped.
#[derive(Debug, Drop)]
pub enum Predictor {
    /// The first target.
    First,
    /// The last target.
    Last,
    /// The target at the position that a list gives, modulo the number of targets; the list is used over and
    /// over.
    Script(Script),
}
