//! The theorem about the rows, as the contract of a function that does nothing; to use it, call the function.

ghost use Rattle.speed_curve.specs.Laws.{AreDetermined};

/// A program, a budget and a predictor determine the list of rows of each length: it is of the synchronous schedule, in
/// which nothing is left to chance.
pub fn rows_are_determined()
    ensures { AreDetermined }
{}
