//! The lives of tasks, each from its assignment to a unit to its retirement, squash or drop, and the summary of a run.
//!
//! They are read off the history of a machine; the summary is counted over the lives.
#![tactic(auto)]

pub mod csv;
mod following;
pub mod laws;
pub mod life;
pub mod lives;
pub mod summary;
pub mod tally;
