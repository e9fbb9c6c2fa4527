//! Releases that may be forgotten: where a task comes on a way on which it does not write a register again, and sends it only
//! at its end. Each is proposed freely, and judged: with it the marks are right, and a run in steps takes fewer steps.
#![tactic(auto)]

mod ahead;
mod attempt;
mod base;
mod due;
mod proposal;
pub mod releasing;
pub mod trial;
mod waited;
pub mod warning;
