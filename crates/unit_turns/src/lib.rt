//! What the worker of a unit does next: one function of the machine and the number of the unit on the ring.
//! Also the runner that lets the units take turns in steps, and the bells by which workers wake each other.
#![tactic(auto)]

pub mod bell;
pub mod called;
pub mod deciding;
pub mod laws;
mod predicting;
pub mod predictor;
pub mod report;
pub mod runner;
pub mod turn;
mod turns;
