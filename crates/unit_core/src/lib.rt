//! The units of the multiscalar processor: each executes one task, instruction by instruction.
//! It waits for registers, sends others, and leaves memory to the head (Sohi, Breach, Vijaykumar, "Multiscalar
//! Processors", ISCA 1995, section 2).
#![tactic(auto)]

pub mod burst;
mod execution;
pub mod laws;
pub mod read_log;
pub mod state;
mod step;
pub mod unit;
pub mod wait;
pub mod world;
