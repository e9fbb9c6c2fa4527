//! The multiscalar machine over an accepted program: the processor, the history of its events, and what holds of it.
//! The machine is always the replay of its history. It is the paper's (Sohi, Breach, Vijaykumar, "Multiscalar
//! Processors", ISCA 1995, section 2), with events in place of cycles.
#![tactic(auto)]

pub mod accepted_laws;
mod bursts;
mod history;
mod laws;
pub mod log_laws;
pub mod machine;
pub mod predict;
mod ready;
mod units;
