//! The multiscalar machine as a model: its events, when each is allowed, what it leaves, and theorems about runs.
//! The theorems are over every list of events. A law is a function with an empty body, whose contract is the
//! theorem. The machine is the paper's (Sohi, Breach, Vijaykumar, "Multiscalar Processors", ISCA 1995, section
//! 2).
#![tactic(auto)]

pub mod event;
pub mod laws;
mod refused_text;
