//! Runs that show the harm of a wrong mark: the machine allows them, and the sequential program never does the same.
//!
//! Mostly a retired instruction has read another value than the sequential program reads there. A law says that no events
//! show this where the marks are sound. Here, too, is the report of `demonstrate`.
#![tactic(auto)]

mod driven;
mod first_finding;
mod harm_text;
pub mod judge;
mod last_writer;
pub mod laws;
mod picture;
pub mod report;
mod rounds;
pub mod search;
