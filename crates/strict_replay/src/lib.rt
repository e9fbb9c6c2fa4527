//! A strict replay: the events of a script on a machine, and whether each is allowed and does what the script expects.
#![tactic(auto)]

pub mod departure;
mod effect;
pub mod expectation;
mod expected;
pub mod judging;
mod object;
mod reading;
pub mod replaying;
mod site;
mod slip;
pub mod stand;
mod text;
pub mod writing;
