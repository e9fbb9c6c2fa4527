//! The limits of machines and runs: how many units, workers and events there may be.
//! Each limit is written here once; the numbers that keep to one have types of their own.
#![tactic(auto)]

pub mod ranges;
