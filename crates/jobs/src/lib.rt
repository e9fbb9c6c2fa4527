//! The jobs of the program: what each is to do, with which files, and the numbers that it takes.
//!
//! Each number has its range in its type.
#![tactic(auto)]

pub mod job;
pub mod ranges;
