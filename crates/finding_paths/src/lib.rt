//! Findings with the paths that show them, and marks that are sound but cost time.
//! A path goes through the program to where the mark that the checker reports goes wrong.
//!
//! No trust rests on this crate: a path is checked against its definition, whatever was found.
#![tactic(auto)]

mod first;
mod last_update;
pub mod laws;
pub mod mark;
pub mod paths;
mod production;
pub mod query;
mod reaching;
pub mod search;
mod sending;
pub mod shown;
pub mod sought;
mod table;
mod trail;
mod visits;
