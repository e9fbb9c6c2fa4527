//! Diagnostics about a program's marks: errors, each with a path that shows it and a remedy, and warnings.
#![tactic(auto)]

pub mod error;
mod mask;
mod sending;
mod strayed;
mod together;
pub mod told;
pub mod warning;
