//! Diagnostics for a text that spells no program: all that is wrong with it.
//!
//! Each has its place, what else shows it, and what to do.
#![tactic(auto)]

mod advice;
mod compiled;
mod faulty_line;
mod given;
mod item_said;
mod line_fix;
mod line_said;
mod mistakes;
mod place;
pub mod refusal;
mod section;
mod tree;
