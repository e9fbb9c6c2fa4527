//! Event scripts: texts that list a machine's events, one on each line, as `replay` reads and `run` writes them.
#![tactic(auto)]

pub mod bad_line;
pub mod fault;
mod fault_text;
pub mod laws;
mod name_key;
pub mod reading;
pub mod task_names;
pub mod writing;
