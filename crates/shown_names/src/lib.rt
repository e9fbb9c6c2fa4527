//! How names that others gave are shown, so that no file's name or command's word steers a terminal or ends a line.
#![tactic(auto)]

pub mod letters;
pub mod name;
pub mod shell;
