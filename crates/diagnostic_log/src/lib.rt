//! Diagnostics for tools: a log in the format SARIF 2.1.0 (an OASIS standard), and lines of JSON.
//!
//! Nothing here has a contract on what it writes.
#![tactic(auto)]

mod artifact;
mod columns;
pub mod json_lines;
mod paths;
mod results;
mod rules;
pub mod sarif;
