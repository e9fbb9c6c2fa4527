//! The report of each job of the program, and its exit status.
//!
//! To add a job, add what it writes to `specs/`, with its line in `IsReportOf`, the module that writes it, and its arm in
//! `serve`.
#![tactic(auto)]

pub mod alone;
mod curve_caption;
pub mod curving;
pub mod event_text;
pub mod fault;
pub mod machine_text;
pub mod ran;
mod replay_form;
pub mod replaying;
pub mod running;
pub mod scheduled;
pub mod serve;
mod telling;
