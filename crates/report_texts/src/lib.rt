//! Job reports: what `seq`, `print`, `annotate` and `check` write, and the judgement of a program and its certificate.
//!
//! With this judgement `run`, `replay` and `curve` begin. Here, too, is where a run leaves its tasks.
#![tactic(auto)]

pub mod annotating;
pub mod check_lines;
pub mod checking;
pub mod judging;
pub mod listing;
pub mod plain_text;
pub mod printing;
pub mod report;
pub mod sequential;
pub mod unlisted;
pub mod verdict_text;
