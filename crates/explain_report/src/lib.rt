//! The report of `explain`: the diagnostics for a program text, a certificate and an event script, as one list.
//!
//! It is rendered as text, as a log in SARIF 2.1.0, or as lines of JSON. Here, too, is what `annotate` could not mend.
#![tactic(auto)]

mod beside;
pub mod explained;
pub mod explaining;
pub mod given;
pub mod laws;
pub mod logging;
pub mod order;
pub mod proposal;
pub mod repairing;
