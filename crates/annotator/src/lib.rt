//! Annotates programs: finds whether the marks are sound, and which to propose, from the least certificate.
//!
//! No trust rests on this crate: its results are checked like a stranger's.
#![tactic(auto)]

pub mod certify;
pub mod laws;
mod leading;
mod marks;
mod masks;
pub mod propose;
pub mod soundness;
pub mod updates;
