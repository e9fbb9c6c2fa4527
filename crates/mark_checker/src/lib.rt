//! The checker: twelve rules that compare a program's annotations with a certificate.
//!
//! A certificate gives masks: for places of each task the registers that the task may still write from there
//! on. The rules look at single places, and are enough to show that the create masks, forward bits, releases,
//! stops and targets of the whole program are right, whatever path a run takes; nothing is assumed of who made
//! the certificate.
#![tactic(auto)]

pub mod accept;
mod append;
pub mod check;
pub mod finding;
pub mod laws;
mod look;
mod place;
mod quiet;
pub mod survey;
