//! Diagnostics about the texts that are given with a program: a certificate and an event script.
//!
//! Each kind of mistake is a row of advice.
#![tactic(auto)]

mod advice;
pub mod certificate;
mod expectation;
mod lines;
mod masks;
mod meant;
pub mod mistaken;
mod refused;
pub mod script;
pub mod unfit;
