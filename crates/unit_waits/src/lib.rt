//! Why units wait: in each step of a run, which units at work after the head do nothing, and what holds them back.
//!
//! And a waveform of the run, as a Value Change Dump (IEEE 1364-2005, section 18). Units have their numbers round the
//! ring, from 0; steps are numbered from 1.
#![tactic(auto)]

mod acting;
mod alike;
pub mod between;
mod changes;
pub mod count;
pub mod counts;
mod header;
mod one_step;
mod reasons;
mod ring;
mod signals;
mod steps;
mod unit;
pub mod waiting;
pub mod waits;
pub mod waveform;
