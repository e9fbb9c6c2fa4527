//! Diagnostics about the exits of tasks: where they lead, and which stop is missing or on the wrong line.
//!
//! They also tell what may be meant as a delay slot, what a call returns to, and which tasks never run. Instructions and
//! places are code indexes, tasks are numbers from 0.
#![tactic(auto)]

pub mod advice;
pub mod call;
pub mod exit;
pub mod going;
pub mod jump;
pub mod meant;
pub mod needless;
pub mod remark;
pub mod stop;
