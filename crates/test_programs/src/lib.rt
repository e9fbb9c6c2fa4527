//! The program texts and certificates that the tests share, and how they are read and accepted.
#![tactic(auto)]

pub mod acceptance;
pub mod certificates;
pub mod programs;
