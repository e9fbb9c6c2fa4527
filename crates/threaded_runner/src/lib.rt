//! A run by threads over one machine: one lock, a worker for each unit or for several, and bursts away from the lock.
#![tactic(auto)]

mod away;
mod choosing;
mod counts;
mod deeds;
mod desk;
pub mod gate;
mod held;
mod hold;
pub mod laws;
mod machine_laws;
mod naming;
mod next;
mod pace;
mod patience;
pub mod report;
pub mod runner;
mod serving;
mod share;
mod slots;
mod station;
mod worker;
