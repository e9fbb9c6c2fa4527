//! The processor at one moment: the queue of units on a ring, memory, and what retired; and how each event changes it.
//! The circular queue of units with a head and a tail is the paper's (Sohi, Breach, Vijaykumar, "Multiscalar
//! Processors", ISCA 1995, section 2).
#![tactic(auto)]

mod allowed;
mod changes;
mod head;
mod known;
mod listing;
pub mod processor;
mod queue;
mod ready;
mod tries;
