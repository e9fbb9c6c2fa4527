//! A unit's port on the register ring: what arrived from the unit before it and what it sent.
//! The ring and its accumulated mask are the paper's (Sohi, Breach, Vijaykumar, "Multiscalar Processors", ISCA
//! 1995, section 2).
#![tactic(auto)]

pub mod held;
pub mod members;
pub mod port;
