//! The assembler: a program text with its tasks and marks becomes a program.
//! The text format is our own, in the style of MIPS assemblers; tasks and marks are the paper's (Sohi, Breach,
//! Vijaykumar, "Multiscalar Processors", ISCA 1995). Also the map from instructions, tasks, targets and data to
//! their lines.
#![tactic(auto)]

pub mod assembler;
pub mod fault;
mod fault_text;
mod item;
pub mod laws;
mod layout;
pub mod line;
mod name_key;
mod places;
pub mod position;
pub mod reading;
mod resolve;
mod table;
