//! Annotated programs: the instructions with their marks, and the tasks with their descriptors.
//! Task descriptors, create masks, forward and stop bits are the paper's (Sohi, Breach, Vijaykumar,
//! "Multiscalar Processors", ISCA 1995, section 2.2).
#![tactic(auto)]

mod build_fault_text;
mod check;
pub mod descriptor;
pub mod marks;
pub mod name;
pub mod places;
pub mod program;
mod registers;
mod same;
