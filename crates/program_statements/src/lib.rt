//! What the tokens of one line of a program text mean, before names are resolved.
//! Mnemonics are as in MIPS assemblers; tasks and marks are the paper's (Sohi, Breach, Vijaykumar, "Multiscalar
//! Processors", ISCA 1995).
#![tactic(auto)]

mod directive;
pub mod fault;
pub mod line;
mod list;
mod marks;
mod operand;
mod range;
mod row;
pub mod statement;
