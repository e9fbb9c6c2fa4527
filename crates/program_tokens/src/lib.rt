//! The lines of a program text and the tokens of a line: the first two stages of the assembler.
#![tactic(auto)]

mod kind;
pub mod line;
mod number;
pub mod origin;
mod register;
pub mod span;
pub mod token;
mod word;
