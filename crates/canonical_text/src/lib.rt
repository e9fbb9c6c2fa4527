//! Prints a program as its canonical text, which reads back as that program.
//! A law states the round trip. Also: a program's create masks and forward bits written into another text of
//! it, line by line.
#![tactic(auto)]

mod editing;
pub mod fault;
mod instructions;
mod labels;
pub mod laws;
pub mod marking;
mod pieces;
pub mod print;
mod ranges;
mod reading;
