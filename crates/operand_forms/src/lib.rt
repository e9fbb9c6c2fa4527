//! The operands that each statement takes: their forms and ranges, as `explain` names them.
//!
//! The laws say that the assembler reads exactly these. Here, too, are the words of other assemblers, with what is written
//! instead of them, and the known words that are near an unknown one.
#![tactic(auto)]

pub mod bytes;
pub mod candidates;
pub mod foreign_words;
pub mod form;
pub mod laws;
pub mod line_fault;
pub mod line_place;
pub mod meant;
pub mod own_words;
pub mod rows;
pub mod shape;
pub mod slices;
mod strings;
