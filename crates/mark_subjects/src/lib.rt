//! The subject of diagnostics about marks, a program with its text, and the parts that these diagnostics are made of.
//!
//! The parts are labels, registers as the author writes them, places and their lines, paths and their steps. Instructions
//! and places are code indexes, tasks are numbers from 0, registers are numbers from 0 to 33 (32: HI, 33: LO); lines and
//! columns count from 1, columns in bytes. Each `Made` has `AllocError` where memory was refused.
#![tactic(auto)]

pub mod mark_place;
pub mod parts;
pub mod put_stop;
mod spelling;
pub mod step;
pub mod subject;
pub mod targets;
