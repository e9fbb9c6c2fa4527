//! How far the marks of a program let its tasks overlap: runs in steps on 1, 2, 3 units and more, as a table, as comma
//! separated values and as a picture.
//!
//! The results and their numbers are proved; how they are written is not. The picture is SVG 1.1.
#![tactic(auto)]

pub mod csv;
pub mod drawing;
pub mod laws;
pub mod numbers;
pub mod row;
mod scale;
mod sheet;
pub mod table;
