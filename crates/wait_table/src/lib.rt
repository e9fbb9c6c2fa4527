//! The waits of a run, counted: how often which task waited where, and for what; their table, and the same as comma separated
//! values.
//!
//! The counts are proved, how they are written is not.
#![tactic(auto)]

pub mod csv;
pub mod kinds;
mod order;
pub mod table;
pub mod text;
