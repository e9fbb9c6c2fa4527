//! The control flow graph of an annotated program: inner edges and exits of tasks, and each task's instructions.
//! Also a step of a search along edges.
#![tactic(auto)]

pub mod edges;
pub mod members;
pub mod search;
