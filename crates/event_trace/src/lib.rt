//! The trace of a machine: each event with its answer and what it changed; and a run as a timeline.
//!
//! A trace is in words or in lines of JSON, a timeline in the Trace Event Format, which Perfetto opens. What an event
//! changed, how a machine is at the end and what a timeline has is proved; how these are written is not.
#![tactic(auto)]

pub mod change;
mod changes;
pub mod ending;
mod foreseen;
mod foresight;
mod instruction;
pub mod laws;
pub mod notes;
mod objects;
pub mod pipeline;
pub mod places;
mod registers;
pub mod ring;
pub mod source;
pub mod streaming;
pub mod telling;
pub mod text;
pub mod timeline;
pub mod timeline_text;
mod times;
pub mod told;
pub mod unit_change;
pub mod walk;
