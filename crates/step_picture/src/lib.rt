//! A run in steps drawn as an SVG 1.1 file: a lane for each unit, a bar for each life, and strips that show the waits.
//!
//! Long runs are summed by stretches of equal length. What the shapes mean is proved; how they are written is not.
#![tactic(auto)]

pub mod chart;
pub mod drawing;
mod part;
pub mod predictor_text;
mod sheet;
pub mod steps;
pub mod strips;
