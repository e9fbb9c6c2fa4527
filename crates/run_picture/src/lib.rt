//! A run drawn as an SVG 1.1 file: a lane for each unit, events or steps from left to right, a bar for each life.
//!
//! Long runs are summed by stretches of equal length. What the shapes of a picture mean is proved; where they are, and how
//! they are written, is not. Units have their numbers round the ring, from 0; lengths are in hundredths of a pixel.
#![tactic(auto)]

pub mod bars;
pub mod chart;
pub mod drawing;
pub mod events;
pub mod frame;
mod heads;
pub mod marks;
pub mod queue;
pub mod scale;
pub mod shape;
pub mod shape_text;
pub mod sheet;
pub mod stretch_tallies;
pub mod stretches;
pub mod title;
pub mod words_text;
