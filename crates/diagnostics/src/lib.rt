//! What is reported about a program, its marks, its certificate or an event script: values, and their text form.
//!
//! Each renderer puts the values into its own form; the text form here is the one of gcc and clang. Here, too, is which
//! known words are near an unknown one.
#![tactic(auto)]

pub mod code;
pub mod colour;
pub mod diagnostic;
mod excerpt;
pub mod files;
pub mod helps;
pub mod laws;
pub mod listed;
pub mod more;
pub mod near;
pub mod quotation;
pub mod text;
pub mod words;
