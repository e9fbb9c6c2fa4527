//! Writes a result file whole or not at all: nobody who may not read the old file sees the new one meanwhile.
//! Also: writing to a stream, so that it is known what was written where it fails.
#![tactic(auto)]

pub mod folder;
pub mod replacing;
pub mod rights;
pub mod size_limit;
pub mod system;
pub mod unwritten;
pub mod writing;
