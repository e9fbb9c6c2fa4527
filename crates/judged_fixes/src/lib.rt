//! The trial of fixes: what helps propose is written into a copy of the text, which is assembled and checked.
//!
//! The assembler and the checker say of that copy whether its marks are right. How a proposal was found does not matter.
#![tactic(auto)]

pub mod edit;
pub mod fixed;
pub mod judge;
pub mod judged;
pub mod mended;
mod places;
pub mod proposal;
pub mod refused;
