//! Certificates: for each task of a program, the registers that may still be written at each of its instructions.
//! Also the text that spells a certificate. The masks refine the create mask of Sohi, Breach, Vijaykumar,
//! "Multiscalar Processors", ISCA 1995, section 2.2.
#![tactic(auto)]

pub mod block;
pub mod certificate;
pub mod fault;
mod fault_text;
pub mod laws;
mod left;
pub mod masks;
pub mod part;
pub mod reading;
pub mod writing;
