//! The instructions of the MIPS integer profile without delay slots: what each reads, writes and computes.
//! Also registers and sets of them, and code indices with their addresses. Nothing here touches memory.
#![tactic(auto)]

pub mod arithmetic;
pub mod instruction;
pub mod number;
pub mod places;
pub mod registers;
