//! A long text that is held as a few pieces, each in memory of its own, so that several threads fetch and read it.
//! Its value is its bytes, one after another. Only code that takes the pieces sees where it is cut: always
//! after an LF, so that each line lies in one piece. Also: bytes that are cut at the first of one kind; and the
//! fetch of one text by several workers.
#![tactic(auto)]

pub mod cutting;
pub mod parts;
pub mod piece;
pub mod positioned;
pub mod serial;
pub mod shared;
pub mod text;
