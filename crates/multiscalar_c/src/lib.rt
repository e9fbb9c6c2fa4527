//! The calls from C: each job of the program over texts in memory, on the caller's thread, into a buffer of the caller.
//!
//! Each call returns the exit status of the program, 0 to 3; `len` is then the length of what the program would write,
//! which is at the start of `out`. Or it returns 256: `out` is too short, and `len` is what it needs; 257: memory ran out;
//! 258: a number is out of its range, or a name is not UTF-8. `out` is then as it was, and after 257 and 258 `len` is 0.
//! No call keeps anything, so several threads may call at once.
#![tactic(auto)]

mod answer;
mod codes;
pub mod exports;
#[cfg(test)]
mod tests;
mod texts;
