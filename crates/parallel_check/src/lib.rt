//! Checks a program against a certificate by several workers; the answer is one checker's, whatever their number.
//! Each worker draws the numbers of tasks and checks those tasks; what they found is put together in the order
//! of the tasks. Whatever the number of workers and the order in which they come, the answer is the same.
#![tactic(auto)]

pub mod checking;
pub mod fault;
mod found;
pub mod gate;
mod numbers;
pub mod reading;
