//! Where `jr` and `jalr` lead, as a walk over the program's calls sees it, such as behind which calls a `jr` returns.
//!
//! What the walk finds is a proposal: no contract says that it is right, since nothing rests on it. One thing is proved:
//! where a jump is said to come back from a call, there is a call before.
#![tactic(auto)]

mod function;
mod held;
pub mod returns;
mod state;
mod walk;
