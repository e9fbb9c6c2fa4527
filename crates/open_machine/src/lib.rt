//! A multiscalar machine that takes any well-formed program, whether the checker accepts its marks or not: the
//! processor, changed by one event after another as the machine step specifies.
#![tactic(auto)]

pub mod machine;
