//! Tests of public calls: what no clause of a contract says, such as that there is memory, and worked examples.
//!
//! These are the examples that no command line shows. The expected values follow from the rules of the formats, the
//! instructions and the machine, worked out by hand. The tests are in a crate apart from the crates that they call, since
//! a crate with tests is proved a second time. What a command line prints is a row of `test_program`.
#![tactic(auto)]

#[cfg(test)]
mod bursts;
#[cfg(test)]
mod certificates;
#[cfg(test)]
mod checker;
#[cfg(test)]
mod given;
#[cfg(test)]
mod labels;
#[cfg(test)]
mod machines;
#[cfg(test)]
mod plain_machine;
#[cfg(test)]
mod ports;
#[cfg(test)]
mod units;
