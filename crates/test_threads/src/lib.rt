//! Tests of what starts threads: that the workers share the work, and meet.
#![tactic(auto)]

#[cfg(test)]
mod bells;
#[cfg(test)]
mod checks;
#[cfg(test)]
mod counts;
#[cfg(test)]
mod gates;
#[cfg(test)]
mod given;
#[cfg(test)]
mod runs;
