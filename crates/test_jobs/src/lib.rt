//! Tests of what no row of a table can show of the program: readers, writers and files in memory that fail.
//!
//! A writer that keeps back what is not flushed shows that reports and messages about faults arrive. Files in memory show
//! that a result that goes to a file is there whole, or that the file is as it was.
#![tactic(auto)]

#[cfg(test)]
mod bench;
#[cfg(test)]
mod files;
#[cfg(test)]
mod results_in_files;
#[cfg(test)]
mod writers;
