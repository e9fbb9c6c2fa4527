//! The program but for its two streams: from its words and files to its exit status.
//!
//! `program::run` is what `main` calls. It is proved over any words, any files and any streams; `words` and `named_files`
//! have those of the system. What it does is in `answer`, for several programs in `each`: `texts` reads the files that a
//! job has, `told` says what went wrong, and `reader` what goes to standard error in addition to a report; `coloring`
//! decides whether lines for a person have colours.
#![tactic(auto)]

pub mod answer;
pub mod asked;
pub mod coloring;
mod each;
pub mod fault;
pub mod hint;
pub mod named_files;
mod part;
pub mod program;
mod reader;
pub mod refusal;
mod releases;
mod reports;
mod shown;
mod streams;
pub mod summary;
pub mod texts;
pub mod told;
pub mod unread;
pub mod usage;
pub mod words;
