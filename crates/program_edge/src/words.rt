//! The words of a process.
ghost use Rattle.program_edge.specs.Asking.{KnownWords, AnyWords, AreWordsOf};

use crate::fault::Fault;
use std::alloc::{AllocError, Global};
use std::env;
use std::io::ErrorKind;

/// A source of the words of a command line.
pub trait ProcessWords {
    // What is known of the words.
    ghost known_words: { Self → KnownWords };

    /// The words, the program's own name first.
    ///
    /// # Errors
    ///
    /// `NoText` where one of them is no text, `OutOfMemory` where memory ran out.
    fn words(&self, alloc: Global) -> Result<Vec<String>, Fault>
        ensures { AreWordsOf (known_words self.now) result };
}

/// The words of this process, of which nothing is known.
impl ProcessWords for HostRuntime {
    ghost known_words = { λ _. AnyWords };

    fn words(&self, alloc: Global) -> Result<Vec<String>, Fault> {
        match env::args(self) {
            Ok(words) => words
                .collect(alloc)
                .map_err(|_: AllocError| Fault::OutOfMemory),
            Err(error) if error.kind() == ErrorKind::OutOfMemory => Err(Fault::OutOfMemory),
            Err(_) => Err(Fault::NoText),
        }
    }
}
