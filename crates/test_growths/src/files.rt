//! Files that are fetched.

use crate::given::{Given, TRIES};
use text_pieces::serial::{FetchFault, fetch};

pub(crate) fn fetches(given: &Given<'_>) -> Option<()> {
    for _ in 0..TRIES {
        let mut reader = given.certificate.as_slice();
        given.begins();
        let answer = fetch(given.alloc(), &mut reader, 134_217_728);
        given.ends();
        match answer {
            Ok(bytes) => return given.shows(&bytes),
            Err(fault) => given.refused(fault == FetchFault::OutOfMemory, true),
        }
    }
    None
}
