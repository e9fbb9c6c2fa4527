//! Reading a file whole, up to a limit.
ghost use Rattle.std.specs.Prelude.{◌≡◌, ◌<◌, ◌≤◌, ◌+◌, ℕ, List, None, Some, IfErr, IfOk, IsOk, OnOk, take, vec_len};
ghost use Rattle.std.specs.Io.{ReadsAtMost};
ghost use Rattle.std.specs.Io.KnownBytes.{ReadConsumes};
ghost use Rattle.std.specs.IoError.{error_kind};
ghost use Rattle.text_pieces.specs.Faults.{IsFaultAfter};

use std::alloc::{AllocError, Global};
use std::io;
use std::io::{ErrorKind, Read};
use thiserror::Error;

/// Why a file's bytes could not be fetched.
#[derive(Clone, Copy, Debug, PartialEq, Eq, Error)]
pub enum FetchFault {
    /// 1: the reader failed with an error of this kind; `Interrupted` where it was interrupted more than
    /// 1,000 times.
    #[error("1 Read")]
    Read(ErrorKind),
    /// 2: memory was refused.
    #[error("2 OutOfMemory")]
    OutOfMemory,
}

impl From<AllocError> for FetchFault {
    ghost use Rattle.std.specs.Prelude.{◌≡◌};
    ghost use Rattle.text_pieces.specs.declared.serial.FetchFault.TheVariants.{OutOfMemory};

    ghost from_gives = { λ _ e. e ≡ OutOfMemory };

    fn from(_error: AllocError) -> FetchFault {
        FetchFault::OutOfMemory
    }
}

// How many bytes are read at a time.
pub(crate) const CHUNK: usize = 65_536;

// The room that is asked for first: most texts fit, so that they are not copied while they grow. What is not
// written to takes no memory.
const FIRST_ROOM: usize = 2_097_152;

// How often a reader may be interrupted.
const MOST_INTERRUPTIONS: u32 = 1000;

/// The reader's bytes up to its end, or its first `most + 1` bytes where it has more than `most` (so that the
/// caller sees that it has).
///
/// # Errors
///
/// `Read` if a read fails or more than 1,000 are interrupted; `OutOfMemory` if memory was refused. How much of
/// the reader was read is unknown then.
pub fn fetch<R: Read>(alloc: Global, reader: &mut R, most: u64) -> Result<Vec<u8>, FetchFault>
    requires { most ≤ 134217728 }
    ensures bytes { IfOk result (λ v. (bytes : List ℕ) → R.remaining reader.old ≡ Some bytes →
        v.items ≡ take (most + 1) bytes) }
    ensures within { IfOk result (λ v. vec_len v ≤ most + 1) }
{
    let mut failure = None;
    fetch_noting(alloc, reader, most, &mut failure)
}

// What `fetch` returns; `failure` is then the kind of the last read's error, if that read failed.
fn fetch_noting<R: Read>(
    alloc: Global,
    reader: &mut R,
    most: u64,
    failure: &mut Option<ErrorKind>,
) -> Result<Vec<u8>, FetchFault>
    requires most { most ≤ 134217728 }
    requires before { failure.old ≡ None }
    ensures bytes { IfOk result (λ v. (bytes : List ℕ) → R.remaining reader.old ≡ Some bytes →
        v.items ≡ take (most + 1) bytes) }
    ensures within { IfOk result (λ v. vec_len v ≤ most + 1) }
    ensures fault { IfErr result (λ fault. IsFaultAfter failure.new fault) }
{
    let limit = most as usize + 1;
    let mut all = Vec::new(alloc);
    all.reserve(limit.min(FIRST_ROOM))?;
    let mut chunk = [0; CHUNK];
    let mut interruptions = 0;
    while all.len() < limit {
        let room = CHUNK.min(limit - all.len());
        match read_noting(reader, &mut chunk[..room], failure) {
            Ok(0) => break,
            Ok(count) => all.extend_from_slice(&chunk[..count])?,
            Err(error) => interruptions = after_failure(error.kind(), interruptions)?,
        }
    }
    Ok(all)
}

// Reads once, and notes whether the read failed.
fn read_noting<R: Read>(
    reader: &mut R,
    buffer: &mut [u8],
    failure: &mut Option<ErrorKind>,
) -> io::Result<usize>
    ensures bound { ReadsAtMost result buffer.new }
    ensures bytes { ReadConsumes (R.remaining reader.old) (R.remaining reader.new) result buffer.new }
    ensures read { OnOk result (failure.new ≡ None) }
    ensures failed { IfErr result (λ error. failure.new ≡ Some (error_kind error)) }
{
    let result = reader.read(buffer);
    *failure = match &result {
        Ok(_) => None,
        Err(error) => Some(error.kind()),
    };
    result
}

// How many reads were interrupted, now that one failed with this kind of error; the fault if the reader
// is not tried again.
fn after_failure(kind: ErrorKind, interruptions: u32) -> Result<u32, FetchFault>
    requires { interruptions ≤ 1000 }
    ensures again { kind ≡ ErrorKind.Interrupted → interruptions < 1000 → IsOk result }
    ensures once_more { IfOk result (λ n. (kind ≡ ErrorKind.Interrupted) × (interruptions < 1000) × (n ≡ interruptions + 1)) }
    ensures fault { IfErr result (λ fault. fault ≡ FetchFault.Read kind) }
{
    if kind != ErrorKind::Interrupted || interruptions == MOST_INTERRUPTIONS {
        return Err(FetchFault::Read(kind));
    }
    Ok(interruptions + 1)
}
