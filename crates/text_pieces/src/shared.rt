//! Reading a file whole, up to a limit, by several threads.
ghost use Rattle.std.specs.Prelude.{◌≡◌, ◌≤◌, ◌+◌, ◌*◌, ℕ, List, Some, IfOk, IfSome, length, take};

use crate::parts::{fetch_from, fetch_part, put_together};
use crate::positioned::PositionedFile;
use crate::serial::{FetchFault, fetch};
use crate::text::Text;
use limits::ranges::MOST_WORKERS;
use std::alloc::Global;
use std::marker::Sync;
use std::thread;
use std::thread::Threads;

/// The size in bytes from which a file is fetched by several threads. Fetching a shorter one takes less time than
/// making the threads.
const LEAST_SHARED: u64 = 262_144;

/// A file's bytes as a text in pieces, fetched by several workers: the same bytes as with `fetch`. Any number
/// of workers will do: 0 counts as 1, and more than 16 count as 16. A short file is fetched by one.
///
/// Each worker reads a part into memory of its own. Whatever goes wrong with a part, one thread then fetches
/// the file from its beginning: nothing was taken from the reader until then, so the faults are those of
/// `fetch`. If the file is longer than the system reported, the rest is read too, up to the limit.
///
/// # Errors
///
/// `Read` if a read fails or more than 1,000 are interrupted; `OutOfMemory` if memory was refused. How much of
/// the file was read is unknown then.
pub fn fetch_shared<F: PositionedFile, R: Threads + Sync>(
    rt: &R,
    alloc: Global,
    file: &mut F,
    most: u64,
    workers: u32,
) -> Result<Text, FetchFault>
    requires { most ≤ 134217728 }
    ensures bytes { IfOk result (λ text. (bytes : List ℕ) → F.remaining file.old ≡ Some bytes
        → F.bytes file.old ≡ Some bytes → text ≡ take (most + 1) bytes) }
    ensures within { IfOk result (λ text. length text ≤ most + 1) }
{
    if let Some(text) = fetch_parts(rt, alloc, file, most, workers) {
        return Ok(text);
    }
    Ok(Text::new(alloc, fetch(alloc, file, most)?))
}

// The text from its parts; `None` where the file is not shared out, or a part is missing.
fn fetch_parts<F: PositionedFile, R: Threads + Sync>(
    rt: &R,
    alloc: Global,
    file: &F,
    most: u64,
    workers: u32,
) -> Option<Text>
    requires { most ≤ 134217728 }
    ensures bytes { IfSome result (λ text. (bytes : List ℕ) → F.bytes file.now ≡ Some bytes
        → text ≡ take (most + 1) bytes) }
    ensures within { IfSome result (λ text. length text ≤ most + 1) }
{
    let length = file.size_hint()?;
    if workers < 2 || length < LEAST_SHARED || length > most {
        return None;
    }
    let workers = workers.min(MOST_WORKERS) as usize;
    let size = length as usize / workers;
    let mut text = fetch_full_parts(rt, alloc, file, size, workers)?;
    let from = size * workers;
    let rest = fetch_from(alloc, file, from as u64, most as usize + 1 - from, 0)?;
    text.append(rest).ok()?;
    Some(text)
}

// The text of `workers` parts of `size` bytes each, which that many workers fetch.
fn fetch_full_parts<F: PositionedFile, R: Threads + Sync>(
    rt: &R,
    alloc: Global,
    file: &F,
    size: usize,
    workers: usize,
) -> Option<Text>
    requires { size * workers ≤ 134217728 }
    ensures bytes { IfSome result (λ text. (bytes : List ℕ) → F.bytes file.now ≡ Some bytes
        → text ≡ take (size * workers) bytes) }
    ensures long { IfSome result (λ text. length text ≡ size * workers) }
{
    let parts = thread::map_indices(
        rt,
        alloc,
        workers,
        &|number|
            requires { size * number + size ≤ 134217728 }
        { fetch_part(alloc, file, number, size) },
    )
    .ok()?;
    put_together(alloc, parts, size)
}
