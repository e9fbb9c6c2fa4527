//! Numbers of events, one for each worker.

ghost use Rattle.std.specs.Prelude.{◌≡◌, ◌+◌, ◌%◌, ◌^◌, ◌<◌, replicate, slice_index, slice_set, vec_len, IfOk};

use std::alloc::{AllocError, Global};

/// A count of 0 for each worker.
pub(crate) fn zeros(alloc: Global, workers: u32) -> Result<Vec<u64>, AllocError>
    ensures { IfOk result (λ counts. counts.items ≡ replicate workers 0) }
{
    vec![in alloc; 0; workers as usize]
}

/// Adds the given number of events to the count of the worker that serves a unit.
pub(crate) fn add(counts: &mut Vec<u64>, unit: u32, events: u32)
    requires some { 0 < vec_len counts.old }
    requires fits { slice_index counts.old.items (unit % vec_len counts.old) + events < 2 ^ 64 }
    ensures { counts.new.items ≡ slice_set counts.old.items (unit % vec_len counts.old) (slice_index counts.old.items (unit % vec_len counts.old) + events) }
{
    let worker = worker_of(unit, counts.len());
    counts[worker] += u64::from(events);
}

/// The worker that serves a unit, of the given number of workers. With one worker nothing is divided: it counts each
/// event of a run.
fn worker_of(unit: u32, workers: usize) -> usize
    requires { 0 < workers }
    ensures { result ≡ unit % workers }
{
    if workers == 1 {
        0
    } else {
        unit as usize % workers
    }
}
