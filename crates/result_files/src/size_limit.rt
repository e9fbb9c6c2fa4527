//! How many bytes a file may have that this process writes.
ghost use Rattle.std.specs.Prelude.{◌≡◌, ◌<◌, ◌^◌, ℕ, Some, SomeIff};
ghost use Rattle.std.specs.Fmt.{decimal};

use std::alloc::Global;
use std::fs;
use std::io::Read;
use std::rt::Files;

// What the system tells this process of its limits: a line for each, of its name and what holds now.
const LIMITS: &str = "/proc/self/limits";

// What stands before the limit in its line, which is not the first one.
const NAME: &str = "\nMax file size ";

/// How many bytes a file may have: what the system tells of it, and `u64::MAX` where it tells nothing.
pub(crate) fn file_size_limit<R: Files>(rt: &R, alloc: Global) -> u64 {
    told_limit(rt, alloc).unwrap_or(u64::MAX)
}

// The limit that the system tells; `None` where there is none, or where its text can't be read.
fn told_limit<R: Files>(rt: &R, alloc: Global) -> Option<u64> {
    let mut bytes = Vec::new(alloc);
    fs::open(rt, LIMITS).ok()?.read_to_end(&mut bytes).ok()?;
    let text = str::from_utf8(bytes.as_slice()).ok()?;
    let (_, value) = text.split_once(NAME)?;
    limit_of(value.split_ascii_whitespace().next()?)
}

// The limit that a word tells: a number, or `unlimited`.
#[tactic(auto, using(crate::proofs::Limits::read_back))]
fn limit_of(word: &str) -> Option<u64>
    ensures { (limit : ℕ) → limit < 2 ^ 64 → word.now ≡ decimal limit → result ≡ Some limit }
{
    u64::from_str_radix(word, 10).ok()
}
