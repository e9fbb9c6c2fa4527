//! A log of reads in chunks, so that a long log can be appended to another without being copied.

ghost use Rattle.std.specs.Prelude.{◌≡◌, ℕ, ◌+◌, ◌^◌, ◌<◌, ◌≤◌, [], ◌∷◌, ◌++◌, true, false, length, flat_map, IfOk, OnOk, OnErr, vec_len, vec_capacity};

use mips_plain::outcome::{OutOfMemory, Read};
use std::alloc::{AllocError, Global};
use std::marker::Model;
use std::mem;

/// If the current chunks of two logs have at most this many reads together (12 KB), one is copied to the
/// end of the other.
const SHORT: usize = 1_000;

/// The maximum number of reads in closed chunks: no vector has room for more.
const MOST: usize = usize::MAX / 2;

/// What a unit's instructions read, oldest first: some closed chunks, which stay as they are, and after them
/// the current one, to which reads are pushed.
#[derive(Debug, Drop)]
pub struct ReadLog {
    closed: Vec<Vec<Read>>,
    closed_len: usize,
    current: Vec<Read>,
}

impl Model for ReadLog {
    ghost use Rattle.std.specs.Prelude.{◌≡◌, ◌-◌, ◌<◌, ◌^◌, ◌++◌, length, flat_map, vec_len, vec_capacity};
    ghost use Rattle.unit_core.specs.Logs.{LogView};

    ghost Value = { LogView };

    ghost view = { λ l. record {
      reads = flat_map (λ c. c.items) l.closed.items ++ l.current.items;
      room = vec_capacity l.current - vec_len l.current;
    } };

    ghost invariant = { λ l. (length (flat_map (λ c. c.items) l.closed.items) ≡ l.closed_len) × (l.closed_len < 2 ^ 63) };
}

impl ReadLog {
    /// A log without reads. Takes no memory.
    pub fn new(alloc: Global) -> ReadLog
        ensures { result.reads ≡ [] }
    {
        ReadLog {
            closed: Vec::new(alloc),
            closed_len: 0,
            current: Vec::new(alloc),
        }
    }

    /// The allocator that it takes memory from.
    #[inline]
    pub(crate) fn allocator(&self) -> Global {
        *self.current.allocator()
    }

    /// Drops all reads, but keeps the memory of the current chunk.
    pub fn clear(&mut self)
        ensures { self.new.reads ≡ [] }
    {
        self.closed.clear();
        self.closed_len = 0;
        self.current.clear();
    }

    /// The number of reads.
    #[inline]
    pub fn len(&self) -> usize
        ensures { result ≡ length self.now.reads }
    {
        self.closed_len + self.current.len()
    }

    /// The reads as they lie in memory: the closed chunks in order, then the current one.
    pub fn chunks(&self) -> (&[Vec<Read>], &[Read])
        ensures { self.now.reads ≡ flat_map (λ c. c.items) result.0.now ++ result.1.now }
    {
        (&self.closed, &self.current)
    }

    /// Appends copies of its reads to others.
    ///
    /// # Errors
    ///
    /// `OutOfMemory` where memory was refused; the others may have some of them then.
    pub fn copy_to(&self, reads: &mut Vec<Read>) -> Result<(), OutOfMemory>
        ensures { OnOk result (reads.new.items ≡ reads.old.items ++ self.now.reads) }
    {
        copy_all(&self.closed, reads)?;
        reads.extend_from_slice(&self.current)?;
        Ok(())
    }

    /// Makes room for `count` more reads.
    ///
    /// # Errors
    ///
    /// `AllocError` where memory was refused; the reads are as they were.
    #[inline]
    pub fn reserve(&mut self, count: usize) -> Result<(), AllocError>
        ensures reads { self.new.reads ≡ self.old.reads }
        ensures room { OnOk result (count ≤ self.new.room) }
    {
        self.current.reserve(count)
    }

    /// Appends a read, for which there is room.
    #[inline]
    pub fn push_reserved(&mut self, read: Read)
        requires { 0 < self.old.room }
        ensures { self.new.reads ≡ self.old.reads ++ read ∷ [] }
    {
        self.current.push_reserved(read);
    }

    /// Appends the reads of another log and empties the other. Only short logs are copied: the chunks of a long
    /// one are moved, and a log without reads is swapped with the other.
    ///
    /// # Errors
    ///
    /// `OutOfMemory` where memory was refused; both logs have the reads that they had.
    pub fn append(&mut self, other: &mut ReadLog) -> Result<(), OutOfMemory>
        ensures reads { OnOk result (self.new.reads ≡ self.old.reads ++ other.old.reads) }
        ensures emptied { OnOk result (other.new.reads ≡ []) }
        ensures err { OnErr result ((self.new.reads ≡ self.old.reads) × (other.new.reads ≡ other.old.reads)) }
    {
        if self.len() == 0 {
            mem::swap(self, other);
            return Ok(());
        }
        if other.closed.is_empty() && self.current.len() + other.current.len() <= SHORT {
            self.current.append(&mut other.current)?;
            return Ok(());
        }
        self.move_from(other)
    }

    /// Appends copies of the reads of another log to its own, if both are short, and returns whether it did.
    ///
    /// # Errors
    ///
    /// `AllocError` where a growth is refused; nothing is changed then.
    #[inline]
    pub(crate) fn copy_short(&mut self, other: &ReadLog) -> Result<bool, AllocError>
        ensures copied { IfOk result (λ is_copied. is_copied ≡ true → self.new.reads ≡ self.old.reads ++ other.now.reads) }
        ensures left { IfOk result (λ is_copied. is_copied ≡ false → self.new.reads ≡ self.old.reads) }
        ensures err { OnErr result (self.new.reads ≡ self.old.reads) }
    {
        if !other.closed.is_empty() {
            return Ok(false);
        }
        if self.current.len().saturating_add(other.current.len()) > SHORT {
            return Ok(false);
        }
        self.current.extend_from_slice(&other.current)?;
        Ok(true)
    }

    /// Its length with `more` further reads. If no memory could hold them, it asks for the room, which is
    /// refused.
    fn len_with(&mut self, more: usize) -> Result<usize, AllocError>
        ensures len { IfOk result (λ len. (len ≡ length self.old.reads + more) × (len < 2 ^ 63)) }
        ensures reads { self.new.reads ≡ self.old.reads }
    {
        let len = self.len().saturating_add(more);
        if len <= MOST {
            return Ok(len);
        }
        self.current.reserve(len)?;
        Ok(len)
    }

    /// Closes its current chunk and moves the chunks of another log after it; the other log's current
    /// chunk becomes its own.
    fn move_from(&mut self, other: &mut ReadLog) -> Result<(), OutOfMemory>
        ensures reads { OnOk result (self.new.reads ≡ self.old.reads ++ other.old.reads) }
        ensures emptied { OnOk result (other.new.reads ≡ []) }
        ensures err { OnErr result ((self.new.reads ≡ self.old.reads) × (other.new.reads ≡ other.old.reads)) }
    {
        let closed_len = self.len_with(other.closed_len)?;
        self.closed.reserve(other.closed.len() + 1)?;
        close(&mut self.closed, &mut self.current);
        move_all(&mut self.closed, &mut other.closed);
        mem::swap(&mut self.current, &mut other.current);
        self.closed_len = closed_len;
        other.closed_len = 0;
        Ok(())
    }
}

/// Appends a chunk to the closed ones, if it has any reads.
fn close(closed: &mut Vec<Vec<Read>>, current: &mut Vec<Read>)
    requires { vec_len closed.old < vec_capacity closed.old }
    ensures reads { flat_map (λ c. c.items) closed.new.items ≡ flat_map (λ c. c.items) closed.old.items ++ current.old.items }
    ensures emptied { current.new.items ≡ [] }
    ensures len { vec_len closed.new ≤ vec_len closed.old + 1 }
    ensures capacity { vec_capacity closed.new ≡ vec_capacity closed.old }
{
    if current.is_empty() {
        return;
    }
    let empty = Vec::new(*current.allocator());
    closed.push_reserved(mem::replace(current, empty));
}

/// Appends copies of the reads of chunks to others.
fn copy_all(chunks: &[Vec<Read>], reads: &mut Vec<Read>) -> Result<(), OutOfMemory>
    ensures { OnOk result (reads.new.items ≡ reads.old.items ++ flat_map (λ c. c.items) chunks.now) }
{
    for chunk in chunks {
        reads.extend_from_slice(chunk)?;
    }
    Ok(())
}

/// Moves chunks to the end of the closed ones.
fn move_all(closed: &mut Vec<Vec<Read>>, more: &mut Vec<Vec<Read>>)
    requires { vec_len closed.old + vec_len more.old ≤ vec_capacity closed.old }
    ensures reads { flat_map (λ c. c.items) closed.new.items ≡ flat_map (λ c. c.items) closed.old.items ++ flat_map (λ c. c.items) more.old.items }
    ensures emptied { more.new.items ≡ [] }
    ensures len { vec_len closed.new ≡ vec_len closed.old + vec_len more.old }
    ensures capacity { vec_capacity closed.old ≤ vec_capacity closed.new }
{
    let _ = closed.append(more);
}
