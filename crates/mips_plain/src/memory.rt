//! The two regions of memory (the addresses are this project's choice): 65,536 bytes of read-only data from
//! 0x10000000, and right after it 65,536 bytes of data memory; little-endian. Loads and stores of words, halves
//! and bytes as in the MIPS32 manual, volume II.

ghost use Rattle.std.specs.Prelude.{ℕ, ◌≡◌, ◌+◌, ◌-◌, ◌<◌, ◌≤◌, ◌⊎◌, ◌↔◌, ◌++◌, length, take, drop, replicate, vec_len, Ok, Err, Some, IfOk, IfErr, IfSome, OnErr, IsTrue};
ghost use Rattle.mips_plain.specs.MemoryMap.{byte_of, region, effective, number_at, put};
ghost use Rattle.mips_instructions.specs.InstructionTable.{load_size, extended, store_size};
ghost use Rattle.mips_plain.specs.Effect.{loaded, stored, outcome_of_load, outcome_of_store, fixed_load};
ghost use Rattle.mips_plain.specs.Access.{is_load, is_store, load_at, store_at, outcome_at, spot_of, offset_of, offset_in_fixed, number_in, outcome_of_result};
ghost use Rattle.mips_instructions.specs.declared.instruction.LoadKind.TheVariants.{Lh, Lb};
ghost use Rattle.mips_plain.specs.declared.outcome.Outcome.TheVariants.{Trapped};

use crate::outcome::Trap;
use mips_instructions::instruction::{LoadKind, Op, StoreKind};
use std::alloc::{AllocError, Global};
use std::marker::Model;
use thiserror::Error;

/// The size of each region of memory, in bytes.
pub const REGION_BYTES: usize = 65_536;

/// The address of the first byte of read-only data.
pub const FIXED_START: u32 = 0x1000_0000;

/// The address of the first byte of data memory, right after read-only data.
pub const DATA_START: u32 = 0x1001_0000;

/// Why no memory is made.
#[derive(Clone, Copy, Debug, PartialEq, Eq, Error)]
pub enum MemoryFault {
    /// 1: more than 65,536 bytes for data memory or for read-only data.
    #[error("1 TooMuch")]
    TooMuch,
    /// 2: out of memory.
    #[error("2 OutOfMemory")]
    OutOfMemory,
}

/// The region that an access falls in, with its offset in bytes from the region's first byte.
#[derive(Clone, Copy, Debug, PartialEq, Eq)]
pub enum MemoryPlace {
    /// In read-only data, at this offset.
    InFixed(usize),
    /// In data memory, at this offset.
    InData(usize),
}

/// The two regions of memory, 65,536 bytes each: data memory and read-only data.
#[derive(Debug, Drop)]
pub struct Memory {
    bytes: Vec<u8>,
    fixed: Vec<u8>,
}

impl Model for Memory {
    ghost use Rattle.std.specs.Prelude.{ℕ, ◌≡◌, vec_len};
    ghost use Rattle.mips_plain.specs.Contents.{Contents};

    ghost Value = { Contents };

    ghost view = { λ m. record { bytes = m.bytes.items; fixed = m.fixed.items } };

    ghost invariant = { λ m. (vec_len m.bytes ≡ 65536) × (vec_len m.fixed ≡ 65536) };
}

/// The bytes followed by zeros, `size` in all.
fn padded(alloc: Global, start: &[u8], size: usize) -> Result<Vec<u8>, AllocError>
    requires { length start.now ≤ size }
    ensures items { IfOk result (λ v. v.items ≡ start.now ++ replicate (size - length start.now) 0) }
    ensures len { IfOk result (λ v. vec_len v ≡ size) }
{
    let mut bytes = Vec::with_capacity(alloc, size)?;
    bytes.extend_from_slice(start)?;
    bytes.resize(size, 0)?;
    Ok(bytes)
}

/// Where an access of 1, 2 or 4 bytes falls: first the alignment, then whether each byte is there.
#[inline(always)]
fn locate(size: u32, at: u32) -> Result<MemoryPlace, Trap>
    requires { (size ≡ 1) ⊎ ((size ≡ 2) ⊎ (size ≡ 4)) }
    ensures spot { result ≡ spot_of (region size at) }
    ensures within { IfOk result (λ spot. offset_of spot + size ≤ 65536) }
{
    if !at.is_multiple_of(size) {
        return Err(Trap::Unaligned);
    }
    if at < FIXED_START || at > DATA_START + 0x1_0000 - size {
        return Err(Trap::OutOfRange);
    }
    if at < DATA_START {
        Ok(MemoryPlace::InFixed((at - FIXED_START) as usize))
    } else {
        Ok(MemoryPlace::InData((at - DATA_START) as usize))
    }
}

/// The word at an offset.
#[inline]
fn word_at(bytes: &[u8], at: usize) -> u32
    requires { at + 4 ≤ length bytes.now }
    ensures { result ≡ number_at 4 (byte_of bytes.now) at }
{
    u32::from_le_bytes([bytes[at], bytes[at + 1], bytes[at + 2], bytes[at + 3]])
}

/// The number of two bytes at an offset.
#[inline]
fn half_at(bytes: &[u8], at: usize) -> u16
    requires { at + 2 ≤ length bytes.now }
    ensures { result ≡ number_at 2 (byte_of bytes.now) at }
{
    u16::from_le_bytes([bytes[at], bytes[at + 1]])
}

/// A byte with copies of its sign before it, as `lb` loads it.
#[inline]
fn byte_signed(byte: u8) -> u32
    ensures { result ≡ extended Lb byte }
{
    i32::from(byte.cast_signed()).cast_unsigned()
}

/// A half with copies of its sign before it, as `lh` loads it.
#[inline]
fn half_signed(half: u16) -> u32
    ensures { result ≡ extended Lh half }
{
    i32::from(half.cast_signed()).cast_unsigned()
}

/// The word that a load of a kind makes of the word, the half or the byte that it reads.
macro_rules! loaded {
    ($kind:expr, $word:expr, $half:expr, $byte:expr) => {
        match $kind {
            LoadKind::Lw => $word,
            LoadKind::Lh => half_signed($half),
            LoadKind::Lhu => u32::from($half),
            LoadKind::Lb => byte_signed($byte),
            LoadKind::Lbu => u32::from($byte),
        }
    };
}

/// Writes some bytes at an offset.
#[inline(always)]
fn write_at(bytes: &mut Vec<u8>, at: usize, new: &[u8])
    requires { at + length new.now ≤ vec_len bytes.old }
    ensures items { bytes.new.items ≡ take at bytes.old.items ++ (new.now ++ drop (at + length new.now) bytes.old.items) }
    ensures len { vec_len bytes.new ≡ vec_len bytes.old }
{
    bytes[at..at + new.len()].copy_from_slice(new);
}

/// Puts the low bytes of a word at an offset, up to 4 of them.
#[inline(always)]
fn put_low(bytes: &mut Vec<u8>, size: usize, at: usize, word: u32)
    requires size { size ≤ 4 }
    requires within { at + size ≤ vec_len bytes.old }
    ensures bytes { byte_of bytes.new.items ≡ put size word at (byte_of bytes.old.items) }
    ensures len { vec_len bytes.new ≡ vec_len bytes.old }
{
    write_at(bytes, at, &word.to_le_bytes()[..size]);
}

impl Memory {
    /// A memory that begins with `bytes` in data memory and `fixed` in read-only data, and is zero after them.
    ///
    /// # Errors
    ///
    /// `TooMuch` exactly if `bytes` or `fixed` has more than 65,536 bytes; `OutOfMemory` where memory was
    /// refused.
    pub fn new(alloc: Global, bytes: &[u8], fixed: &[u8]) -> Result<Memory, MemoryFault>
        ensures too_much { (result ≡ Err MemoryFault.TooMuch) ↔ ((65536 < length bytes.now) ⊎ (65536 < length fixed.now)) }
        ensures bytes { IfOk result (λ memory. byte_of memory.bytes ≡ byte_of bytes.now) }
        ensures fixed { IfOk result (λ memory. byte_of memory.fixed ≡ byte_of fixed.now) }
    {
        if bytes.len() > REGION_BYTES || fixed.len() > REGION_BYTES {
            return Err(MemoryFault::TooMuch);
        }
        match (
            padded(alloc, bytes, REGION_BYTES),
            padded(alloc, fixed, REGION_BYTES),
        ) {
            (Ok(bytes), Ok(fixed)) => Ok(Memory { bytes, fixed }),
            _ => Err(MemoryFault::OutOfMemory),
        }
    }

    /// The bytes of data memory, 65,536 of them.
    pub fn bytes(&self) -> &[u8]
        ensures bytes { result.now ≡ self.now.bytes }
        ensures len { length result.now ≡ 65536 }
    {
        &self.bytes
    }

    /// The bytes of read-only data, 65,536 of them.
    pub fn fixed(&self) -> &[u8]
        ensures bytes { result.now ≡ self.now.fixed }
        ensures len { length result.now ≡ 65536 }
    {
        &self.fixed
    }

    #[inline]
    fn word(&self, at: u32) -> Result<u32, Trap>
        ensures { result ≡ number_in 4 (region 4 at) (byte_of self.now.fixed) (byte_of self.now.bytes) }
    {
        match locate(4, at)? {
            MemoryPlace::InFixed(offset) => Ok(word_at(&self.fixed, offset)),
            MemoryPlace::InData(offset) => Ok(word_at(&self.bytes, offset)),
        }
    }

    #[inline]
    fn half(&self, at: u32) -> Result<u16, Trap>
        ensures { result ≡ number_in 2 (region 2 at) (byte_of self.now.fixed) (byte_of self.now.bytes) }
    {
        match locate(2, at)? {
            MemoryPlace::InFixed(offset) => Ok(half_at(&self.fixed, offset)),
            MemoryPlace::InData(offset) => Ok(half_at(&self.bytes, offset)),
        }
    }

    #[inline]
    fn byte(&self, at: u32) -> Result<u8, Trap>
        ensures { result ≡ number_in 1 (region 1 at) (byte_of self.now.fixed) (byte_of self.now.bytes) }
    {
        match locate(1, at)? {
            MemoryPlace::InFixed(offset) => Ok(self.fixed[offset]),
            MemoryPlace::InData(offset) => Ok(self.bytes[offset]),
        }
    }

    /// What a load of this kind at this address returns.
    #[inline]
    pub(crate) fn load_kind(&self, kind: LoadKind, at: u32) -> Result<u32, Trap>
        ensures value { IfOk result (λ word. loaded kind (region (load_size kind) at) (byte_of self.now.fixed) (byte_of self.now.bytes) ≡ Some word) }
        ensures trap { IfErr result (λ trap. outcome_of_load (region (load_size kind) at) ≡ Trapped trap) }
    {
        Ok(loaded!(kind, self.word(at)?, self.half(at)?, self.byte(at)?))
    }

    /// Puts the low bytes of a word at an address of data memory.
    #[inline(always)]
    fn store_size(&mut self, size: u32, at: u32, word: u32) -> Result<(), Trap>
        requires { (size ≡ 1) ⊎ ((size ≡ 2) ⊎ (size ≡ 4)) }
        ensures bytes { byte_of self.new.bytes ≡ stored size word (region size at) (byte_of self.old.bytes) }
        ensures fixed { self.new.fixed ≡ self.old.fixed }
        ensures refused { OnErr result (self.new ≡ self.old) }
        ensures outcome { outcome_of_store (region size at) ≡ outcome_of_result result }
    {
        match locate(size, at)? {
            MemoryPlace::InFixed(_) => Err(Trap::ReadOnly),
            MemoryPlace::InData(offset) => {
                put_low(&mut self.bytes, size as usize, offset, word);
                Ok(())
            }
        }
    }

    /// Stores the low bytes of a word, as a store of this kind at this address does.
    #[inline]
    pub(crate) fn store_kind(&mut self, kind: StoreKind, at: u32, word: u32) -> Result<(), Trap>
        ensures bytes { byte_of self.new.bytes ≡ stored (store_size kind) word (region (store_size kind) at) (byte_of self.old.bytes) }
        ensures fixed { self.new.fixed ≡ self.old.fixed }
        ensures refused { OnErr result (self.new ≡ self.old) }
        ensures outcome { outcome_of_store (region (store_size kind) at) ≡ outcome_of_result result }
    {
        match kind {
            StoreKind::Sw => self.store_size(4, at, word),
            StoreKind::Sh => self.store_size(2, at, word),
            StoreKind::Sb => self.store_size(1, at, word),
        }
    }

    /// The word that a load at this address, in bytes, gives to its register: extended by its sign or with
    /// zeros.
    ///
    /// # Errors
    ///
    /// The first trap that holds: `Unaligned`, then `OutOfRange`.
    pub fn load(&self, op: &Op, address: u32) -> Result<u32, Trap>
        requires { IsTrue (is_load op.now) }
        ensures value { IfOk result (λ word. load_at op.now address (byte_of self.now.fixed) (byte_of self.now.bytes) ≡ Some word) }
        ensures trap { IfErr result (λ trap. outcome_at op.now address ≡ Trapped trap) }
    {
        match *op {
            Op::Load(kind, _, _, _) => self.load_kind(kind, address),
            _ => unreachable!(),
        }
    }

    /// Carries out a store of the low 32, 16 or 8 bits of `b` at this address, in bytes.
    ///
    /// # Errors
    ///
    /// The first trap that holds: `Unaligned`, then `OutOfRange`, then `ReadOnly`; the memory is unchanged
    /// then.
    pub fn store(&mut self, op: &Op, address: u32, b: u32) -> Result<(), Trap>
        requires { IsTrue (is_store op.now) }
        ensures bytes { byte_of self.new.bytes ≡ store_at op.now address b (byte_of self.old.bytes) }
        ensures fixed { self.new.fixed ≡ self.old.fixed }
        ensures refused { OnErr result (self.new ≡ self.old) }
        ensures outcome { outcome_at op.now address ≡ outcome_of_result result }
    {
        match *op {
            Op::Store(kind, _, _, _) => self.store_kind(kind, address, b),
            _ => unreachable!(),
        }
    }
}

/// The byte at an offset of read-only data that begins with these bytes: zero after them.
#[inline]
fn fixed_byte(fixed: &[u8], offset: usize) -> u8
    ensures { result ≡ byte_of fixed.now offset }
{
    fixed.get(offset).copied().unwrap_or(0)
}

/// The word at an offset of read-only data that begins with these bytes.
#[inline]
fn fixed_word(fixed: &[u8], at: usize) -> u32
    requires { at < 65536 }
    ensures { result ≡ number_at 4 (byte_of fixed.now) at }
{
    if at + 4 <= fixed.len() {
        return word_at(fixed, at);
    }
    u32::from_le_bytes([
        fixed_byte(fixed, at),
        fixed_byte(fixed, at + 1),
        fixed_byte(fixed, at + 2),
        fixed_byte(fixed, at + 3),
    ])
}

/// The number of two bytes at an offset of read-only data that begins with these bytes.
#[inline]
fn fixed_half(fixed: &[u8], at: usize) -> u16
    requires { at < 65536 }
    ensures { result ≡ number_at 2 (byte_of fixed.now) at }
{
    u16::from_le_bytes([fixed_byte(fixed, at), fixed_byte(fixed, at + 1)])
}

/// The offset in read-only data of an aligned access that lies entirely in it.
#[inline(always)]
fn fixed_offset(size: u32, at: u32) -> Option<usize>
    requires { (size ≡ 1) ⊎ ((size ≡ 2) ⊎ (size ≡ 4)) }
    ensures offset { result ≡ offset_in_fixed (region size at) }
    ensures within { IfSome result (λ offset. offset < 65536) }
{
    match locate(size, at) {
        Ok(MemoryPlace::InFixed(offset)) => Some(offset),
        _ => None,
    }
}

/// The address of a load or a store with the operand a and this offset.
#[inline]
#[tactic(auto, unfolding(crate::specs::MemoryMap::effective))]
pub(crate) fn effective_address(a: u32, n: i16) -> u32
    ensures { result ≡ effective a n }
{
    a.wrapping_add(i32::from(n).cast_unsigned())
}

/// The word that a load with the operand a (its base register's word) reads, if it is aligned and lies wholly
/// in read-only data, else `None`; also `None` for an instruction that is no load. `fixed` are the bytes that
/// read-only data begins with; it is zero after them.
pub fn fixed_load(op: &Op, a: u32, fixed: &[u8]) -> Option<u32>
    ensures { result ≡ fixed_load op.now a (byte_of fixed.now) }
{
    let Op::Load(kind, _, _, n) = *op else {
        return None;
    };
    let at = effective_address(a, n);
    Some(loaded!(
        kind,
        fixed_word(fixed, fixed_offset(4, at)?),
        fixed_half(fixed, fixed_offset(2, at)?),
        fixed_byte(fixed, fixed_offset(1, at)?)
    ))
}
