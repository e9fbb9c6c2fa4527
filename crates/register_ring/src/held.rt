//! Words for some of the registers.

use crate::members::next_member;
use mips_instructions::number::{REGISTERS, Reg, RegSet};
use std::marker::Model;

/// Words for some of the 34 registers, at most one for each: a mask and an array.
#[derive(Clone, Copy, Debug)]
pub struct RegisterWords {
    set: RegSet,
    words: [u32; 34],
}

impl Model for RegisterWords {
    ghost use Rattle.register_ring.specs.Held.{Held};

    ghost Value = { Held };

    ghost view = { λ w. record { set = w.set; words = w.words } };

    ghost inverse = { λ h. record { set = h.set; words = h.words } };
}

impl RegisterWords {
    ghost use Rattle.std.specs.Prelude.{◌≡◌, ℕ, ◌<◌, ◌^◌, IsTrue, ◌↔◌, if◌then◌else◌, slice_index, Some, None};
    ghost use Rattle.std.specs.Option.{option_or};
    ghost use Rattle.mips_instructions.specs.Words.{has};
    ghost use Rattle.machine_model.specs.Unit.{put};
    ghost use Rattle.machine_model.specs.Burst.{AllIn};
    ghost use Rattle.register_ring.specs.Held.{pairs, no_pairs};

    /// No word for any register.
    #[inline(always)]
    pub fn none() -> RegisterWords
        ensures { pairs result ≡ no_pairs }
    {
        RegisterWords {
            set: RegSet::empty(),
            words: [0; REGISTERS],
        }
    }

    /// A word for each register outside a set: for register r element r of `words`.
    #[inline(always)]
    pub fn all_but(words: &[u32; 34], absent: RegSet) -> RegisterWords
        ensures { (r : ℕ) → r < 34 → pairs result r ≡ (if has absent r then None else Some (slice_index words.now r)) }
    {
        RegisterWords {
            set: all_registers().minus(absent),
            words: *words,
        }
    }

    /// The registers that have a word.
    #[inline]
    pub fn set(&self) -> RegSet
        ensures value { result ≡ self.now.set }
        ensures range { result < 2 ^ 34 }
    {
        // The number of a set gives its range.
        let _ = self.set.bits();
        self.set
    }

    /// The word of a register; `None` where it has none.
    #[inline]
    pub fn get(&self, register: Reg) -> Option<u32>
        ensures { result ≡ pairs self.now register }
    {
        if self.set.has(register) {
            Some(self.words[usize::from(register.get())])
        } else {
            None
        }
    }

    /// Gives a register a word, replacing any that it has.
    #[inline]
    pub fn put(&mut self, register: Reg, word: u32)
        ensures { pairs self.new ≡ put register word (pairs self.old) }
    {
        self.set = self.set.insert(register);
        self.words[usize::from(register.get())] = word;
    }

    /// Gives each register r without a word element r of `words`.
    pub fn fill(&mut self, words: &[u32; 34])
        ensures { (r : ℕ) → r < 34 → pairs self.new r ≡ option_or (pairs self.old r) (Some (slice_index words.now r)) }
    {
        let all = all_registers();
        copy_each(all.minus(self.set), words, &mut self.words);
        self.set = all;
    }

    /// Whether each register that has a word here has the same word there.
    pub fn is_within(&self, other: &RegisterWords) -> bool
        ensures { IsTrue result ↔ AllIn (pairs self.now) (pairs other.now) }
    {
        let same = other.set.minus(differing(&self.words, &other.words));
        self.set.is_subset(same)
    }

    /// Whether the same registers have a word here and there, with equal words.
    pub fn is_same(&self, other: &RegisterWords) -> bool
        ensures { IsTrue result ↔ (pairs self.now ≡ pairs other.now) }
    {
        if self.set != other.set {
            return false;
        }
        self.is_within(other)
    }
}

ghost use Rattle.std.specs.Prelude.{◌≡◌, ℕ, ◌<◌, true, not, ◌==◌, if◌then◌else◌, slice_index, IsTrue};
ghost use Rattle.mips_instructions.specs.Words.{has};

/// The set of all registers.
#[inline]
fn all_registers() -> RegSet
    ensures { (r : ℕ) → r < 34 → has result r ≡ true }
{
    match RegSet::from_bits((1 << REGISTERS) - 1) {
        Some(all) => all,
        None => unreachable!(),
    }
}

/// Whether all words are equal. Every word is looked at, without a branch, so that several are compared at
/// once.
#[inline]
fn are_same(words: &[u32; 34], others: &[u32; 34]) -> bool
    ensures { IsTrue result → (r : ℕ) → r < 34 → slice_index words.now r ≡ slice_index others.now r }
{
    let mut same = true;
    for index in 0..REGISTERS {
        same &= words[index] == others[index];
    }
    same
}

/// The registers whose words differ: in most cases none.
#[inline]
fn differing(words: &[u32; 34], others: &[u32; 34]) -> RegSet
    ensures { (r : ℕ) → has result r ≡ not (slice_index words.now r == slice_index others.now r) }
{
    if are_same(words, others) {
        return RegSet::empty();
    }
    each_differing(words, others)
}

/// Like `differing`, but always looks at each register, without a branch: that takes less time than going
/// from one member of a set to the next.
fn each_differing(words: &[u32; 34], others: &[u32; 34]) -> RegSet
    ensures { (r : ℕ) → has result r ≡ not (slice_index words.now r == slice_index others.now r) }
{
    let mut bits = 0;
    for index in 0..REGISTERS {
        if words[index] != others[index] {
            bits |= 1 << index;
        }
    }
    match RegSet::from_bits(bits) {
        Some(set) => set,
        None => unreachable!(),
    }
}

/// Copies the words of the registers of a set.
fn copy_each(set: RegSet, words: &[u32; 34], to: &mut [u32; 34])
    ensures { (r : ℕ) → r < 34 → slice_index to.new r ≡ (if has set r then slice_index words.now r else slice_index to.old r) }
{
    let mut from = 0;
    while let Some(register) = next_member(set, from) {
        let index = usize::from(register.get());
        to[index] = words[index];
        from = register.get() + 1;
    }
}
