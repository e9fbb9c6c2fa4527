//! The port of a unit on the register ring.

ghost use Rattle.std.specs.Prelude.{◌≡◌, ℕ, ◌<◌, ◌↔◌, None, IsSome, IsTrue, is_some, MatchResult};
ghost use Rattle.std.specs.List.{list_any};
ghost use Rattle.mips_instructions.specs.Words.{has};
ghost use Rattle.machine_model.specs.Unit.{put};
ghost use Rattle.machine_model.specs.Burst.{AllIn};
ghost use Rattle.register_ring.specs.Held.{no_pairs, put_first};
ghost use Rattle.register_ring.specs.Ports.{arrived_of, sent_of, arrived_fresh, filled_with, passed};

use crate::held::RegisterWords;
use mips_instructions::number::{Reg, RegSet};
use std::marker::Model;

/// The error of a register that has arrived before: it doesn't arrive again.
#[derive(Clone, Copy, Debug, PartialEq, Eq)]
pub struct AlreadyThere;

/// A unit's port on the ring: the registers that arrived from the unit before it, and those that it sent, with
/// at most one word for each.
#[derive(Clone, Copy, Debug)]
pub struct Port {
    arrived: RegisterWords,
    sent: RegisterWords,
}

impl Model for Port {
    ghost use Rattle.register_ring.specs.Ports.{Ports};

    ghost Value = { Ports };

    ghost view = { λ p. record { arrived = p.arrived; sent = p.sent } };

    ghost inverse = { λ p. record { arrived = p.arrived; sent = p.sent } };
}

impl Port {
    /// The port of a unit that begins: each register outside the accumulated mask has arrived with its word,
    /// element r of `words` for register r, and nothing is sent.
    #[inline(always)]
    pub fn fresh(words: &[u32; 34], accum: RegSet) -> Port
        ensures arrived { arrived_of result ≡ arrived_fresh words.now accum }
        ensures sent { sent_of result ≡ no_pairs }
    {
        Port {
            arrived: RegisterWords::all_but(words, accum),
            sent: RegisterWords::none(),
        }
    }

    /// A register arrives from the unit before this one with a word.
    ///
    /// # Errors
    ///
    /// `AlreadyThere` where it has arrived before; nothing is changed then.
    #[inline]
    pub fn arrive(&mut self, register: Reg, word: u32) -> Result<(), AlreadyThere>
        ensures { MatchResult result
            (λ done. (arrived_of self.old register ≡ None)
            × (arrived_of self.new ≡ put register word (arrived_of self.old))
            × (sent_of self.new ≡ sent_of self.old))
            (λ fault. IsSome (arrived_of self.old register) × (self.new ≡ self.old)) }
    {
        if self.arrived.set().has(register) {
            return Err(AlreadyThere);
        }
        self.arrived.put(register, word);
        Ok(())
    }

    /// Sends a register with a word, unless it was sent before: then the first word stays.
    #[inline]
    pub fn send(&mut self, register: Reg, word: u32)
        ensures sent { sent_of self.new ≡ put_first register word (sent_of self.old) }
        ensures arrived { arrived_of self.new ≡ arrived_of self.old }
    {
        if !self.sent.set().has(register) {
            self.sent.put(register, word);
        }
    }

    /// The word that the next unit can take for a register: what was sent, if the register is in the create
    /// mask, else what arrived; `None` where there is none yet.
    #[inline]
    pub fn pass(&self, create: RegSet, register: Reg) -> Option<u32>
        ensures { result ≡ passed create self.now register }
    {
        if create.has(register) {
            self.sent(register)
        } else {
            self.arrived(register)
        }
    }

    /// Each register that has not arrived arrives, register r with element r of `words`.
    pub fn fill(&mut self, words: &[u32; 34])
        ensures arrived { arrived_of self.new ≡ filled_with words.now (arrived_of self.old) }
        ensures sent { sent_of self.new ≡ sent_of self.old }
    {
        self.arrived.fill(words);
    }

    /// The word with which a register arrived; `None` where it has not.
    #[inline]
    pub fn arrived(&self, register: Reg) -> Option<u32>
        ensures { result ≡ arrived_of self.now register }
    {
        self.arrived.get(register)
    }

    /// The word with which a register was sent; `None` where it was not.
    #[inline]
    pub fn sent(&self, register: Reg) -> Option<u32>
        ensures { result ≡ sent_of self.now register }
    {
        self.sent.get(register)
    }

    /// The registers that have arrived.
    #[inline]
    pub fn arrived_set(&self) -> RegSet
        ensures members { (r : ℕ) → r < 34 → has result r ≡ is_some (arrived_of self.now r) }
    {
        self.arrived.set()
    }

    /// The registers that were sent.
    #[inline]
    pub fn sent_set(&self) -> RegSet
        ensures members { (r : ℕ) → has result r ≡ is_some (sent_of self.now r) }
    {
        self.sent.set()
    }

    /// Replaces what this port sent with what another port sent; what arrived stays.
    #[inline]
    pub fn take_sent(&mut self, other: &Port)
        ensures arrived { arrived_of self.new ≡ arrived_of self.old }
        ensures sent { sent_of self.new ≡ sent_of other.now }
    {
        self.sent = other.sent;
    }

    /// Whether each register that has arrived here has arrived there with the same word, and both have sent the
    /// same words.
    pub fn is_within(&self, other: &Port) -> bool
        ensures { IsTrue result ↔ (AllIn (arrived_of self.now) (arrived_of other.now) × (sent_of self.now ≡ sent_of other.now)) }
    {
        let _ = self.arrived.set();
        if !self.arrived.is_within(&other.arrived) {
            return false;
        }
        self.sent.is_same(&other.sent)
    }

    /// The accumulated mask: the union of these create masks.
    pub fn accum(masks: &[RegSet]) -> RegSet
        ensures { (r : ℕ) → has result r ≡ list_any (λ mask. has mask r) masks.now }
    {
        let mut accum = RegSet::empty();
        for mask in masks {
            accum = accum.union(*mask);
        }
        accum
    }
}
