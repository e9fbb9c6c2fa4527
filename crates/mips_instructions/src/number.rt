//! Numbers with a range of their own: registers, code indices and shift amounts, and sets of registers.

use std::marker::Model;

/// The number of registers: the 32 general registers, HI and LO.
pub const REGISTERS: usize = 34;

/// The most instructions that a program has.
pub const MOST_INSTRUCTIONS: usize = 4096;

/// A register number, 0..=33: 0 to 31 are the general registers, 32 is HI, 33 is LO.
#[derive(Clone, Copy, Debug, PartialEq, Eq, PartialOrd, Ord, Hash)]
pub struct Reg {
    number: u8,
}

impl Model for Reg {
    ghost use Rattle.std.specs.Prelude.{ℕ, ◌<◌};

    ghost Value = { ℕ };

    ghost view = { λ a. a.number };

    ghost invariant = { λ a. a.number < 34 };

    ghost inverse = { λ n. record { number = n } };
}

impl Reg {
    ghost use Rattle.std.specs.Prelude.{◌≡◌, ◌<◌, ◌↔◌, IsSome, IfSome};

    /// Register 31, where `jal` puts its link (MIPS manual).
    pub const LINK: Reg = Reg { number: 31 };

    /// HI, for the high half of a product (MIPS manual).
    pub const HI: Reg = Reg { number: 32 };

    /// LO, for the low half of a product (MIPS manual).
    pub const LO: Reg = Reg { number: 33 };

    /// The register of a number; `None` above 33.
    pub fn new(number: u8) -> Option<Reg>
        ensures some { IsSome result ↔ (number < 34) }
        ensures value { IfSome result (λ register. register ≡ number) }
    {
        if number < 34 {
            Some(Reg { number })
        } else {
            None
        }
    }

    /// The register's number, 0..=33.
    #[inline]
    pub fn get(self) -> u8
        ensures value { result ≡ self }
        ensures range { result < 34 }
    {
        self.number
    }
}

/// The number of a general register, 0..=31, as an instruction's field has it (MIPS manual).
#[derive(Clone, Copy, Debug, PartialEq, Eq, PartialOrd, Ord, Hash)]
pub struct Gpr {
    field: u8,
}

impl Model for Gpr {
    ghost use Rattle.std.specs.Prelude.{ℕ, ◌<◌};

    ghost Value = { ℕ };

    ghost view = { λ a. a.field };

    ghost invariant = { λ a. a.field < 32 };

    ghost inverse = { λ n. record { field = n } };
}

impl Gpr {
    ghost use Rattle.std.specs.Prelude.{◌≡◌, ◌<◌, ◌↔◌, IsSome, IfSome};

    /// The general register of a number; `None` above 31.
    pub fn new(field: u8) -> Option<Gpr>
        ensures some { IsSome result ↔ (field < 32) }
        ensures value { IfSome result (λ register. register ≡ field) }
    {
        if field < 32 {
            Some(Gpr { field })
        } else {
            None
        }
    }

    /// The register's number, 0..=31.
    #[inline]
    pub fn get(self) -> u8
        ensures value { result ≡ self }
        ensures range { result < 32 }
    {
        self.field
    }
}

impl From<Gpr> for Reg {
    ghost use Rattle.std.specs.Prelude.{◌≡◌};

    ghost from_gives = { λ g r. r ≡ g };

    fn from(register: Gpr) -> Reg {
        Reg {
            number: register.get(),
        }
    }
}

/// A code index, 0..=4096: counts instructions, not bytes, from 0. 4096 is just past the longest code.
#[derive(Clone, Copy, Debug, PartialEq, Eq, PartialOrd, Ord, Hash)]
pub struct Place {
    index: u32,
}

impl Model for Place {
    ghost use Rattle.std.specs.Prelude.{ℕ, ◌≤◌};

    ghost Value = { ℕ };

    ghost view = { λ a. a.index };

    ghost invariant = { λ a. a.index ≤ 4096 };

    ghost inverse = { λ n. record { index = n } };
}

impl Place {
    ghost use Rattle.std.specs.Prelude.{◌≡◌, ◌≤◌, ◌↔◌, IsSome, IfSome};

    /// The place of a code index; `None` above 4096.
    pub fn new(index: u32) -> Option<Place>
        ensures some { IsSome result ↔ (index ≤ 4096) }
        ensures value { IfSome result (λ place. place ≡ index) }
    {
        if index <= 4096 {
            Some(Place { index })
        } else {
            None
        }
    }

    /// The code index, 0..=4096.
    #[inline]
    pub fn get(self) -> u32
        ensures value { result ≡ self }
        ensures range { result ≤ 4096 }
    {
        self.index
    }
}

/// A shift amount, 0..=31 bits (MIPS manual, SLL).
#[derive(Clone, Copy, Debug, PartialEq, Eq, PartialOrd, Ord, Hash)]
pub struct Amount {
    distance: u8,
}

impl Model for Amount {
    ghost use Rattle.std.specs.Prelude.{ℕ, ◌<◌};

    ghost Value = { ℕ };

    ghost view = { λ a. a.distance };

    ghost invariant = { λ a. a.distance < 32 };

    ghost inverse = { λ n. record { distance = n } };
}

impl Amount {
    ghost use Rattle.std.specs.Prelude.{◌≡◌, ◌<◌, ◌↔◌, IsSome, IfSome};

    /// The amount of so many bits; `None` above 31.
    pub fn new(distance: u8) -> Option<Amount>
        ensures some { IsSome result ↔ (distance < 32) }
        ensures value { IfSome result (λ amount. amount ≡ distance) }
    {
        if distance < 32 {
            Some(Amount { distance })
        } else {
            None
        }
    }

    /// The number of bits, 0..=31.
    #[inline]
    pub fn get(self) -> u8
        ensures value { result ≡ self }
        ensures range { result < 32 }
    {
        self.distance
    }
}

/// A set of registers, such as a create mask: bit r of 34 is register r, so HI is bit 32 and LO is bit 33.
#[derive(Clone, Copy, Debug, PartialEq, Eq, Hash)]
pub struct RegSet {
    bits: u64,
}

impl Model for RegSet {
    ghost use Rattle.std.specs.Prelude.{ℕ, ◌<◌, ◌^◌};

    ghost Value = { ℕ };

    ghost view = { λ s. s.bits };

    ghost invariant = { λ s. s.bits < 2 ^ 34 };

    ghost inverse = { λ n. record { bits = n } };
}

impl RegSet {
    ghost use Rattle.std.specs.Prelude.{◌≡◌, ℕ, ◌<◌, ◌↔◌, ◌^◌, true, false, not, ◌&&◌, ◌||◌, ◌==◌, IsTrue, IsSome, IfSome};
    ghost use Rattle.mips_instructions.specs.Words.{has};

    /// The set without members.
    #[inline]
    pub fn empty() -> RegSet
        ensures bits { result ≡ 0 }
        ensures members { (r : ℕ) → has result r ≡ false }
    {
        RegSet { bits: 0 }
    }

    /// The set with a register added; the same set where it is a member already.
    #[inline]
    pub fn insert(self, register: Reg) -> RegSet
        ensures members { (r : ℕ) → has result r ≡ (has self r || register == r) }
    {
        RegSet {
            bits: self.bits | 1 << register.get(),
        }
    }

    /// Whether a register is a member.
    #[inline]
    pub fn has(self, register: Reg) -> bool
        ensures member { result ≡ has self register }
    {
        self.bits >> register.get() & 1 == 1
    }

    /// The union: the members of either set.
    #[inline]
    pub fn union(self, other: RegSet) -> RegSet
        ensures members { (r : ℕ) → has result r ≡ (has self r || has other r) }
    {
        RegSet {
            bits: self.bits | other.bits,
        }
    }

    /// The difference: the members that the other set doesn't have.
    #[inline]
    pub fn minus(self, other: RegSet) -> RegSet
        ensures members { (r : ℕ) → has result r ≡ (has self r && not (has other r)) }
    {
        RegSet {
            bits: self.bits & !other.bits,
        }
    }

    /// Whether each member of this set is in the other one.
    #[inline]
    pub fn is_subset(self, other: RegSet) -> bool
        ensures members { IsTrue result ↔ ((r : ℕ) → has self r ≡ true → has other r ≡ true) }
    {
        self.bits & other.bits == self.bits
    }

    /// Whether the set has no members.
    #[inline]
    pub fn is_empty(self) -> bool
        ensures members { IsTrue result ↔ ((r : ℕ) → has self r ≡ false) }
        ensures bits { IsTrue result ↔ (self ≡ 0) }
    {
        self.bits == 0
    }

    /// The set as a number: bit r is 1 where register r is a member; below 2^34.
    #[inline]
    pub fn bits(self) -> u64
        ensures value { result ≡ self }
        ensures range { result < 2 ^ 34 }
    {
        self.bits
    }

    /// The set with register r as a member where bit r is 1; `None` if a bit above 33 is 1.
    pub fn from_bits(bits: u64) -> Option<RegSet>
        ensures some { IsSome result ↔ (bits < 2 ^ 34) }
        ensures value { IfSome result (λ set. set ≡ bits) }
    {
        if bits >> REGISTERS == 0 {
            Some(RegSet { bits })
        } else {
            None
        }
    }

    /// Law: two sets with the same members are one set. The call does nothing; its contract is the theorem.
    pub fn same(self, other: RegSet)
        requires members { (r : ℕ) → r < 34 → has self r ≡ has other r }
        ensures same { self ≡ other }
    {
        let _ = (self.bits, other.bits);
    }
}
