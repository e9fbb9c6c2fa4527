//! What is seen of registers and of the frame before an instruction of a function.

use crate::held::{Held, difference, sum};
use mips_instructions::instruction::{ImmKind, LoadKind, Op, StoreKind, ThreeKind};
use mips_instructions::number::{Gpr, Reg, RegSet};

/// The stack pointer.
const STACK: u8 = 29;

/// The most words of the frame that are seen.
const MOST_SAVED: usize = 16;

/// A word of the frame, `at` bytes above where the stack pointer was where the function begins, that holds what a register
/// held there.
#[derive(Clone, Copy, Debug, PartialEq, Eq)]
struct Saved {
    at: u32,
    held: Held,
}

/// What is seen of registers and of the frame before an instruction of a function.
#[derive(Clone, Copy, Debug)]
pub(crate) struct State {
    registers: [Held; 32],
    saved: [Option<Saved>; MOST_SAVED],
}

/// The registers that functions give back as they were, by the usual convention: $16 to $23, $28 to $30.
pub(crate) fn saved_by_convention() -> RegSet {
    RegSet::from_bits(0x70ff_0000).unwrap_or(RegSet::empty())
}

/// Whether a set has the register of this number.
fn has_number(set: RegSet, number: u8) -> bool {
    Reg::new(number).is_some_and(|register| set.has(register))
}

/// The register that an instruction writes which is no call.
fn written_by(op: &Op) -> Option<Gpr> {
    match *op {
        Op::Three(_, register, _, _)
        | Op::ShiftBy(_, register, _, _)
        | Op::ShiftVar(_, register, _, _)
        | Op::Imm(_, register, _, _)
        | Op::Logic(_, register, _, _)
        | Op::Lui(register, _)
        | Op::MoveFrom(_, register)
        | Op::Load(_, register, _, _) => Some(register),
        _ => None,
    }
}

impl State {
    /// Where a function begins.
    pub(crate) fn at_entry() -> State {
        let mut registers = [Held::Any; 32];
        for number in 0..32u8 {
            registers[usize::from(number)] = Held::Entry {
                register: number,
                more: 0,
            };
        }
        State {
            registers,
            saved: [None; MOST_SAVED],
        }
    }

    /// What a register holds.
    pub(crate) fn held(&self, register: Gpr) -> Held {
        match register.get() {
            0 => Held::Word(0),
            number => self.registers[usize::from(number)],
        }
    }

    fn put(&mut self, register: Gpr, held: Held) {
        self.registers[usize::from(register.get())] = held;
    }

    /// The word of an operand, if it is seen; of none, 0.
    fn word(&self, register: Option<Reg>) -> Option<u32> {
        let Some(register) = register else {
            return Some(0);
        };
        let number = register.get();
        match self.registers.get(usize::from(number)) {
            _ if number == 0 => Some(0),
            Some(Held::Word(word)) => Some(*word),
            _ => None,
        }
    }

    /// What an instruction writes, by the instruction's own definition.
    fn computed(&self, op: &Op, register: Gpr) -> Held {
        let (first, second) = op.sources();
        match (self.word(first), self.word(second)) {
            (Some(first), Some(second)) => match op.alu(first, second, 0, Reg::from(register)) {
                Some(word) => Held::Word(word),
                None => Held::Any,
            },
            _ => Held::Any,
        }
    }

    /// What an instruction writes to a register.
    fn value(&self, op: &Op, register: Gpr) -> Held {
        match *op {
            Op::Imm(ImmKind::Addiu, _, from, count) => self.held(from).plus(extended(count)),
            Op::Three(ThreeKind::Addu, _, one, other) => sum(self.held(one), self.held(other)),
            Op::Three(ThreeKind::Subu, _, one, other) => {
                difference(self.held(one), self.held(other))
            }
            Op::Three(ThreeKind::Or, _, one, other) => match (self.held(one), self.held(other)) {
                (held, Held::Word(0)) | (Held::Word(0), held) => held,
                _ => self.computed(op, register),
            },
            Op::Load(LoadKind::Lw, _, base, offset) => match self.address(base, offset) {
                Some(at) => self.loaded(at),
                None => Held::Any,
            },
            _ => self.computed(op, register),
        }
    }

    /// Where in the frame a load or a store is, if it is seen to be there.
    fn address(&self, base: Gpr, offset: i16) -> Option<u32> {
        match self.held(base).plus(extended(offset)) {
            Held::Entry { register, more } if register == STACK => Some(more),
            _ => None,
        }
    }

    /// What a word of the frame holds.
    fn loaded(&self, at: u32) -> Held {
        for slot in &self.saved {
            if let Some(saved) = slot {
                if saved.at == at {
                    return saved.held;
                }
            }
        }
        Held::Any
    }

    /// Forgets the words of the frame that a store at a place may change.
    fn forget(&mut self, at: u32) {
        for slot in 0..MOST_SAVED {
            if let Some(saved) = self.saved[slot] {
                if saved.at.wrapping_sub(at).wrapping_add(3) < 7 {
                    self.saved[slot] = None;
                }
            }
        }
    }

    /// Keeps a word of the frame, where there is room.
    fn save(&mut self, at: u32, held: Held) {
        for slot in 0..MOST_SAVED {
            if self.saved[slot].is_none() {
                self.saved[slot] = Some(Saved { at, held });
                return;
            }
        }
    }

    /// After a store. One at an address that is not seen is taken to be elsewhere.
    fn store(&mut self, kind: StoreKind, register: Gpr, base: Gpr, offset: i16) {
        let Some(at) = self.address(base, offset) else {
            return;
        };
        self.forget(at);
        let held = self.held(register);
        if matches!((kind, held), (StoreKind::Sw, Held::Entry { .. })) {
            self.save(at, held);
        }
    }

    /// After an instruction that is no call.
    pub(crate) fn execute(&mut self, op: &Op) {
        if let Op::Store(kind, register, base, offset) = *op {
            self.store(kind, register, base, offset);
        }
        if let Some(register) = written_by(op) {
            let held = self.value(op, register);
            self.put(register, held);
        }
    }

    /// After a call that has come back to an address, which it left in a register; these registers are kept by what it
    /// called. The frame is taken to be as it was.
    pub(crate) fn come_back(&mut self, link: Gpr, address: u32, kept: RegSet) {
        self.put(link, Held::Word(address));
        for number in 1..32u8 {
            if !has_number(kept, number) {
                self.registers[usize::from(number)] = Held::Any;
            }
        }
    }

    /// The registers that hold what they held where the function begins.
    pub(crate) fn unchanged(&self) -> RegSet {
        let mut set = RegSet::empty();
        for number in 0..32u8 {
            let entry = Held::Entry {
                register: number,
                more: 0,
            };
            if let Some(register) = Reg::new(number) {
                if self.registers[usize::from(number)] == entry {
                    set = set.insert(register);
                }
            }
        }
        set
    }

    /// Leaves of the registers what holds in another state, too; whether that is less.
    fn join_registers(&mut self, other: &State) -> bool {
        let mut is_less = false;
        for number in 0..32 {
            let held = self.registers[number];
            if held != Held::Any && held != other.registers[number] {
                self.registers[number] = Held::Any;
                is_less = true;
            }
        }
        is_less
    }

    /// Leaves of the frame what holds in another state, too; whether that is less.
    fn join_saved(&mut self, other: &State) -> bool {
        let mut is_less = false;
        for slot in 0..MOST_SAVED {
            if let Some(saved) = self.saved[slot] {
                if other.loaded(saved.at) != saved.held {
                    self.saved[slot] = None;
                    is_less = true;
                }
            }
        }
        is_less
    }

    /// Leaves what holds in another state, too; whether that is less.
    pub(crate) fn join(&mut self, other: &State) -> bool {
        let registers = self.join_registers(other);
        let saved = self.join_saved(other);
        registers || saved
    }
}

/// A signed number as a word.
fn extended(count: i16) -> u32 {
    i32::from(count).cast_unsigned()
}
