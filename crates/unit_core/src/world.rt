//! What the head's instructions change besides the head.

use machine_model::event::Standing;
use mips_instructions::instruction::Op;
use mips_plain::memory::{Memory, fixed_load};
use mips_plain::outcome::OutOfMemory;
use std::alloc::Global;
use std::marker::Model;

/// What the head alone changes: memory, the output, and the run's outcome.
#[derive(Debug, Drop)]
pub struct World {
    /// Data memory and read-only data.
    pub memory: Memory,
    /// The words that `out` has appended, oldest first.
    pub output: Vec<u32>,
    /// Whether the run continues or how it ended.
    pub outcome: Standing,
}

impl Model for World {
    ghost use Rattle.unit_core.specs.Worlds.{WorldView};

    ghost Value = { WorldView };

    ghost view = { λ w. record { contents = w.memory; output = w.output.items; outcome = w.outcome } };
}

impl World {
    ghost use Rattle.std.specs.Prelude.{◌≡◌, [], IsTrue, ◌↔◌};
    ghost use Rattle.mips_plain.specs.Access.{is_load};
    ghost use Rattle.unit_core.specs.ExecParts.{CarriesOut, CarriesOutLoad, IsAddress};
    ghost use Rattle.machine_model.specs.declared.event.Standing.TheVariants.{Running};

    /// A world with this memory, an empty output and a run that has not ended. Takes no memory from the
    /// allocator.
    pub fn new(alloc: Global, memory: Memory) -> World
        ensures contents { result.contents ≡ memory }
        ensures output { result.output ≡ [] }
        ensures outcome { result.outcome ≡ Running }
    {
        World {
            memory,
            output: Vec::new(alloc),
            outcome: Standing::Running,
        }
    }

    /// Data memory and read-only data.
    pub fn memory(&self) -> &Memory
        ensures { result.now ≡ self.now.contents }
    {
        &self.memory
    }

    /// The words that `out` has appended, oldest first.
    pub fn output(&self) -> &[u32]
        ensures { result.now ≡ self.now.output }
    {
        &self.output
    }

    /// Whether the run continues or how it ended.
    #[inline]
    pub fn outcome(&self) -> Standing
        ensures { result ≡ self.now.outcome }
    {
        self.outcome
    }

    /// Whether the run continues.
    #[inline]
    pub fn is_running(&self) -> bool
        ensures { IsTrue result ↔ (self.now.outcome ≡ Running) }
    {
        matches!(self.outcome, Standing::Running)
    }

    /// Carries out what an instruction of the head with the operands a and b does besides its
    /// registers, and returns the word that it loads, if it loads one. `fixed` holds the bytes that the
    /// program's read-only data begins with. Only `out` reports lack of memory; nothing is
    /// changed then.
    #[inline]
    pub(crate) fn carry_out(
        &mut self,
        op: &Op,
        a: u32,
        b: u32,
        fixed: &[u8],
    ) -> Result<Option<u32>, OutOfMemory>
        requires { self.old.outcome ≡ Running }
        ensures { CarriesOut op.now a b fixed.now self.old result self.new }
    {
        match *op {
            Op::Load(_, _, _, n) => return Ok(self.load(op, a, access_address(a, n), fixed)),
            Op::Store(_, _, _, n) => if let Err(trap) = self
                .memory
                .store(op, access_address(a, n), b)
            {
                self.outcome = Standing::Trapped(trap);
            },
            Op::Out(_) => self.output.push(a)?,
            Op::Halt => self.outcome = Standing::Halted,
            _ => {}
        }
        Ok(None)
    }

    /// The word of a load at its address; traps where there is none.
    #[inline]
    fn load(&mut self, op: &Op, a: u32, address: u32, fixed: &[u8]) -> Option<u32>
        requires running { self.old.outcome ≡ Running }
        requires load { IsTrue (is_load op.now) }
        requires address { IsAddress op.now a address }
        ensures { CarriesOutLoad op.now a fixed.now self.old result self.new }
    {
        if let Some(word) = fixed_load(op, a, fixed) {
            return Some(word);
        }
        match self.memory.load(op, address) {
            Ok(word) => Some(word),
            Err(trap) => {
                self.outcome = Standing::Trapped(trap);
                None
            }
        }
    }

    /// Ends the run in this way.
    pub fn end(&mut self, outcome: Standing)
        ensures { self.new ≡ record self.old { outcome = outcome } }
    {
        self.outcome = outcome;
    }
}

ghost use Rattle.std.specs.Prelude.{◌≡◌};
ghost use Rattle.mips_plain.specs.MemoryMap.{effective};

/// The address of a load or a store with the operand a and this offset.
#[inline]
#[tactic(auto, unfolding(mips_plain::specs::MemoryMap::effective))]
fn access_address(a: u32, n: i16) -> u32
    ensures { result ≡ effective a n }
{
    a.wrapping_add(i32::from(n).cast_unsigned())
}
