//! Whole programs: parts that are checked once, and what every program that passed has.

use crate::check::fault_of;
use crate::descriptor::{Descriptor, Marked};
use crate::registers::name_registers;
use crate::same::{are_same_tasks, is_same_code};
use mips_instructions::instruction::Op;
use mips_instructions::number::Place;
use mips_instructions::places::{CODE_START, address_of};
use mips_plain::outcome::OutOfMemory;
use mips_plain::plain::{Plain, PlainFault};
use std::alloc::{AllocError, Global};
use std::marker::Model;

/// The most tasks of a program.
pub const MOST_TASKS: usize = 1024;

/// The most targets of a task.
pub const MOST_TARGETS: usize = 16;

/// The most bytes that a program gives for data memory, and as many for read-only data.
pub const MOST_BYTES: usize = 65_536;

/// What a program is made of, not checked yet.
#[derive(Debug, Drop)]
pub struct Parts {
    /// The instructions, index 0 first.
    pub code: Vec<Marked>,
    /// The bytes that data memory begins with; zeros follow.
    pub bytes: Vec<u8>,
    /// The bytes that read-only data begins with; zeros follow.
    pub fixed: Vec<u8>,
    /// The tasks, task 0 first.
    pub tasks: Vec<Descriptor>,
    /// The code index at which the program starts.
    pub start: Place,
}

/// Why parts make no program; where several faults hold, the one with the least number is returned.
#[derive(Clone, Copy, Debug, PartialEq, Eq)]
pub enum BuildFault {
    /// 1: more instructions, tasks, targets of a task, or bytes of either region than the limits allow.
    TooMany,
    /// 2: no task.
    NoTask,
    /// 3: an entry is no instruction.
    BadEntry,
    /// 4: two tasks have one entry or one name.
    DuplicateEntry,
    /// 5: a create mask has register 0.
    BadMask,
    /// 6: the marks of the instruction at this index, the least such, don't fit it.
    BadMark(u32),
    /// 7: the start is no task's entry.
    BadStart,
}

/// A well-formed annotated program: parts of which no `BuildFault` holds.
#[derive(Debug, Drop)]
pub struct Program {
    code: Vec<Marked>,
    bytes: Vec<u8>,
    fixed: Vec<u8>,
    tasks: Vec<Descriptor>,
    start: Place,
}

impl Model for Program {
    ghost use Rattle.task_descriptor.specs.Listing.{Listing, IsWellFormed};

    ghost Value = { Listing };

    ghost view = { λ p. record {
      code = p.code.items;
      bytes = p.bytes.items;
      fixed = p.fixed.items;
      tasks = p.tasks.items;
      start = p.start;
    } };

    ghost invariant = { λ p. IsWellFormed (record {
      code = p.code.items;
      bytes = p.bytes.items;
      fixed = p.fixed.items;
      tasks = p.tasks.items;
      start = p.start;
    }) };
}

impl Program {
    ghost use Rattle.std.specs.Prelude.{◌≡◌, ◌↔◌, ◌+◌, ◌*◌, ◌<◌, Some, IsTrue, IfOk, MatchResult, map, position, ◌==◌, option_copied, slice_get};
    ghost use Rattle.mips_instructions.specs.Words.{address};
    ghost use Rattle.mips_plain.specs.PlainView.{IsAfter};
    ghost use Rattle.task_descriptor.specs.Listing.{Listing, IsWellFormed, build_fault, listing_of, instruction_at, input};

    /// The program that the parts make.
    ///
    /// # Errors
    ///
    /// The first fault that holds of the parts, with the parts as they were.
    pub fn build(parts: Parts) -> Result<Program, (Parts, BuildFault)>
        ensures built { MatchResult result
            (λ program. (program ≡ listing_of parts) × (build_fault (listing_of parts) ≡ None))
            (λ refused. (refused.0 ≡ parts) × (build_fault (listing_of parts) ≡ Some refused.1)) }
    {
        match fault_of(&parts) {
            Some(fault) => Err((parts, fault)),
            None => {
                name_registers(&parts);
                let Parts {
                    code,
                    bytes,
                    fixed,
                    tasks,
                    start,
                } = parts;
                Ok(Program {
                    code,
                    bytes,
                    fixed,
                    tasks,
                    start,
                })
            }
        }
    }

    /// The instructions, index 0 first; at most 4,096.
    pub fn code(&self) -> &[Marked]
        ensures value { result.now ≡ self.now.code }
        ensures well_formed { IsWellFormed self.now }
    {
        &self.code
    }

    /// The bytes that data memory begins with; at most 65,536.
    pub fn bytes(&self) -> &[u8]
        ensures value { result.now ≡ self.now.bytes }
        ensures well_formed { IsWellFormed self.now }
    {
        &self.bytes
    }

    /// The bytes that read-only data begins with; at most 65,536.
    pub fn fixed(&self) -> &[u8]
        ensures value { result.now ≡ self.now.fixed }
        ensures well_formed { IsWellFormed self.now }
    {
        &self.fixed
    }

    /// The tasks, task 0 first; at most 1,024.
    pub fn tasks(&self) -> &[Descriptor]
        ensures value { result.now ≡ self.now.tasks }
        ensures well_formed { IsWellFormed self.now }
    {
        &self.tasks
    }

    /// The code index of the first instruction, which is a task's entry.
    pub fn start(&self) -> Place
        ensures value { result ≡ self.now.start }
        ensures well_formed { IsWellFormed self.now }
    {
        self.start
    }

    /// Whether the two are equal: the same instructions with the same marks, the same bytes, the same tasks in
    /// the same order, the same start. Takes no memory.
    pub fn is_same(&self, other: &Program) -> bool
        ensures { IsTrue result ↔ (self.now ≡ other.now) }
    {
        if self.bytes != other.bytes || self.fixed != other.fixed || self.start != other.start {
            return false;
        }
        if !is_same_code(&self.code, &other.code) {
            return false;
        }
        are_same_tasks(&self.tasks, &other.tasks)
    }

    /// The plain machine at the program's start: it takes the instructions without their marks, and no task.
    ///
    /// # Errors
    ///
    /// `OutOfMemory` where memory was refused; nothing is left behind then.
    pub fn plain(&self, alloc: Global) -> Result<Plain, OutOfMemory>
        ensures { IfOk result (λ machine. IsAfter (input self.now) 0 machine) }
    {
        let code = unmarked(alloc, &self.code)?;
        match Plain::new(alloc, code, &self.bytes, &self.fixed, self.start) {
            Ok(machine) => Ok(machine),
            Err(refused) => match refused.fault {
                PlainFault::OutOfMemory => Err(OutOfMemory),
                PlainFault::TooMany | PlainFault::TooMuch => unreachable!(),
            },
        }
    }

    /// The parts that the program was built from.
    pub fn parts(self) -> Parts
        ensures { listing_of result ≡ self }
    {
        let Program {
            code,
            bytes,
            fixed,
            tasks,
            start,
        } = self;
        Parts {
            code,
            bytes,
            fixed,
            tasks,
            start,
        }
    }

    /// The address, in bytes, of the instruction at a code index: 0x00400000 + 4 * index.
    pub fn address(&self, place: Place) -> u32
        ensures { result ≡ address place }
    {
        address_of(place.get())
    }

    /// The code index of the instruction at an address, in bytes; `None` where the program has no instruction
    /// there.
    pub fn index(&self, address: u32) -> Option<u32>
        ensures { result ≡ instruction_at self.now address }
    {
        let index = index_of(address)?;
        if (index as usize) < self.code.len() {
            Some(index)
        } else {
            None
        }
    }

    /// The number, from 0, of the task whose entry is this code index; `None` where no task begins there.
    pub fn task_at(&self, index: u32) -> Option<u32>
        ensures { result ≡ position (λ t. t.entry == index) self.now.tasks }
    {
        match position_of(&self.tasks, index) {
            Some(task) => Some(task as u32),
            None => None,
        }
    }
}

ghost use Rattle.std.specs.Prelude.{◌≡◌, ◌==◌, ◌<◌, length, position, map, IfSome, IfOk};
ghost use Rattle.mips_instructions.specs.Words.{index_of as index_of_address};

fn unmarked(alloc: Global, code: &[Marked]) -> Result<Vec<Op>, AllocError>
    ensures { IfOk result (λ ops. ops.items ≡ map (λ m. m.op) code.now) }
{
    let mut ops = Vec::with_capacity(alloc, code.len())?;
    for marked in code {
        ops.push(marked.op)?;
    }
    Ok(ops)
}

#[tactic(auto, unfolding(mips_instructions::specs::Words::index_of))]
fn index_of(address: u32) -> Option<u32>
    ensures { result ≡ index_of_address address }
{
    if address >= CODE_START && (address - CODE_START) % 4 == 0 {
        Some((address - CODE_START) / 4)
    } else {
        None
    }
}

fn position_of(tasks: &[Descriptor], index: u32) -> Option<usize>
    ensures { result ≡ position (λ t. t.entry == index) tasks.now }
{
    tasks.iter().position(|task| task.entry.get() == index)
}
