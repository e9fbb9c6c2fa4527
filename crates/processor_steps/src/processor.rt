//! The state that the events of a machine change: the queue of units, registers, memory and output, and what
//! retired; and how it is read.

use crate::queue::Queue;
use machine_model::event::Commit;
use mips_instructions::number::REGISTERS;
use mips_plain::memory::{Memory, MemoryFault};
use mips_plain::outcome::OutOfMemory;
use std::alloc::Global;
use std::marker::Model;
use task_descriptor::program::Program;
use unit_core::read_log::ReadLog;
use unit_core::unit::Unit;
use unit_core::world::World;

/// The state that the events of a machine change.
#[derive(Debug, Drop)]
pub struct Processor {
    /// The units at work.
    pub(crate) queue: Queue,
    /// The registers that the head's task began with.
    pub(crate) registers: [u32; 34],
    /// Memory, output and outcome.
    pub(crate) world: World,
    /// The address at which the next task after the retired ones begins.
    pub(crate) next: u32,
    /// What the retired tasks read.
    pub(crate) reads: ReadLog,
    /// One commit for each retired task.
    pub(crate) commits: Vec<Commit>,
    /// How many times a task was assigned.
    pub(crate) assigns: u32,
    /// The log of the unit that retired last, without its reads: the next unit takes its room.
    pub(crate) spare: ReadLog,
}

impl Model for Processor {
    ghost use Rattle.processor_steps.specs.Processors.{ProcessorView};

    ghost Value = { ProcessorView };

    ghost view = { λ p. record {
      queue = p.queue;
      registers = p.registers;
      world = p.world;
      next = p.next;
      reads = p.reads.reads;
      commits = p.commits.items;
      assigns = p.assigns;
    } };
}

impl Processor {
    ghost use Rattle.std.specs.Prelude.{◌≡◌, ℕ, ◌≤◌, length, slice_get, IfOk};
    ghost use Rattle.std.specs.Option.{option_copied, option_map};
    ghost use Rattle.mips_plain.specs.MemoryMap.{byte_of};
    ghost use Rattle.machine_model.specs.Machine.{opening};
    ghost use Rattle.unit_core.specs.Units.{active_of};
    ghost use Rattle.processor_steps.specs.Processors.{state_of, position_with as position_with_serial};

    /// A processor at the start of a program, with up to 16 units, all of them free.
    ///
    /// # Errors
    ///
    /// `OutOfMemory` where memory was refused for the ring or the memory.
    pub fn new(alloc: Global, program: &Program, units: u32) -> Result<Processor, OutOfMemory>
        requires { units ≤ 16 }
        ensures opening { IfOk result (λ processor. state_of processor ≡ opening program.now) }
        ensures capacity { IfOk result (λ processor. processor.queue.capacity ≡ units) }
        ensures fixed { IfOk result (λ processor. byte_of processor.world.contents.fixed ≡ byte_of program.now.fixed) }
    {
        let queue = Queue::new(alloc, units)?;
        match Memory::new(alloc, program.bytes(), program.fixed()) {
            Ok(memory) => Ok(Processor {
                queue,
                registers: [0; REGISTERS],
                world: World::new(alloc, memory),
                next: program.address(program.start()),
                reads: ReadLog::new(alloc),
                commits: Vec::new(alloc),
                assigns: 0,
                spare: ReadLog::new(alloc),
            }),
            Err(MemoryFault::OutOfMemory) => Err(OutOfMemory),
            Err(MemoryFault::TooMuch) => unreachable!(),
        }
    }

    /// The number of units, at work or free; at most 16.
    #[inline]
    pub fn capacity(&self) -> u32
        ensures capacity { result ≡ self.now.queue.capacity }
        ensures within { self.now.queue.capacity ≤ 16 }
    {
        self.queue.capacity()
    }

    /// The number of units at work.
    #[inline]
    pub fn active(&self) -> u32
        ensures active { result ≡ length (state_of self.now).queue }
        ensures within { length (state_of self.now).queue ≤ self.now.queue.capacity }
    {
        self.queue.len()
    }

    /// The unit at a position, counted from the head, which is 0; `None` past the tail.
    #[inline]
    pub fn unit(&self, position: u32) -> Option<&Unit>
        ensures { option_map active_of (option_copied result) ≡ slice_get (state_of self.now).queue position }
    {
        self.queue.get(position as usize)
    }

    /// The position, counted from the head, of the unit with a serial number; `None` where no unit at work has
    /// it.
    pub fn position_with(&self, serial: u32) -> Option<u32>
        ensures { result ≡ position_with_serial (state_of self.now).queue serial }
    {
        self.queue.position_with(serial)
    }

    /// Memory, the output, and the run's outcome.
    #[inline]
    pub fn world(&self) -> &World
        ensures { result.now ≡ self.now.world }
    {
        &self.world
    }

    /// The address, in bytes, at which the next task after the retired ones begins.
    #[inline]
    pub fn next(&self) -> u32
        ensures { result ≡ self.now.next }
    {
        self.next
    }

    /// What the instructions of the retired tasks read, oldest first.
    #[inline]
    pub fn reads(&self) -> &ReadLog
        ensures { result.now.reads ≡ self.now.reads }
    {
        &self.reads
    }

    /// One commit for each retired task, oldest first.
    #[inline]
    pub fn commits(&self) -> &[Commit]
        ensures { result.now ≡ self.now.commits }
    {
        &self.commits
    }
}
