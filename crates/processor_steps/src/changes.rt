//! What an allowed event changes. Each of these functions fails only for lack of memory, and then nothing
//! is changed.

ghost use Rattle.std.specs.Prelude.{◌≡◌, ℕ, ◌+◌, ◌-◌, ◌^◌, ◌<◌, None, Some, OnOk, OnErr, drop, length, slice_get, slice_set, slice_index};
ghost use Rattle.std.specs.Option.{option_and_then};
ghost use Rattle.machine_model.specs.Machine.{Active, pass};
ghost use Rattle.machine_model.specs.Unit.{exit_of};
ghost use Rattle.machine_model.specs.Answer.{refusal, after, with_queue};
ghost use Rattle.machine_model.specs.declared.event.Event.TheVariants as event;
ghost use Rattle.processor_steps.specs.Processors.{state_of, actives, Keeps};
ghost use Rattle.unit_core.specs.Units.{active_of};
ghost use Rattle.unit_core.specs.Bursts.{carried_on};

use crate::processor::Processor;
use machine_model::event::{Commit, Standing};
use mips_instructions::number::Reg;
use mips_plain::outcome::OutOfMemory;
use std::alloc::Global;
use std::mem;
use task_descriptor::program::Program;
use unit_core::burst::Burst;
use unit_core::read_log::ReadLog;
use unit_core::unit::{Unit, created};

impl Processor {
    /// A unit begins a task after the tail.
    pub(crate) fn assign(&mut self, alloc: Global, program: &Program, task: u32)
        requires there { task < length program.now.tasks }
        requires free { length self.old.queue.units < self.old.queue.capacity }
        requires room { self.old.assigns + 1 < 2 ^ 32 }
        ensures state { state_of self.new ≡ after program.now (state_of self.old) (event.Assign task) }
        ensures kept { Keeps self.old self.new }
    {
        let reserved = self.queue.reserved(program);
        let log = mem::replace(&mut self.spare, ReadLog::new(alloc));
        self.queue.push(Unit::with_room(
            log,
            program,
            task,
            self.assigns,
            &self.registers,
            reserved,
        ));
        self.assigns += 1;
    }

    /// The unit at a position, counted from the head, continues from where a burst ended; a burst with many
    /// reads is left without instructions. The burst was made on that unit, and since then at most more
    /// registers have arrived there. Where no unit is at the position, only the number of units and read-only
    /// data are promised.
    ///
    /// # Errors
    ///
    /// `OutOfMemory` where memory was refused for the reads of the burst; nothing is changed then.
    pub fn take_burst(&mut self, position: u32, burst: &mut Burst<'_>) -> Result<(), OutOfMemory>
        ensures state { OnOk result ((u : Active) → slice_get (state_of self.old).queue position ≡ Some u
            → state_of self.new ≡ with_queue (state_of self.old) (slice_set (state_of self.old).queue position (carried_on (active_of burst.old.after) u))) }
        ensures err { OnErr result ((self.new ≡ self.old) × (burst.new ≡ burst.old)) }
        ensures kept { Keeps self.old self.new }
    {
        self.queue.take(position as usize, burst)
    }

    /// The unit at a position takes a register with the word that the unit before it passes on.
    #[inline]
    pub(crate) fn take_word(&mut self, program: &Program, position: u32, register: Reg, word: u32)
        requires allowed { refusal program.now self.old.queue.capacity (state_of self.old) (event.Transfer position register) ≡ None }
        requires word { option_and_then (λ giver. pass program.now giver register) (slice_get (state_of self.old).queue (position - 1)) ≡ Some word }
        ensures state { state_of self.new ≡ after program.now (state_of self.old) (event.Transfer position register) }
        ensures kept { Keeps self.old self.new }
    {
        // Read only so that the contract can mention the program; the change itself does not need it.
        let _ = program.start();
        self.queue.arrive(position as usize, register, word);
    }

    /// The unit at a position, which has stopped, sends a register.
    #[inline]
    pub(crate) fn send_word(&mut self, program: &Program, position: u32, register: Reg)
        requires { refusal program.now self.old.queue.capacity (state_of self.old) (event.Drain position register) ≡ None }
        ensures state { state_of self.new ≡ after program.now (state_of self.old) (event.Drain position register) }
        ensures kept { Keeps self.old self.new }
    {
        self.queue.send(position as usize, program, register);
    }

    /// Removes all units after a position.
    pub(crate) fn squash(&mut self, program: &Program, position: u32)
        ensures state { state_of self.new ≡ after program.now (state_of self.old) (event.Squash position) }
        ensures kept { Keeps self.old self.new }
    {
        // Read only so that the contract can mention the program; the change itself does not need it.
        let _ = program.start();
        self.queue.keep(position as usize + 1);
    }

    /// Removes the unit at a position and all after it.
    pub(crate) fn drop_from(&mut self, program: &Program, position: u32)
        ensures state { state_of self.new ≡ after program.now (state_of self.old) (event.Drop position) }
        ensures kept { Keeps self.old self.new }
    {
        // Read only so that the contract can mention the program; the change itself does not need it.
        let _ = program.start();
        self.queue.keep(position as usize);
    }

    /// The run ends at an unlisted address, at which the head has stopped.
    pub(crate) fn fault(&mut self, program: &Program, exit: u32)
        requires { option_and_then (λ u. exit_of u.place) (slice_get (state_of self.old).queue 0) ≡ Some exit }
        ensures state { state_of self.new ≡ after program.now (state_of self.old) event.Fault }
        ensures kept { Keeps self.old self.new }
    {
        // Read only so that the contract can mention the program; the change itself does not need it.
        let _ = program.start();
        self.world.end(Standing::Unlisted(exit));
    }

    /// The head retires at an exit: its registers and reads are taken over, and it leaves the queue; the next
    /// unit takes what has not arrived.
    ///
    /// # Errors
    ///
    /// `OutOfMemory` where there is no room for its reads or its commit; nothing is changed then.
    pub(crate) fn retire(&mut self, program: &Program, exit: u32) -> Result<(), OutOfMemory>
        requires exit { option_and_then (λ u. exit_of u.place) (slice_get (state_of self.old).queue 0) ≡ Some exit }
        requires small { (u : Active) → slice_get (state_of self.old).queue 0 ≡ Some u → length u.log < 2 ^ 32 }
        ensures state { OnOk result (state_of self.new ≡ after program.now (state_of self.old) event.Retire) }
        ensures kept { Keeps self.old self.new }
        ensures err { OnErr result (self.new ≡ self.old) }
    {
        let Some(head) = self.queue.get(0) else {
            return Ok(());
        };
        let create = created(program, head.task());
        let commit = Commit {
            task: head.task(),
            exit,
            count: head.reads().len() as u32,
        };
        self.commits.reserve(1)?;
        self.queue.pop_into(
            create,
            &mut self.registers,
            &mut self.reads,
            &mut self.spare,
        )?;
        self.commits.push_reserved(commit);
        self.queue.fill_head(&self.registers);
        self.next = exit;
        Ok(())
    }
}
