//! One event on a processor: what refuses it, in order, or else what it changes.

ghost use Rattle.std.specs.Prelude.{◌≡◌, ℕ, ◌+◌, ◌^◌, ◌<◌, ◌↔◌, Some, None, IsTrue};
ghost use Rattle.std.specs.Option.{option_or};
ghost use Rattle.machine_model.specs.Answer.{refusal};
ghost use Rattle.machine_model.specs.declared.event.Refused.TheVariants as refused;
ghost use Rattle.machine_model.specs.declared.event.Event.TheVariants as events;
ghost use Rattle.machine_model.specs.declared.event.Standing.TheVariants as standing;
ghost use Rattle.processor_steps.specs.Processors.{state_of, Steps, executed_by};
ghost use Rattle.processor_steps.specs.CallParts.{Does};

use crate::allowed::room_behind;
use crate::known::known;
use crate::processor::Processor;
use limits::ranges::MOST_EVENTS;
use machine_model::event::{Event, Refused};
use machine_model::laws::bursts_are_events;
use mips_instructions::number::Reg;
use mips_plain::outcome::OutOfMemory;
use std::alloc::Global;
use task_descriptor::program::Program;

impl Processor {
    /// Assign, after `count` events.
    #[inline(always)]
    pub(crate) fn try_assign(
        &mut self,
        alloc: Global,
        program: &Program,
        count: usize,
        task: u32,
    ) -> Result<(), Refused>
        requires { self.old.assigns + 1 < 2 ^ 32 }
        ensures { Does program.now self.old count (events.Assign task) result self.new }
    {
        self.may_assign(program, task)?;
        room_behind(count)?;
        self.assign(alloc, program, task);
        Ok(())
    }

    /// Transfer, after `count` events.
    #[inline]
    pub(crate) fn try_transfer(
        &mut self,
        program: &Program,
        count: usize,
        position: u32,
        register: Reg,
    ) -> Result<(), Refused>
        ensures { Does program.now self.old count (events.Transfer position register) result self.new }
    {
        let word = self.word_to_take(program, position, register)?;
        room_behind(count)?;
        self.take_word(program, position, register, word);
        Ok(())
    }

    /// Drain, after `count` events.
    #[inline]
    pub(crate) fn try_drain(
        &mut self,
        program: &Program,
        count: usize,
        position: u32,
        register: Reg,
    ) -> Result<(), Refused>
        ensures { Does program.now self.old count (events.Drain position register) result self.new }
    {
        self.may_send(program, position, register)?;
        room_behind(count)?;
        self.send_word(program, position, register);
        Ok(())
    }

    /// Squash, after `count` events.
    pub(crate) fn try_squash(
        &mut self,
        program: &Program,
        count: usize,
        position: u32,
    ) -> Result<(), Refused>
        ensures { Does program.now self.old count (events.Squash position) result self.new }
    {
        self.may_squash(program, position)?;
        room_behind(count)?;
        self.squash(program, position);
        Ok(())
    }

    /// Fault, after `count` events.
    pub(crate) fn try_fault(&mut self, program: &Program, count: usize) -> Result<(), Refused>
        ensures { Does program.now self.old count events.Fault result self.new }
    {
        let exit = self.unlisted_exit(program)?;
        room_behind(count)?;
        self.fault(program, exit);
        Ok(())
    }

    /// Drop, after `count` events.
    pub(crate) fn try_drop(
        &mut self,
        program: &Program,
        count: usize,
        position: u32,
    ) -> Result<(), Refused>
        ensures { Does program.now self.old count (events.Drop position) result self.new }
    {
        self.may_drop(program, position)?;
        room_behind(count)?;
        self.drop_from(program, position);
        Ok(())
    }

    /// Executes one instruction of the head, while the run continues, after `count` events: `step` for an Exec
    /// at position 0. It is a separate call because most events are of this kind, so it pays not to look for
    /// others.
    ///
    /// # Errors
    ///
    /// The first refusal that holds, `Full` the last of them, else `OutOfMemory` where memory was refused;
    /// nothing is changed then.
    #[inline(always)]
    pub fn exec_head(&mut self, program: &Program, count: usize) -> Result<(), Refused>
        requires runs { self.old.world.outcome ≡ standing.Running }
        ensures { Steps program.now self.old count (events.Exec 0) result self.new }
    {
        if count >= MOST_EVENTS {
            return Err(self.exec_when_full(program, 0));
        }
        self.queue.exec_head(program, &mut self.world)
    }

    /// Like `exec_head`, but for the unit at a position after the head, 1 or more.
    ///
    /// # Errors
    ///
    /// Those of `exec_head`; nothing is changed then.
    #[inline(always)]
    pub fn exec_ahead(
        &mut self,
        program: &Program,
        count: usize,
        position: u32,
    ) -> Result<(), Refused>
        requires behind { 0 < position }
        requires runs { self.old.world.outcome ≡ standing.Running }
        ensures { Steps program.now self.old count (events.Exec position) result self.new }
    {
        bursts_are_events();
        if count >= MOST_EVENTS {
            return Err(self.exec_when_full(program, position));
        }
        self.queue.exec_ahead(position as usize, program)
    }

    /// Like `exec_head`, but for the unit at any position.
    #[inline(never)]
    fn exec(&mut self, program: &Program, count: usize, position: u32) -> Result<(), Refused>
        requires runs { self.old.world.outcome ≡ standing.Running }
        ensures { Steps program.now self.old count (events.Exec position) result self.new }
    {
        if position == 0 {
            self.exec_head(program, count)
        } else {
            self.exec_ahead(program, count, position)
        }
    }

    /// What refuses an Exec where the history is full.
    fn exec_when_full(&self, program: &Program, position: u32) -> Refused
        ensures { Some result ≡ option_or (refusal program.now self.now.queue.capacity (state_of self.now) (events.Exec position)) (Some refused.Full) }
    {
        match self.queue.exec_refusal(position as usize, program) {
            Some(refused) => refused,
            None => Refused::Full,
        }
    }

    /// Retire, after `count` events.
    #[inline(always)]
    pub(crate) fn try_retire(&mut self, program: &Program, count: usize) -> Result<(), Refused>
        requires runs { self.old.world.outcome ≡ standing.Running }
        requires executed { executed_by (state_of self.old) < 2 ^ 32 }
        ensures { Steps program.now self.old count events.Retire result self.new }
    {
        known(program);
        let exit = self.exit_to_retire_at(program)?;
        room_behind(count)?;
        match self.retire(program, exit) {
            Ok(()) => Ok(()),
            Err(OutOfMemory) => Err(Refused::OutOfMemory),
        }
    }

    /// Applies one event while the run continues, after `count` events. Exec and Retire may take memory; no
    /// other event does.
    ///
    /// # Errors
    ///
    /// The first refusal that holds, `Full` the last of them, else for Exec and Retire alone `OutOfMemory`
    /// where memory was refused; nothing is changed then.
    #[inline(always)]
    pub fn step(
        &mut self,
        alloc: Global,
        program: &Program,
        count: usize,
        event: &Event,
    ) -> Result<(), Refused>
        requires runs { self.old.world.outcome ≡ standing.Running }
        requires assigned { self.old.assigns + 1 < 2 ^ 32 }
        requires executed { executed_by (state_of self.old) < 2 ^ 32 }
        ensures { Steps program.now self.old count event.now result self.new }
    {
        known(program);
        match *event {
            Event::Assign(task) => self.try_assign(alloc, program, count, task),
            Event::Exec(position) => self.exec(program, count, position),
            Event::Transfer(position, register) => self.try_transfer(
                program, count, position, register,
            ),
            Event::Drain(position, register) => self.try_drain(program, count, position, register),
            Event::Squash(position) => self.try_squash(program, count, position),
            Event::Retire => self.try_retire(program, count),
            Event::Fault => self.try_fault(program, count),
            Event::Drop(position) => self.try_drop(program, count, position),
        }
    }

    /// Whether an event is refused by nothing but, perhaps, the run's end or a full history.
    pub fn is_allowed(&self, program: &Program, event: Event) -> bool
        ensures { IsTrue result ↔ (refusal program.now self.now.queue.capacity (state_of self.now) event ≡ None) }
    {
        match event {
            Event::Assign(task) => self.may_assign(program, task).is_ok(),
            Event::Exec(position) => self
                .queue
                .exec_refusal(position as usize, program)
                .is_none(),
            Event::Transfer(position, register) => self
                .word_to_take(program, position, register)
                .is_ok(),
            Event::Drain(position, register) => self.may_send(program, position, register).is_ok(),
            Event::Squash(position) => self.may_squash(program, position).is_ok(),
            Event::Retire => self.exit_to_retire_at(program).is_ok(),
            Event::Fault => self.unlisted_exit(program).is_ok(),
            Event::Drop(position) => self.may_drop(program, position).is_ok(),
        }
    }
}
