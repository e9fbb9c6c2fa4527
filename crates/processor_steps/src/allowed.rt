//! Whether an event is allowed: each function returns the first refusal other than 1 Ended and
//! 16 Full, or what the event needs. None changes anything or takes memory.

ghost use Rattle.std.specs.Prelude.{◌≡◌, ℕ, ◌-◌, ◌<◌, None, Some, IfOk, OnOk, length, slice_get, is_none, nat_lt, drop};
ghost use Rattle.std.specs.Result.{result_err};
ghost use Rattle.std.specs.Option.{option_and_then};
ghost use Rattle.std.specs.List.{last_or};
ghost use Rattle.machine_model.specs.Machine.{Active, creates, pass};
ghost use Rattle.machine_model.specs.Step.{follows, next_begins};
ghost use Rattle.machine_model.specs.Refusals.{least, unless};
ghost use Rattle.machine_model.specs.Unit.{exit_of};
ghost use Rattle.machine_model.specs.Answer.{refusal, most_events};
ghost use Rattle.machine_model.specs.declared.event.Event.TheVariants as event;
ghost use Rattle.machine_model.specs.declared.event.Refused.TheVariants as refused;
ghost use Rattle.processor_steps.specs.Processors.{state_of};
ghost use Rattle.unit_core.specs.Units.{active_of};

use crate::listing::{begins, is_listed, may_follow};
use crate::processor::Processor;
use limits::ranges::MOST_EVENTS;
use machine_model::event::{Refused, Spot};
use mips_instructions::number::Reg;
use register_ring::members::next_member;
use task_descriptor::program::Program;
use unit_core::unit::{Unit, created};

/// The address at which a unit has stopped.
#[inline]
fn exit_of_unit(unit: &Unit) -> Option<u32>
    ensures { result ≡ exit_of (active_of unit.now).place }
{
    match unit.spot() {
        Spot::Stopped(exit) => Some(exit),
        Spot::Inside(_) => None,
    }
}

impl Processor {
    /// Whether a task may follow the tail, or begin on an empty queue.
    fn follows_tail(&self, program: &Program, task: u32) -> bool
        ensures { result ≡ follows program.now (state_of self.now).next task (last_or None (state_of self.now).queue) }
    {
        match self.queue.tail() {
            Some(tail) => may_follow(program, tail.task(), task, tail.spot()),
            None => begins(program, task) == self.next,
        }
    }

    /// Whether a task may be assigned.
    pub(crate) fn may_assign(&self, program: &Program, task: u32) -> Result<(), Refused>
        ensures refused { result_err result ≡ refusal program.now self.now.queue.capacity (state_of self.now) (event.Assign task) }
        ensures there { OnOk result (task < length program.now.tasks) }
        ensures free { OnOk result (length self.now.queue.units < self.now.queue.capacity) }
    {
        if self.queue.len() >= self.queue.capacity() {
            return Err(Refused::NoUnit);
        }
        if task as usize >= program.tasks().len() {
            return Err(Refused::NoSuch);
        }
        if self.follows_tail(program, task) {
            Ok(())
        } else {
            Err(Refused::NotATarget)
        }
    }

    /// The word that the unit at a position takes for a register.
    pub(crate) fn word_to_take(
        &self,
        program: &Program,
        position: u32,
        register: Reg,
    ) -> Result<u32, Refused>
        ensures refused { result_err result ≡ refusal program.now self.now.queue.capacity (state_of self.now) (event.Transfer position register) }
        ensures word { IfOk result (λ word. option_and_then (λ giver. pass program.now giver register) (slice_get (state_of self.now).queue (position - 1)) ≡ Some word) }
    {
        if position == 0 {
            return Err(Refused::NoSuch);
        }
        let Some(unit) = self.queue.get(position as usize) else {
            return Err(Refused::NoSuch);
        };
        if unit.arrived(register).is_some() {
            return Err(Refused::AlreadyThere);
        }
        match self.word_passed(program, position - 1, register) {
            Some(word) => Ok(word),
            None => Err(Refused::NotYet(register)),
        }
    }

    /// The word that the unit at a position passes on for a register.
    fn word_passed(&self, program: &Program, position: u32, register: Reg) -> Option<u32>
        ensures { result ≡ option_and_then (λ giver. pass program.now giver register) (slice_get (state_of self.now).queue position) }
    {
        match self.queue.get(position as usize) {
            Some(giver) => giver.pass(created(program, giver.task()), register),
            None => None,
        }
    }

    /// Whether the unit at a position, which must have stopped, may send a register.
    pub(crate) fn may_send(
        &self,
        program: &Program,
        position: u32,
        register: Reg,
    ) -> Result<(), Refused>
        ensures refused { result_err result ≡ refusal program.now self.now.queue.capacity (state_of self.now) (event.Drain position register) }
    {
        let Some(unit) = self.queue.get(position as usize) else {
            return Err(Refused::NoSuch);
        };
        if !created(program, unit.task()).has(register) {
            return Err(Refused::NoSuch);
        }
        if exit_of_unit(unit).is_none() {
            return Err(Refused::NotStopped);
        }
        if unit.sent(register).is_some() {
            return Err(Refused::AlreadyThere);
        }
        if unit.value(register).is_none() {
            return Err(Refused::NotYet(register));
        }
        Ok(())
    }

    /// Whether all units after a position may be squashed.
    pub(crate) fn may_squash(&self, program: &Program, position: u32) -> Result<(), Refused>
        ensures { result_err result ≡ refusal program.now self.now.queue.capacity (state_of self.now) (event.Squash position) }
    {
        let Some(after) = self.queue.get(position as usize + 1) else {
            return Err(Refused::NoSuch);
        };
        let Some(exit) = self.exit_at(position) else {
            return Err(Refused::NotStopped);
        };
        if begins(program, after.task()) == exit {
            return Err(Refused::NoMismatch);
        }
        Ok(())
    }

    /// The address at which the unit at a position has stopped.
    fn exit_at(&self, position: u32) -> Option<u32>
        ensures { result ≡ option_and_then (λ u. exit_of u.place) (slice_get (state_of self.now).queue position) }
    {
        match self.queue.get(position as usize) {
            Some(unit) => exit_of_unit(unit),
            None => None,
        }
    }

    /// The exit at which the head may retire.
    pub(crate) fn exit_to_retire_at(&self, program: &Program) -> Result<u32, Refused>
        ensures refused { result_err result ≡ refusal program.now self.now.queue.capacity (state_of self.now) event.Retire }
        ensures exit { IfOk result (λ exit. option_and_then (λ u. exit_of u.place) (slice_get (state_of self.now).queue 0) ≡ Some exit) }
    {
        let Some(head) = self.queue.get(0) else {
            return Err(Refused::NoSuch);
        };
        let Some(exit) = exit_of_unit(head) else {
            return Err(Refused::NotStopped);
        };
        if let Some(register) = unsent(program, head) {
            return Err(Refused::Unfinished(register));
        }
        if !self.next_begins_at(program, exit) {
            return Err(Refused::Mismatch);
        }
        if !is_listed(program, head.task(), exit) {
            return Err(Refused::NotListed);
        }
        Ok(exit)
    }

    /// Whether the unit after the head, if there is one, begins at an address.
    pub(crate) fn next_begins_at(&self, program: &Program, at: u32) -> bool
        ensures { result ≡ next_begins program.now (drop 1 (state_of self.now).queue) at }
    {
        match self.queue.get(1) {
            Some(next) => begins(program, next.task()) == at,
            None => true,
        }
    }

    /// The unlisted address at which the head has stopped.
    pub(crate) fn unlisted_exit(&self, program: &Program) -> Result<u32, Refused>
        ensures refused { result_err result ≡ refusal program.now self.now.queue.capacity (state_of self.now) event.Fault }
        ensures exit { IfOk result (λ exit. option_and_then (λ u. exit_of u.place) (slice_get (state_of self.now).queue 0) ≡ Some exit) }
    {
        let Some(head) = self.queue.get(0) else {
            return Err(Refused::NoSuch);
        };
        let Some(exit) = exit_of_unit(head) else {
            return Err(Refused::NotStopped);
        };
        if is_listed(program, head.task(), exit) {
            return Err(Refused::IsListed);
        }
        Ok(exit)
    }

    /// Whether the unit at a position and all after it may be dropped.
    pub(crate) fn may_drop(&self, program: &Program, position: u32) -> Result<(), Refused>
        ensures { result_err result ≡ refusal program.now self.now.queue.capacity (state_of self.now) (event.Drop position) }
    {
        if position == 0 || self.queue.get(position as usize).is_none() {
            return Err(Refused::NoSuch);
        }
        Ok(())
    }
}

/// Whether the history has room after the given number of events.
#[inline]
pub(crate) fn room_behind(count: usize) -> Result<(), Refused>
    ensures { result_err result ≡ unless (nat_lt count most_events) refused.Full None }
{
    if count < MOST_EVENTS {
        Ok(())
    } else {
        Err(Refused::Full)
    }
}

/// The least register of a unit's create mask that it has not sent.
pub(crate) fn unsent(program: &Program, unit: &Unit) -> Option<Reg>
    ensures { result ≡ least (creates program.now (active_of unit.now).task) (λ r. is_none ((active_of unit.now).sent r)) }
{
    next_member(created(program, unit.task()).minus(unit.sent_set()), 0)
}
