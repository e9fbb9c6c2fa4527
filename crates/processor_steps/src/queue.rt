//! The queue of units from the head to the tail: a ring as long as there are units (Sohi, Breach,
//! Vijaykumar, ISCA 1995, section 2: a circular queue of units with a head and a tail).

use circular_buffer::HeapCircularBuffer;
use machine_model::event::Refused;
use mips_instructions::number::{Reg, RegSet};
use mips_plain::outcome::OutOfMemory;
use register_ring::members::next_member;
use std::alloc::{AllocError, Global};
use std::marker::Model;
use task_descriptor::program::Program;
use unit_core::burst::Burst;
use unit_core::read_log::ReadLog;
use unit_core::unit::{Unit, created};
use unit_core::wait::Wait;
use unit_core::world::World;

/// The units at work, in a ring as long as there are units.
#[derive(Debug, Drop)]
pub(crate) struct Queue {
    ring: HeapCircularBuffer<Unit>,
}

impl Model for Queue {
    ghost use Rattle.std.specs.Prelude.{◌≤◌, length};
    ghost use Rattle.processor_steps.specs.Processors.{QueueView};

    ghost Value = { QueueView };

    ghost view = { λ q. record { units = q.ring.items; capacity = q.ring.capacity } };

    ghost invariant = { λ q. (length q.ring.items ≤ q.ring.capacity) × (q.ring.capacity ≤ 16) };
}

impl Queue {
    ghost use Rattle.std.specs.Prelude.{◌≡◌, ℕ, ◌<◌, ◌≤◌, ◌↔◌, IsTrue, [], ◌∷◌, ◌++◌, None, Some, length, take, drop, nat_eq, slice_get, slice_set, slice_index, true, false, if◌then◌else◌, unwrap_or, IfOk, IfErr, OnOk, OnErr};
    ghost use Rattle.std.specs.Option.{option_copied, option_map};
    ghost use Rattle.std.specs.List.{last_or};
    ghost use Rattle.mips_instructions.specs.Words.{has};
    ghost use Rattle.machine_model.specs.Machine.{Active};
    ghost use Rattle.machine_model.specs.Refusals.{for_some};
    ghost use Rattle.machine_model.specs.Unit.{exec_refusal as refusal_of, drain_refusal, after_drain, put, operand};
    ghost use Rattle.machine_model.specs.Step.{is_reserved, filled};
    ghost use Rattle.unit_core.specs.Units.{active_of};
    ghost use Rattle.unit_core.specs.Bursts.{carried_on};
    ghost use Rattle.processor_steps.specs.Processors.{actives, position_with as position_with_serial};
    ghost use Rattle.processor_steps.specs.CallParts.{HeadStep, AheadStep, IsRefusedBy};
    ghost use Rattle.machine_model.specs.declared.event.Refused.TheVariants as refused;
    ghost use Rattle.machine_model.specs.declared.event.Standing.TheVariants as standing;

    /// An empty queue, with room for the given number of units.
    pub(crate) fn new(alloc: Global, capacity: u32) -> Result<Queue, AllocError>
        requires { capacity ≤ 16 }
        ensures { IfOk result (λ queue. (queue.units ≡ []) × (queue.capacity ≡ capacity)) }
    {
        let ring = HeapCircularBuffer::with_capacity(alloc, capacity as usize)?;
        Ok(Queue { ring })
    }

    /// How many units are at work.
    #[inline]
    pub(crate) fn len(&self) -> u32
        ensures len { result ≡ length self.now.units }
        ensures within { (length self.now.units ≤ self.now.capacity) × (self.now.capacity ≤ 16) }
    {
        self.ring.len() as u32
    }

    /// How many there may be, 1 to 16.
    #[inline]
    pub(crate) fn capacity(&self) -> u32
        ensures capacity { result ≡ self.now.capacity }
        ensures within { (length self.now.units ≤ self.now.capacity) × (self.now.capacity ≤ 16) }
    {
        self.ring.capacity() as u32
    }

    /// The unit at a position from the head, 0 being the head.
    #[inline]
    pub(crate) fn get(&self, position: usize) -> Option<&Unit>
        ensures unit { option_copied result ≡ slice_get self.now.units position }
        ensures active { option_map active_of (option_copied result) ≡ slice_get (actives self.now) position }
    {
        self.ring.get(position)
    }

    /// The last unit, the tail.
    #[inline]
    pub(crate) fn tail(&self) -> Option<&Unit>
        ensures active { option_map active_of (option_copied result) ≡ last_or None (actives self.now) }
    {
        self.ring.back()
    }

    /// Adds a unit at the tail.
    #[inline(always)]
    pub(crate) fn push(&mut self, unit: Unit)
        requires { length self.old.units < self.old.capacity }
        ensures { self.new ≡ record self.old { units = self.old.units ++ unit ∷ [] } }
    {
        let _ = self.ring.try_push_back(unit);
    }

    /// Removes the head.
    fn pop(&mut self)
        ensures { self.new ≡ record self.old { units = drop 1 self.old.units } }
    {
        let _ = self.ring.pop_front();
    }

    /// Removes the head: what it sent for a create mask goes into the registers, its reads are appended to others,
    /// and its empty log becomes the spare one. Nothing is changed where there is no room for the reads.
    pub(crate) fn pop_into(
        &mut self,
        create: RegSet,
        registers: &mut [u32; 34],
        reads: &mut ReadLog,
        spare: &mut ReadLog,
    ) -> Result<(), OutOfMemory>
        ensures registers { OnOk result ((u : Active) → slice_get (actives self.old) 0 ≡ Some u
            → (r : ℕ) → slice_index registers.new r ≡ unwrap_or (if has create r then u.sent r else None) (slice_index registers.old r)) }
        ensures reads { OnOk result ((u : Active) → slice_get (actives self.old) 0 ≡ Some u → reads.new.reads ≡ reads.old.reads ++ u.log) }
        ensures queue { OnOk result (self.new ≡ record self.old { units = drop 1 self.old.units }) }
        ensures err { OnErr result ((self.new ≡ self.old) × (registers.new ≡ registers.old) × (reads.new.reads ≡ reads.old.reads)) }
    {
        let Some(head) = self.ring.get_mut(0) else {
            self.pop();
            return Ok(());
        };
        head.hand_over_reads(reads)?;
        hand_over(head, create, registers);
        head.swap_log(spare);
        self.pop();
        Ok(())
    }

    /// Keeps the given number of units, counted from the head.
    pub(crate) fn keep(&mut self, count: usize)
        ensures { self.new ≡ record self.old { units = take count self.old.units } }
    {
        self.ring.truncate_back(count);
    }

    /// The registers that the units at work may produce: their create masks together.
    pub(crate) fn reserved(&self, program: &Program) -> RegSet
        ensures { (r : ℕ) → has result r ≡ is_reserved program.now (actives self.now) r }
    {
        let (front, back) = self.ring.as_slices();
        created_by(program, front).union(created_by(program, back))
    }

    /// The unit at a position takes a register that has not arrived, with a word.
    #[inline]
    pub(crate) fn arrive(&mut self, position: usize, register: Reg, word: u32)
        ensures active { (u : Active) → slice_get (actives self.old) position ≡ Some u → u.arrived register ≡ None
            → actives self.new ≡ slice_set (actives self.old) position (record u { arrived = put register word u.arrived }) }
        ensures capacity { self.new.capacity ≡ self.old.capacity }
    {
        let Some(unit) = self.ring.get_mut(position) else {
            return;
        };
        let _ = unit.arrive(register, word);
    }

    /// The unit at a position sends a register, where it may.
    #[inline]
    pub(crate) fn send(&mut self, position: usize, program: &Program, register: Reg)
        ensures active { (u : Active) → slice_get (actives self.old) position ≡ Some u → drain_refusal program.now u register ≡ None
            → actives self.new ≡ slice_set (actives self.old) position (after_drain u register (operand u register)) }
        ensures capacity { self.new.capacity ≡ self.old.capacity }
    {
        let Some(unit) = self.ring.get_mut(position) else {
            return;
        };
        let _ = unit.drain(program, register);
    }

    /// Each register that has not arrived at the head arrives there, with its word from these.
    pub(crate) fn fill_head(&mut self, words: &[u32; 34])
        ensures active { actives self.new ≡ filled (λ r. slice_index words.now r) (actives self.old) }
        ensures capacity { self.new.capacity ≡ self.old.capacity }
    {
        let Some(head) = self.ring.get_mut(0) else {
            return;
        };
        head.fill(words);
    }

    /// The head executes one instruction.
    #[inline(always)]
    pub(crate) fn exec_head(&mut self, program: &Program, world: &mut World) -> Result<(), Refused>
        requires { world.old.outcome ≡ standing.Running }
        ensures ok { OnOk result (HeadStep program.now (actives self.old) (actives self.new) world.old world.new) }
        ensures refused { IfErr result (λ why. IsRefusedBy why (for_some (slice_get (actives self.old) 0) refused.NoSuch (refusal_of program.now true))) }
        ensures err { OnErr result ((self.new ≡ self.old) × (world.new ≡ world.old)) }
        ensures capacity { self.new.capacity ≡ self.old.capacity }
    {
        let Some(head) = self.ring.get_mut(0) else {
            return Err(Refused::NoSuch);
        };
        match head.exec(program, world) {
            Ok(()) => return Ok(()),
            Err(wait) => return Err(refused_by(wait)),
        }
    }

    /// The unit at a position after the head executes one instruction.
    #[inline(always)]
    pub(crate) fn exec_ahead(&mut self, position: usize, program: &Program) -> Result<(), Refused>
        requires { 0 < position }
        ensures ok { OnOk result (AheadStep program.now position (actives self.old) (actives self.new)) }
        ensures refused { IfErr result (λ why. IsRefusedBy why (for_some (slice_get (actives self.old) position) refused.NoSuch (refusal_of program.now false))) }
        ensures err { OnErr result (self.new ≡ self.old) }
        ensures capacity { self.new.capacity ≡ self.old.capacity }
    {
        let Some(unit) = self.ring.get_mut(position) else {
            return Err(Refused::NoSuch);
        };
        match unit.exec_ahead(program) {
            Ok(()) => return Ok(()),
            Err(wait) => return Err(refused_by(wait)),
        }
    }

    /// The position of the unit with a serial number.
    pub(crate) fn position_with(&self, serial: u32) -> Option<u32>
        ensures { result ≡ position_with_serial (actives self.now) serial }
    {
        for position in 0..self.len() {
            if self.has_serial(position as usize, serial) {
                return Some(position);
            }
        }
        None
    }

    /// Whether the unit at a position has a serial number.
    #[inline]
    fn has_serial(&self, position: usize, serial: u32) -> bool
        ensures { IsTrue result ↔ ((u : Active) × (slice_get (actives self.now) position ≡ Some u) × (u.serial ≡ serial)) }
    {
        match self.ring.get(position) {
            Some(unit) => unit.serial() == serial,
            None => false,
        }
    }

    /// The unit at a position continues from where the burst made on it ended.
    pub(crate) fn take(&mut self, position: usize, burst: &mut Burst<'_>) -> Result<(), OutOfMemory>
        ensures active { OnOk result ((u : Active) → slice_get (actives self.old) position ≡ Some u
            → actives self.new ≡ slice_set (actives self.old) position (carried_on (active_of burst.old.after) u)) }
        ensures err { OnErr result ((self.new ≡ self.old) × (burst.new ≡ burst.old)) }
        ensures capacity { self.new.capacity ≡ self.old.capacity }
    {
        let Some(unit) = self.ring.get_mut(position) else {
            return Ok(());
        };
        match unit.go_on_from(burst) {
            Ok(()) => return Ok(()),
            Err(refused) => return Err(refused),
        }
    }

    /// What refuses an instruction of the unit at a position, lack of memory aside.
    pub(crate) fn exec_refusal(&self, position: usize, program: &Program) -> Option<Refused>
        ensures { result ≡ for_some (slice_get (actives self.now) position) refused.NoSuch (refusal_of program.now (nat_eq position 0)) }
    {
        let Some(unit) = self.ring.get(position) else {
            return Some(Refused::NoSuch);
        };
        match unit.wait(program, position == 0) {
            Some(wait) => Some(refused_by(wait)),
            None => None,
        }
    }
}

ghost use Rattle.std.specs.Prelude.{◌≡◌, ℕ, None, if◌then◌else◌, map, slice_index, unwrap_or};
ghost use Rattle.mips_instructions.specs.Words.{has};
ghost use Rattle.machine_model.specs.Step.{is_reserved};
ghost use Rattle.unit_core.specs.Units.{active_of};
ghost use Rattle.unit_core.specs.UnitStep.{refused_by as refused_by_wait};

/// The create masks of the tasks of some units together.
fn created_by(program: &Program, units: &[Unit]) -> RegSet
    ensures { (r : ℕ) → has result r ≡ is_reserved program.now (map active_of units.now) r }
{
    let mut set = RegSet::empty();
    for unit in units {
        set = set.union(created(program, unit.task()));
    }
    set
}

/// The refusal of an event whose unit waits.
#[inline]
pub(crate) fn refused_by(wait: Wait) -> Refused
    ensures { result ≡ refused_by_wait wait }
{
    match wait {
        Wait::Stopped => Refused::Stopped,
        Wait::Waiting(register) => Refused::Waiting(register),
        Wait::NotHead => Refused::NotHead,
        Wait::OutOfMemory => Refused::OutOfMemory,
    }
}

/// Puts the words that a unit sent for its create mask into the registers.
fn hand_over(head: &Unit, create: RegSet, registers: &mut [u32; 34])
    ensures { (r : ℕ) → slice_index registers.new r ≡ unwrap_or (if has create r then (active_of head.now).sent r else None) (slice_index registers.old r) }
{
    let mut from = 0;
    while let Some(register) = next_member(create, from) {
        let place = usize::from(register.get());
        registers[place] = head.sent(register).unwrap_or(registers[place]);
        from = register.get() + 1;
    }
}
