//! What a unit is ready for, apart from the head's event.

ghost use Rattle.std.specs.Prelude.{◌≡◌, ℕ, ◌<◌, ◌↔◌, ◌&&◌, false, None, Some, IsTrue, slice_get, is_none, is_some};
ghost use Rattle.std.specs.Option.{option_map};
ghost use Rattle.mips_instructions.specs.Words.{has};
ghost use Rattle.machine_model.specs.Machine.{Active, creates, pass, value};
ghost use Rattle.machine_model.specs.Unit.{exec_refusal, exit_of};
ghost use Rattle.machine_model.specs.Answer.{refusal};
ghost use Rattle.machine_model.specs.declared.event.Event.TheVariants as event;
ghost use Rattle.unit_core.specs.Units.{active_of};
ghost use Rattle.processor_steps.specs.LeastRegisters.{IsLeast};
ghost use Rattle.processor_steps.specs.Processors.{state_of};

use crate::processor::Processor;
use machine_model::event::Spot;
use mips_instructions::number::{Reg, RegSet};
use register_ring::members::next_member;
use task_descriptor::program::Program;
use unit_core::unit::{Unit, created};

impl Processor {
    /// The place of the unit at a position, counted from the head; `None` past the tail.
    #[inline]
    pub fn spot(&self, position: u32) -> Option<Spot>
        ensures { result ≡ option_map (λ u. u.place) (slice_get (state_of self.now).queue position) }
    {
        match self.unit(position) {
            Some(unit) => Some(unit.spot()),
            None => None,
        }
    }

    /// Whether the unit at a position lacks nothing for its next instruction, and the instruction needs only
    /// the unit's registers and read-only data, so that it may be part of a burst.
    #[inline]
    pub fn can_run_ahead(&self, program: &Program, position: u32) -> bool
        ensures { IsTrue result ↔ ((u : Active) × (slice_get (state_of self.now).queue position ≡ Some u) × (exec_refusal program.now false u ≡ None)) }
    {
        match self.unit(position) {
            Some(unit) => unit.wait(program, false).is_none(),
            None => false,
        }
    }

    /// The least register that the unit at a position may take from the unit before it; `None` exactly where it
    /// may take none.
    pub fn register_to_take(&self, program: &Program, position: u32) -> Option<Reg>
        ensures { IsLeast (λ r. refusal program.now self.now.queue.capacity (state_of self.now) (event.Transfer position r) ≡ None) result }
    {
        next_member(self.registers_to_take(program, position), 0)
    }

    /// The registers that the unit at a position may take from the unit before it.
    fn registers_to_take(&self, program: &Program, position: u32) -> RegSet
        ensures { (r : ℕ) → r < 34 → has result r ≡ is_none (refusal program.now self.now.queue.capacity (state_of self.now) (event.Transfer position r)) }
    {
        if position == 0 {
            return RegSet::empty();
        }
        match (self.unit(position - 1), self.unit(position)) {
            (Some(giver), Some(taker)) => passed(program, giver).minus(taker.arrived_set()),
            _ => RegSet::empty(),
        }
    }

    /// The least register that the unit at a position, which has stopped, may send; `None` exactly where it may
    /// send none.
    pub fn register_to_send(&self, program: &Program, position: u32) -> Option<Reg>
        ensures { IsLeast (λ r. refusal program.now self.now.queue.capacity (state_of self.now) (event.Drain position r) ≡ None) result }
    {
        next_member(self.registers_to_send(program, position), 0)
    }

    /// The registers that the unit at a position, which has stopped, may send.
    fn registers_to_send(&self, program: &Program, position: u32) -> RegSet
        ensures { (r : ℕ) → r < 34 → has result r ≡ is_none (refusal program.now self.now.queue.capacity (state_of self.now) (event.Drain position r)) }
    {
        match self.unit(position) {
            Some(unit) => registers_left(program, unit),
            None => RegSet::empty(),
        }
    }
}

/// The registers that a unit passes on: those of its create mask that it sent, and the others that
/// arrived.
#[inline]
fn passed(program: &Program, giver: &Unit) -> RegSet
    ensures { (r : ℕ) → r < 34 → has result r ≡ is_some (pass program.now (active_of giver.now) r) }
{
    let create = created(program, giver.task());
    common(create, giver.sent_set()).union(giver.arrived_set().minus(create))
}

/// The registers of its create mask that a unit has not sent and has a value for; none where it has not
/// stopped.
#[inline]
fn registers_left(program: &Program, unit: &Unit) -> RegSet
    ensures { (r : ℕ) → r < 34 → has result r ≡ (is_some (exit_of (active_of unit.now).place) && creates program.now (active_of unit.now).task r && is_none ((active_of unit.now).sent r) && is_some (value (active_of unit.now) r)) }
{
    match unit.spot() {
        Spot::Stopped(_) => common(
            created(program, unit.task()).minus(unit.sent_set()),
            unit.known_set(),
        ),
        Spot::Inside(_) => RegSet::empty(),
    }
}

/// The registers of both sets.
#[inline]
fn common(set: RegSet, other: RegSet) -> RegSet
    ensures { (r : ℕ) → has result r ≡ (has set r && has other r) }
{
    set.minus(set.minus(other))
}
