//! Which units a worker serves, and the first of them that has something to do.

ghost use Rattle.std.specs.Prelude.{◌≡◌, ◌%◌, ◌<◌, ◌↔◌, IfSome, IfNone, IsTrue};
ghost use Rattle.machine_model.specs.declared.event.Event.TheVariants.{Exec};
ghost use Rattle.sequencer.specs.Machines.{units_of};
ghost use Rattle.sequencer.specs.Rings.{unit_for};
ghost use Rattle.unit_turns.specs.Turns.{IsTurn, turn_of};
ghost use Rattle.threaded_runner.specs.Shares.{AllWait, IsFirst, IsFirstBetween, IsShareOf, WaitBetween};

use crate::machine_laws::law_head_waits;
use sequencer::machine::Machine;
use unit_turns::deciding::{turn, turn_at_head};
use unit_turns::turn::Turn;

/// The units of one worker: those whose number, modulo the number of workers, is the worker's.
#[derive(Clone, Copy, Debug, PartialEq, Eq)]
pub(crate) struct Share {
    /// How many units there are, 1 to 16.
    pub(crate) units: u32,
    /// How many workers there are, 1 to the number of units.
    pub(crate) workers: u32,
    /// The number of the worker.
    pub(crate) worker: u32,
}

impl Share {
    /// Whether the worker serves a unit.
    fn has(self, unit: u32) -> bool
        requires { 0 < self.workers }
        ensures { IsTrue result ↔ (unit % self.workers ≡ self.worker) }
    {
        unit % self.workers == self.worker
    }

    /// Whether one worker serves all units.
    pub(crate) fn is_all(self) -> bool
        ensures { IsTrue result ↔ (self.workers ≡ 1) }
    {
        self.workers == 1
    }

    /// The first of the worker's units, in ring order from the head, that does not wait, with its turn;
    /// `None` exactly where all of them wait. A worker that serves all units looks at the head alone, which
    /// waits only where all do.
    #[inline]
    pub(crate) fn first_turn(self, machine: &Machine<'_>) -> Option<(u32, Turn)>
        requires { IsShareOf (units_of machine.now) self.workers self }
        ensures first { IfSome result (λ found. IsFirst machine.now self found.0 × (found.1 ≡ turn_of machine.now found.0)) }
        ensures own { IfSome result (λ found. IsTurn machine.now found.0 found.1) }
        ensures none { IfNone result (AllWait machine.now self) }
    {
        if self.workers == self.units {
            return self.own_turn(machine);
        }
        let head = machine.head_unit();
        if self.is_all() {
            self.head_turn(machine, head)
        } else {
            self.first_turn_from(machine, head)
        }
    }

    /// The turn of the only unit that the worker serves, where each unit has a worker, unless it waits.
    #[inline]
    fn own_turn(self, machine: &Machine<'_>) -> Option<(u32, Turn)>
        requires share { IsShareOf (units_of machine.now) self.workers self }
        requires each { self.workers ≡ self.units }
        ensures first { IfSome result (λ found. IsFirst machine.now self found.0 × (found.1 ≡ turn_of machine.now found.0)) }
        ensures own { IfSome result (λ found. IsTurn machine.now found.0 found.1) }
        ensures none { IfNone result (AllWait machine.now self) }
    {
        ready(self.worker, turn(machine, self.worker))
    }

    /// The turn of the head's unit, where one worker serves all units, unless it waits; then all wait.
    #[inline]
    fn head_turn(self, machine: &Machine<'_>, head: u32) -> Option<(u32, Turn)>
        requires share { IsShareOf (units_of machine.now) self.workers self }
        requires one { self.workers ≡ 1 }
        requires head { unit_for machine.now (Exec 0) ≡ head }
        ensures first { IfSome result (λ found. IsFirst machine.now self found.0 × (found.1 ≡ turn_of machine.now found.0)) }
        ensures own { IfSome result (λ found. IsTurn machine.now found.0 found.1) }
        ensures none { IfNone result (AllWait machine.now self) }
    {
        match ready(head, turn_at_head(machine, head)) {
            Some(found) => Some(found),
            None => {
                law_head_waits(machine);
                None
            }
        }
    }

    /// The first of the worker's units, in ring order from the head, that does not wait, with its turn.
    fn first_turn_from(self, machine: &Machine<'_>, head: u32) -> Option<(u32, Turn)>
        requires share { IsShareOf (units_of machine.now) self.workers self }
        requires head { unit_for machine.now (Exec 0) ≡ head }
        ensures first { IfSome result (λ found. IsFirst machine.now self found.0 × (found.1 ≡ turn_of machine.now found.0)) }
        ensures own { IfSome result (λ found. IsTurn machine.now found.0 found.1) }
        ensures none { IfNone result (AllWait machine.now self) }
    {
        match self.first_between(machine, head, self.units) {
            Some(found) => Some(found),
            None => self.first_between(machine, 0, head),
        }
    }

    /// The first of the worker's units, from one number to below another, that does not wait, with its turn.
    fn first_between(self, machine: &Machine<'_>, from: u32, to: u32) -> Option<(u32, Turn)>
        requires { 0 < self.workers }
        ensures first { IfSome result (λ found. IsFirstBetween machine.now self from to found.0 × (found.1 ≡ turn_of machine.now found.0)) }
        ensures own { IfSome result (λ found. IsTurn machine.now found.0 found.1) }
        ensures none { IfNone result (WaitBetween machine.now self from to) }
    {
        for unit in from..to {
            match self.served_turn(machine, unit) {
                Some(found) => return Some(found),
                None => {}
            }
        }
        None
    }

    /// A unit with its turn, if the worker serves it and it does not wait.
    fn served_turn(self, machine: &Machine<'_>, unit: u32) -> Option<(u32, Turn)>
        requires { 0 < self.workers }
        ensures unit { IfSome result (λ found. (found.0 ≡ unit) × (unit % self.workers ≡ self.worker)) }
        ensures turn { IfSome result (λ found. (found.1 ≡ turn_of machine.now unit) × (turn_of machine.now unit ≡ Turn.Wait → ⊥)) }
        ensures own { IfSome result (λ found. IsTurn machine.now unit found.1) }
        ensures none { IfNone result (unit % self.workers ≡ self.worker → turn_of machine.now unit ≡ Turn.Wait) }
    {
        if !self.has(unit) {
            return None;
        }
        ready(unit, turn(machine, unit))
    }
}

/// A unit with its turn, unless it waits.
#[inline]
fn ready(unit: u32, turn: Turn) -> Option<(u32, Turn)>
    ensures some { IfSome result (λ found. (found.0 ≡ unit) × (found.1 ≡ turn) × (turn ≡ Turn.Wait → ⊥)) }
    ensures none { IfNone result (turn ≡ Turn.Wait) }
{
    match turn {
        Turn::Wait => None,
        _ => Some((unit, turn)),
    }
}
