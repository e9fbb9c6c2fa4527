//! Units lent by a machine, and the bursts made on them that are handed in: work done outside the lock of a
//! shared machine.

use crate::machine::{Machine, is_same};
use limits::ranges::MOST_EVENTS;
use machine_model::event::{Event, Refused, Spot};
use machine_model::laws::bursts_are_events;
use mips_plain::outcome::OutOfMemory;
use unit_core::burst::{Burst, Lease};
use unit_core::unit::Unit;

impl<'a> Machine<'a> {
    ghost use Rattle.std.specs.Prelude.{◌≡◌, ℕ, ◌+◌, ◌%◌, ◌<◌, ◌≤◌, [], length, slice_get, Some, IfOk, IfErr, IfSome, IfNone, IsOk, IsTrue, ◌↔◌, false};
    ghost use Rattle.std.specs.Option.{option_map};
    ghost use Rattle.machine_model.specs.Machine.{Active};
    ghost use Rattle.machine_model.specs.Unit.{with_log};
    ghost use Rattle.machine_model.specs.declared.event.Event.TheVariants.{Exec};
    ghost use Rattle.machine_model.specs.declared.event.Standing.TheVariants as standing;
    ghost use Rattle.unit_core.specs.Units.{active_of};
    ghost use Rattle.unit_core.specs.Bursts.{HasMore};
    ghost use Rattle.processor_steps.specs.Processors.{position_with};
    ghost use Rattle.sequencer.specs.Machines.{state, units_of, SameRing};
    ghost use Rattle.sequencer.specs.Rings.{unit_for};
    ghost use Rattle.sequencer.specs.Bursts.{IsAtWork, IsFresh, IsRefusedBurst, Takes};

    /// Lends the unit with this number on the ring, from 0, as it is, with only the length of its log and with
    /// the machine's program and certificate, to make a burst on. `None` exactly where that unit is free or has
    /// stopped, or there is no such unit. The machine does not change. Takes no memory, and the cost does not
    /// depend on the length of the log.
    pub fn lease(&self, unit: u32) -> Option<Lease<'a>>
        ensures some { IfSome result (λ lease. (lease.accepted ≡ self.now.accepted)
            × ((u : Active) × IsAtWork self.now unit u × (active_of lease.unit ≡ with_log u []) × (lease.reads ≡ length u.log))) }
        ensures none { IfNone result ((u : Active) → IsAtWork self.now unit u → ⊥) }
    {
        self.law_replay();
        match self.unit_at_work(unit) {
            Some(found) => Some(found.lease(self.accepted)),
            None => None,
        }
    }

    /// Lends as `lease` does, into a burst that the caller holds, which then has no instruction and keeps the
    /// memory of its reads. Answers whether it did; if not, the burst stays as it is.
    pub fn lend(&self, unit: u32, burst: &mut Burst<'a>) -> bool
        ensures lent { IsTrue result → (burst.new.accepted ≡ self.now.accepted) × (burst.new.steps ≡ 0)
            × ((u : Active) × IsAtWork self.now unit u × (active_of burst.new.before ≡ with_log u []) × (burst.new.reads ≡ length u.log)) }
        ensures none { result ≡ false → (burst.new ≡ burst.old) × ((u : Active) → IsAtWork self.now unit u → ⊥) }
    {
        self.law_replay();
        let Some(found) = self.unit_at_work(unit) else {
            return false;
        };
        burst.begin(self.accepted, found);
        true
    }

    /// The unit with this number on the ring, if it is at work and has not stopped.
    fn unit_at_work(&self, unit: u32) -> Option<&Unit>
        ensures some { IfSome result (λ found. IsAtWork self.now unit (active_of found.now)) }
        ensures none { IfNone result ((u : Active) → IsAtWork self.now unit u → ⊥) }
    {
        self.law_replay();
        let Some(position) = self.position(unit) else {
            return None;
        };
        let Some(found) = self.processor.unit(position) else {
            return None;
        };
        match found.spot() {
            Spot::Inside(_) => Some(found),
            Spot::Stopped(_) => None,
        }
    }

    /// The number on the ring, from 0, of the unit at work with this serial number; `None` where none has it. A
    /// burst that the machine takes over is one of the unit with the serial number of its unit before.
    pub fn unit_with(&self, serial: u32) -> Option<u32>
        ensures { result ≡ option_map (λ k. unit_for self.now (Exec k)) (position_with (state self.now).queue serial) }
    {
        match self.processor.position_with(serial) {
            Some(position) => Some(self.number_at(position)),
            None => None,
        }
    }

    /// Hands in a burst, and answers how many events that was. Where an active unit is the one that the burst
    /// was made on, with at most more registers arrived, that unit takes it over: one Exec for each
    /// instruction. Of its log the length is compared: with the serial number it tells the log. Answers 0, and
    /// changes nothing, exactly where the burst has no instruction, was made with another program or
    /// certificate than the machine's, which are compared by value, or no active unit is the one that it was
    /// made on, as when that was squashed or has executed since. Apart from that comparison, the cost depends
    /// on the length of the burst alone, not on the size of the log or the history.
    ///
    /// # Errors
    ///
    /// `Ended` exactly where the run has ended; else, for a burst that is not answered 0, `Full` exactly where
    /// the history would have more than 1,000,000 events with it, and else `OutOfMemory` where memory was
    /// refused for its reads. The burst is handed back and nothing is changed then.
    pub fn apply_burst<'b>(&mut self, mut burst: Burst<'b>) -> Result<u32, (Burst<'b>, Refused)>
        ensures running { IsOk result → (state self.old).outcome ≡ standing.Running }
        ensures taken { IfOk result (λ events. 0 < events → (events ≡ burst.entry.steps) × Takes self.old burst.entry self.new) }
        ensures stale { IfOk result (λ events. events ≡ 0 → (IsFresh self.old burst.entry → ⊥) × (self.new ≡ self.old)) }
        ensures refused { IfErr result (λ back. (back.0 ≡ burst.entry) × (self.new ≡ self.old) × IsRefusedBurst self.old burst.entry back.1) }
        ensures kept { SameRing self.old self.new }
    {
        if !self.is_running() {
            return Err((burst, Refused::Ended));
        }
        if !is_same(burst.accepted(), self.accepted) {
            return Ok(0);
        }
        match self.take_own_burst(&mut burst) {
            Ok(events) => Ok(events),
            Err(why) => Err((burst, why)),
        }
    }

    /// Hands in a burst that the caller holds, as `apply_burst` does, but compares no program and no
    /// certificate: the burst was made with this machine's. The cost depends on the length of the burst alone,
    /// not on the size of the program, the certificate, the log or the history. The burst stays as it is, but
    /// one that is taken over may be left without instructions.
    ///
    /// # Errors
    ///
    /// Those of `apply_burst`; machine and burst are unchanged then.
    pub fn take_own_burst(&mut self, burst: &mut Burst<'_>) -> Result<u32, Refused>
        requires { burst.old.accepted ≡ self.old.accepted }
        ensures running { IsOk result → (state self.old).outcome ≡ standing.Running }
        ensures taken { IfOk result (λ events. 0 < events → (events ≡ burst.old.steps) × Takes self.old burst.old self.new) }
        ensures stale { IfOk result (λ events. events ≡ 0 → (IsFresh self.old burst.old → ⊥) × (self.new ≡ self.old) × (burst.new ≡ burst.old)) }
        ensures refused { IfErr result (λ why. (burst.new ≡ burst.old) × (self.new ≡ self.old) × IsRefusedBurst self.old burst.old why) }
        ensures kept { SameRing self.old self.new }
    {
        bursts_are_events();
        self.law_replay();
        if !self.is_running() {
            return Err(Refused::Ended);
        }
        let Some(position) = self.position_for(burst) else {
            return Ok(0);
        };
        let steps = burst.steps();
        if self.history.len() + steps as usize > MOST_EVENTS {
            return Err(Refused::Full);
        }
        match self.processor.take_burst(position, burst) {
            Ok(()) => {
                self.history.push_many(Event::Exec(position), steps);
                Ok(steps)
            }
            Err(OutOfMemory) => Err(Refused::OutOfMemory),
        }
    }

    /// The position of the unit that takes over a burst of this machine's program and certificate; `None`
    /// where the burst has no step or is stale.
    fn position_for(&self, burst: &Burst<'_>) -> Option<u32>
        ensures some { IfSome result (λ k. (0 < burst.now.steps)
            × (position_with (state self.now).queue burst.now.before.serial ≡ Some k)
            × ((u : Active) × (slice_get (state self.now).queue k ≡ Some u) × HasMore (active_of burst.now.before) burst.now.reads u)) }
        ensures none { IfNone result (IsFresh self.now burst.now → ⊥) }
    {
        self.law_replay();
        let before = burst.before();
        let Some(position) = self.processor.position_with(before.serial()) else {
            return None;
        };
        let Some(unit) = self.processor.unit(position) else {
            return None;
        };
        if burst.steps() == 0 {
            return None;
        }
        if !unit.has_more(before) {
            return None;
        }
        Some(position)
    }
}
