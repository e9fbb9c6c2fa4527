//! What the units of a machine are ready for, besides what the head is ready for.

use crate::machine::Machine;
use machine_model::event::Spot;
use mips_instructions::number::Reg;

impl<'a> Machine<'a> {
    ghost use Rattle.std.specs.Prelude.{◌≡◌, ◌↔◌, ◌<◌, false, None, Some, Ok, IsTrue, slice_get, length};
    ghost use Rattle.std.specs.Option.{option_map};
    ghost use Rattle.machine_model.specs.Machine.{Active, State};
    ghost use Rattle.machine_model.specs.Unit.{exec_refusal};
    ghost use Rattle.machine_model.specs.Step.{Next};
    ghost use Rattle.machine_model.specs.Answer.{refusal, most_events};
    ghost use Rattle.machine_model.specs.declared.event.Event.{Event};
    ghost use Rattle.machine_model.specs.declared.event.Event.TheVariants.{Exec, Transfer, Drain};
    ghost use Rattle.machine_model.specs.declared.event.Standing.TheVariants as standing;
    ghost use Rattle.processor_steps.specs.LeastRegisters.{IsLeast};
    ghost use Rattle.sequencer.specs.Machines.{state, units_of, answer_to};
    ghost use Rattle.sequencer.specs.Rings.{unit_for};

    /// The number on the ring of the unit at position 0: the head, or on an empty queue the unit that the next
    /// Assign fills.
    #[inline]
    pub fn head_unit(&self) -> u32
        ensures { result ≡ unit_for self.now (Exec 0) }
    {
        self.number_at(0)
    }

    /// The place of the unit at a position, counted from the head; `None` past the tail.
    #[inline]
    pub fn spot(&self, position: u32) -> Option<Spot>
        ensures { result ≡ option_map (λ u. u.place) (slice_get (state self.now).queue position) }
    {
        self.processor.spot(position)
    }

    /// Whether the unit at a position lacks nothing for its next instruction, and this needs nothing but the
    /// unit's registers and read-only data: so it may be part of a burst. An Exec of it is then refused by
    /// nothing but the run's end or a full history. Takes no memory.
    pub fn can_run_ahead(&self, position: u32) -> bool
        ensures alone { IsTrue result ↔ ((u : Active) × (slice_get (state self.now).queue position ≡ Some u) × (exec_refusal self.now.accepted.program false u ≡ None)) }
        ensures allowed { IsTrue result → refusal self.now.accepted.program (units_of self.now) (state self.now) (Exec position) ≡ None }
    {
        self.processor
            .can_run_ahead(self.accepted.program(), position)
    }

    /// The least register that the unit at a position may take from the unit before it; `None` exactly where it
    /// may take none. Takes no memory.
    pub fn register_to_take(&self, position: u32) -> Option<Reg>
        ensures { IsLeast (λ r. refusal self.now.accepted.program (units_of self.now) (state self.now) (Transfer position r) ≡ None) result }
    {
        self.processor
            .register_to_take(self.accepted.program(), position)
    }

    /// The least register that the unit at a position, which has stopped, may send; `None` exactly where it may
    /// send none. Takes no memory.
    pub fn register_to_send(&self, position: u32) -> Option<Reg>
        ensures { IsLeast (λ r. refusal self.now.accepted.program (units_of self.now) (state self.now) (Drain position r) ≡ None) result }
    {
        self.processor
            .register_to_send(self.accepted.program(), position)
    }

    /// Law: an event is answered Ok, lack of memory aside, while the run continues, the history has room and
    /// nothing refuses the event, so wherever the machine step allows it. The call does nothing.
    pub fn law_answers(&self)
        ensures unrefused { (e : Event) → (state self.now).outcome ≡ standing.Running → refusal self.now.accepted.program (units_of self.now) (state self.now) e ≡ None → length self.now.history < most_events → answer_to self.now e ≡ Ok tt }
        ensures allowed { (e : Event) (s : State) → Next self.now.accepted.program (units_of self.now) (state self.now) e s → length self.now.history < most_events → answer_to self.now e ≡ Ok tt }
    {
        self.law_replay();
    }
}
