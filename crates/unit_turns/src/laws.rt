//! Laws: each call does nothing, and its contract is what follows for a turn.

ghost use Rattle.std.specs.Prelude.{◌≡◌, ℕ, ◌<◌, ◌≤◌, length, Some, None};
ghost use Rattle.machine_model.specs.Machine.{State};
ghost use Rattle.machine_model.specs.Answer.{most_events, refusal};
ghost use Rattle.machine_model.specs.HeadEvent.{head_event};
ghost use Rattle.machine_model.specs.Step.{Next};
ghost use Rattle.machine_model.specs.declared.event.Event.{Event};
ghost use Rattle.machine_model.specs.declared.event.Event.TheVariants.{Exec};
ghost use Rattle.machine_model.specs.declared.event.Standing.TheVariants as standing;
ghost use Rattle.sequencer.specs.Machines.{state, units_of};
ghost use Rattle.sequencer.specs.Rings.{unit_for};
ghost use Rattle.unit_turns.specs.FirstAllowed.{TakesAllowed, SkipsRefused, GoesByLists, TakesLeast, AllowedIsUnrefused};
ghost use Rattle.unit_turns.specs.Turns.{IsOwn, MayWait, NamesRegister, turn_of};
ghost use Rattle.unit_turns.specs.declared.turn.Turn.TheVariants.{Wait};

use machine_model::laws::events_count;
use sequencer::machine::Machine;

/// Law: some unit can act: while the run continues and the history has room, the unit at position 0 does not
/// wait, whatever the other units do. It is the head, or on an empty queue the unit that takes the next task.
pub fn law_goes_on(machine: &Machine<'_>)
    ensures { (state machine.now).outcome ≡ standing.Running → length machine.now.history < most_events → turn_of machine.now (unit_for machine.now (Exec 0)) ≡ Wait → ⊥ }
{
    law_ring(machine);
    let _ = machine.head_event();
}

/// Law: while the run continues and the history has room, nothing is allowed of a unit that waits but a Drop,
/// or ahead of the head its Exec, where it pauses. A register's number is below 34.
pub fn law_waits(machine: &Machine<'_>)
    ensures { (unit : ℕ) (e : Event) → (state machine.now).outcome ≡ standing.Running → turn_of machine.now unit ≡ Wait → NamesRegister e → IsOwn machine.now unit e → MayWait machine.now e }
{
    law_ring(machine);
    law_goes_on(machine);
    let _ = machine.length();
    let _ = machine.choice(0);
}

/// Law: the head event belongs to the unit at position 0.
pub fn law_head_unit(machine: &Machine<'_>)
    ensures { (e : Event) → head_event machine.now.accepted.program (state machine.now) ≡ Some e → unit_for machine.now e ≡ unit_for machine.now (Exec 0) }
{
    let _ = machine.length();
}

/// Law: the first allowed of some events is the first event, where nothing refuses it, else the first of the
/// others; of two lists the first list's, else the other's; of an event for each register the least register's.
/// What the machine allows, nothing refuses.
pub fn law_first_allowed()
    ensures takes { TakesAllowed }
    ensures skips { SkipsRefused }
    ensures lists { GoesByLists }
    ensures least { TakesLeast }
    ensures unrefused { AllowedIsUnrefused }
{}

/// An event is a unit's own where the machine step allows it, or where nothing refuses it, and the history
/// has room.
pub(crate) fn law_own_event(machine: &Machine<'_>)
    ensures unrefused { (e : Event) (unit : ℕ) → (state machine.now).outcome ≡ standing.Running → refusal machine.now.accepted.program (units_of machine.now) (state machine.now) e ≡ None → length machine.now.history < most_events → unit_for machine.now e ≡ unit → IsOwn machine.now unit e }
    ensures allowed { (e : Event) (unit : ℕ) (s : State) → Next machine.now.accepted.program (units_of machine.now) (state machine.now) e s → length machine.now.history < most_events → unit_for machine.now e ≡ unit → IsOwn machine.now unit e }
{
    machine.law_answers();
}

/// Law: the queue is no longer than the ring.
pub fn law_ring(machine: &Machine<'_>)
    ensures { length (state machine.now).queue ≤ units_of machine.now }
{
    events_count();
    let _ = machine.history();
}
