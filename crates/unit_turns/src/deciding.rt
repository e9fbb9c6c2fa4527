//! What a worker does next: one function of the machine and the number of the unit.

ghost use Rattle.std.specs.Prelude.{◌≡◌, ℕ, ◌<◌, ◌↔◌, IfSome, IsTrue, Some, length, if◌then◌else◌};
ghost use Rattle.machine_model.specs.Answer.{most_events};
ghost use Rattle.machine_model.specs.HeadEvent.{head_event};
ghost use Rattle.machine_model.specs.declared.event.Event.TheVariants.{Assign, Exec};
ghost use Rattle.machine_model.specs.declared.event.Standing.TheVariants as standing;
ghost use Rattle.sequencer.specs.Machines.{state, units_of};
ghost use Rattle.sequencer.specs.Rings.{unit_for};
ghost use Rattle.sequencer.specs.Histories.{executed_in};
ghost use Rattle.unit_turns.specs.FirstAllowed.{first_allowed};
ghost use Rattle.sequencer.specs.Choices.{choices_of};
ghost use Rattle.unit_turns.specs.Turns.{IsTurn, IsOwn, MayBurst, own_events, pauses as pauses_by, turn_of_free as free_turn, turn_at_position, turn_of};

use crate::laws::{law_head_unit, law_own_event, law_ring};
use crate::turn::Turn;
use limits::ranges::MOST_EVENTS;
use machine_model::event::{Event, Standing};
use sequencer::machine::Machine;

/// How many instructions beyond 2 h may have been executed besides h, h being those of the retired tasks and
/// of the head: with more, the units ahead of the head pause.
const MOST_AHEAD: u64 = 65_536;

/// What the worker of the unit with this number on the ring does next. The head does the event that it is ready
/// for. A unit after it in the queue takes a register, squashes the units after it, sends a register or
/// executes, whichever is the first that the machine allows. The free unit after the tail takes the task that
/// may follow, or asks for a choice. An instruction that needs nothing but registers and read-only data is
/// executed in a burst, ahead of the head only while at most 65,536 + 2 h instructions besides h were executed,
/// h being the instructions of the retired tasks and of the head: so no wrong path uses up the history. All
/// else waits. An event that is named is allowed and belongs to the unit; so does each that may be chosen.
/// Takes no memory.
pub fn turn(machine: &Machine<'_>, unit: u32) -> Turn
    ensures own { IsTurn machine.now unit result }
    ensures value { result ≡ turn_of machine.now unit }
{
    law_ring(machine);
    if machine.head_unit() == unit {
        return turn_at_head(machine, unit);
    }
    if machine.length() >= MOST_EVENTS || machine.outcome() != Standing::Running {
        return Turn::Wait;
    }
    match machine.position(unit) {
        Some(position) => turn_ahead(machine, unit, position),
        None => turn_of_idle(machine, unit),
    }
}

/// The answer of `turn` for the unit at position 0: the one to which the head event belongs.
#[inline]
pub fn turn_at_head(machine: &Machine<'_>, unit: u32) -> Turn
    requires { unit_for machine.now (Exec 0) ≡ unit }
    ensures own { IsTurn machine.now unit result }
    ensures value { result ≡ turn_of machine.now unit }
{
    law_ring(machine);
    law_own_event(machine);
    law_head_unit(machine);
    if machine.length() >= MOST_EVENTS {
        return Turn::Wait;
    }
    match machine.head_event() {
        Some(event) => turn_of_head(machine, unit, event),
        None => Turn::Wait,
    }
}

/// The turn of the unit to which the head event belongs, which is this one.
#[inline]
fn turn_of_head(machine: &Machine<'_>, unit: u32, event: Event) -> Turn
    requires event { head_event machine.now.accepted.program (state machine.now) ≡ Some event }
    requires own { IsOwn machine.now unit event }
    requires head { unit_for machine.now (Exec 0) ≡ unit }
    requires running { (state machine.now).outcome ≡ standing.Running }
    requires room { length machine.now.history < most_events }
    ensures own { IsTurn machine.now unit result }
    ensures value { result ≡ turn_at_position machine.now 0 }
{
    law_own_event(machine);
    match event {
        Event::Exec(_) => {
            if machine.can_run_ahead(0) {
                Turn::Burst
            } else {
                Turn::Apply(event)
            }
        }
        _ => Turn::Apply(event),
    }
}

/// The turn of a unit at work ahead of the head.
fn turn_ahead(machine: &Machine<'_>, unit: u32, position: u32) -> Turn
    requires at { unit_for machine.now (Exec position) ≡ unit }
    requires ahead { 0 < position }
    requires within { position < length (state machine.now).queue }
    requires running { (state machine.now).outcome ≡ standing.Running }
    requires room { length machine.now.history < most_events }
    ensures own { IsTurn machine.now unit result }
    ensures value { result ≡ turn_at_position machine.now position }
{
    match event_ahead(machine, unit, position) {
        Some(Event::Exec(_)) => burst_unless_pausing(machine, unit),
        Some(event) => Turn::Apply(event),
        None => Turn::Wait,
    }
}

/// The turn of a unit ahead of the head that executes next.
fn burst_unless_pausing(machine: &Machine<'_>, unit: u32) -> Turn
    requires { MayBurst machine.now unit }
    ensures own { IsTurn machine.now unit result }
    ensures value { result ≡ (if pauses_by (state machine.now) (executed_in machine.now.history) then Turn.Wait else Turn.Burst) }
{
    if pauses(machine) {
        Turn::Wait
    } else {
        Turn::Burst
    }
}

/// The first event that the machine allows to the unit at work at a position ahead of the head.
fn event_ahead(machine: &Machine<'_>, unit: u32, position: u32) -> Option<Event>
    requires at { unit_for machine.now (Exec position) ≡ unit }
    requires ahead { 0 < position }
    requires running { (state machine.now).outcome ≡ standing.Running }
    requires room { length machine.now.history < most_events }
    ensures own { IfSome result (λ e. IsOwn machine.now unit e) }
    ensures burst { (k : ℕ) → result ≡ Some (Exec k) → MayBurst machine.now unit }
    ensures value { result ≡ first_allowed machine.now.accepted.program (units_of machine.now) (state machine.now) (own_events position) }
{
    law_own_event(machine);
    // Reading a register's number gives that it is below 34.
    if let Some(register) = machine.register_to_take(position) {
        let _ = register.get();
        return Some(Event::Transfer(position, register));
    }
    if machine.enabled(Event::Squash(position)) {
        return Some(Event::Squash(position));
    }
    if let Some(register) = machine.register_to_send(position) {
        let _ = register.get();
        return Some(Event::Drain(position, register));
    }
    if machine.can_run_ahead(position) {
        return Some(Event::Exec(position));
    }
    None
}

/// The turn of a unit that is not at work, where another one is at position 0.
fn turn_of_idle(machine: &Machine<'_>, unit: u32) -> Turn
    requires not_head { unit_for machine.now (Exec 0) ≡ unit → ⊥ }
    requires free { (k : ℕ) → k < length (state machine.now).queue → unit_for machine.now (Exec k) ≡ unit → ⊥ }
    requires running { (state machine.now).outcome ≡ standing.Running }
    requires room { length machine.now.history < most_events }
    ensures own { IsTurn machine.now unit result }
    ensures value { result ≡ turn_of machine.now unit }
{
    let Some(next) = machine.next_unit() else {
        return Turn::Wait;
    };
    if next != unit {
        return Turn::Wait;
    }
    turn_of_free(machine, unit)
}

/// The turn of the free unit that takes the next task.
fn turn_of_free(machine: &Machine<'_>, unit: u32) -> Turn
    requires free { length (state machine.now).queue < units_of machine.now }
    requires next { (task : ℕ) → unit_for machine.now (Assign task) ≡ unit }
    requires running { (state machine.now).outcome ≡ standing.Running }
    requires room { length machine.now.history < most_events }
    ensures own { IsTurn machine.now unit result }
    ensures value { result ≡ free_turn machine.now.accepted.program (state machine.now) (choices_of machine.now.accepted.program (state machine.now)) }
{
    law_own_event(machine);
    if !machine.choices().is_empty() {
        return Turn::Choose;
    }
    match machine.choice(0) {
        Some(event) => Turn::Apply(event),
        None => Turn::Wait,
    }
}

/// Whether units ahead of the head execute nothing, so that no wrong path uses up the history.
fn pauses(machine: &Machine<'_>) -> bool
    ensures { result ≡ pauses_by (state machine.now) (executed_in machine.now.history) }
{
    let (_, h) = machine.counts();
    let beside = (machine.executed() as u64).saturating_sub(h);
    beside > h.saturating_mul(2).saturating_add(MOST_AHEAD)
}
