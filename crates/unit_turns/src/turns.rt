//! The turn of a unit: at most one event.

ghost use Rattle.std.specs.Prelude.{◌≡◌, ◌+◌, ◌<◌, ◌≤◌, true, length, OnOk, OnErr, IfErr, IfSome, Ok};
ghost use Rattle.machine_model.specs.Answer.{most_events};
ghost use Rattle.machine_model.specs.declared.event.Refused.TheVariants as refused;
ghost use Rattle.machine_model.specs.declared.event.Standing.TheVariants as standing;
ghost use Rattle.sequencer.specs.Machines.{state, units_of, answer_to, SameRing};
ghost use Rattle.unit_turns.specs.FirstAllowed.{first_allowed};
ghost use Rattle.unit_turns.specs.declared.predictor.Predictor.{Predictor};
ghost use Rattle.unit_turns.specs.Steps.{goes_on as goes_on_by, tries, with_event, with_task, turn_of, turn};
ghost use Rattle.unit_turns.specs.Courses.{course};

use crate::laws::law_first_allowed;
use crate::predictor::Predictor;
use machine_model::event::{Event, Refused, Standing};
use machine_model::laws::next_is_after;
use sequencer::machine::Machine;
use sequencer::predict::Predict;

/// Whether the run continues: the machine has not ended, and has fewer events than the budget.
pub(crate) fn goes_on(machine: &Machine<'_>, budget: u32) -> bool
    ensures { result ≡ goes_on_by budget (state machine.now) (length machine.now.history) }
{
    machine.outcome() == Standing::Running && machine.length() < budget as usize
}

/// The turn of the unit at position 0, which has an event as long as the run continues.
///
/// # Errors
///
/// `OutOfMemory`, for want of memory alone; nothing is changed then.
pub(crate) fn turn_of_head(machine: &mut Machine<'_>, budget: u32) -> Result<(), Refused>
    requires { budget ≤ most_events }
    ensures done { OnOk result ((predictor : Predictor) → course machine.new predictor ≡ turn machine.old.accepted.program (units_of machine.old) budget 0 (course machine.old predictor)) }
    ensures grows { OnOk result (goes_on_by budget (state machine.old) (length machine.old.history) ≡ true → length machine.new.history ≡ length machine.old.history + 1) }
    ensures err { OnErr result (machine.new ≡ machine.old) }
    ensures fault { IfErr result (λ why. why ≡ refused.OutOfMemory) }
    ensures kept { SameRing machine.old machine.new }
{
    if !goes_on(machine, budget) {
        return Ok(());
    }
    machine.law_answers();
    let event = machine.head_event();
    apply(machine, event)
}

/// The turn of the unit at a position after the head: of one at work, or of the free one after the tail.
///
/// # Errors
///
/// `OutOfMemory`, for want of memory alone; the machine is not changed then.
pub(crate) fn turn_behind(
    machine: &mut Machine<'_>,
    predictor: &mut Predictor,
    budget: u32,
    position: u32,
) -> Result<(), Refused>
    requires budget { budget ≤ most_events }
    requires behind { 0 < position }
    requires within { position < units_of machine.old }
    ensures done { OnOk result (course machine.new predictor.new ≡ turn machine.old.accepted.program (units_of machine.old) budget position (course machine.old predictor.old)) }
    ensures err { OnErr result (machine.new ≡ machine.old) }
    ensures fault { IfErr result (λ why. why ≡ refused.OutOfMemory) }
    ensures kept { SameRing machine.old machine.new }
{
    if !goes_on(machine, budget) {
        return Ok(());
    }
    let event = event_behind(machine, predictor, position);
    apply(machine, event)
}

/// The event of the unit at a position after the head, if it has one.
fn event_behind(machine: &Machine<'_>, predictor: &mut Predictor, position: u32) -> Option<Event>
    requires running { (state machine.now).outcome ≡ standing.Running }
    requires room { length machine.now.history < most_events }
    requires behind { 0 < position }
    requires within { position < units_of machine.now }
    ensures event { with_event machine.now.accepted.program (course machine.now predictor.new) result ≡ turn_of machine.now.accepted.program (units_of machine.now) position (course machine.now predictor.old) }
    ensures allowed { IfSome result (λ e. answer_to machine.now e ≡ Ok tt) }
{
    if machine.spot(position).is_some() {
        return event_at_work(machine, position);
    }
    if machine.spot(position - 1).is_some() {
        return task_for_free(machine, predictor);
    }
    None
}

/// The event of the unit at work at a position after the head.
fn event_at_work(machine: &Machine<'_>, position: u32) -> Option<Event>
    requires running { (state machine.now).outcome ≡ standing.Running }
    requires room { length machine.now.history < most_events }
    ensures event { result ≡ first_allowed machine.now.accepted.program (units_of machine.now) (state machine.now) (tries position) }
    ensures allowed { IfSome result (λ e. answer_to machine.now e ≡ Ok tt) }
{
    machine.law_answers();
    law_first_allowed();
    if machine.enabled(Event::Squash(position)) {
        return Some(Event::Squash(position));
    }
    if machine.enabled(Event::Exec(position)) {
        return Some(Event::Exec(position));
    }
    // Reading a register's number gives that it is below 34.
    if let Some(register) = machine.register_to_take(position) {
        let _ = register.get();
        return Some(Event::Transfer(position, register));
    }
    match machine.register_to_send(position) {
        Some(register) => {
            let _ = register.get();
            Some(Event::Drain(position, register))
        }
        None => None,
    }
}

/// The Assign of the free unit after the tail.
fn task_for_free(machine: &Machine<'_>, predictor: &mut Predictor) -> Option<Event>
    requires running { (state machine.now).outcome ≡ standing.Running }
    requires room { length machine.now.history < most_events }
    requires free { length (state machine.now).queue < units_of machine.now }
    ensures event { with_event machine.now.accepted.program (course machine.now predictor.new) result ≡ with_task machine.now.accepted.program (course machine.now predictor.old) }
    ensures allowed { IfSome result (λ e. answer_to machine.now e ≡ Ok tt) }
{
    machine.law_answers();
    let targets = machine.choices();
    if targets.is_empty() {
        return machine.choice(0);
    }
    let answer = predictor.choose(targets);
    machine.choice(answer)
}

/// Does an event that the machine allows, where there is one.
///
/// # Errors
///
/// `OutOfMemory`, for want of memory alone; nothing is changed then.
fn apply(machine: &mut Machine<'_>, event: Option<Event>) -> Result<(), Refused>
    requires { IfSome event (λ e. answer_to machine.old e ≡ Ok tt) }
    ensures done { OnOk result ((predictor : Predictor) → course machine.new predictor ≡ with_event machine.old.accepted.program (course machine.old predictor) event) }
    ensures err { OnErr result (machine.new ≡ machine.old) }
    ensures fault { IfErr result (λ why. why ≡ refused.OutOfMemory) }
    ensures kept { SameRing machine.old machine.new }
{
    next_is_after();
    match event {
        Some(event) => machine.apply(event),
        None => Ok(()),
    }
}
