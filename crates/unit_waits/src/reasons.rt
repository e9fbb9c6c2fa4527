//! What holds back a unit after the head.

ghost use Rattle.std.specs.Prelude.{◌≡◌, ◌<◌, Some, slice_get, is_none, is_some};
ghost use Rattle.machine_model.specs.Machine.{creates, pass};
ghost use Rattle.machine_model.specs.Refusals.{least};
ghost use Rattle.sequencer.specs.Machines.{state, units_of};
ghost use Rattle.unit_core.specs.Units.{active_of};
ghost use Rattle.unit_core.specs.UnitStep.{refused_by};
ghost use Rattle.unit_waits.specs.Reasons.{may_produce as may_produce_of, owed_at as owed_at_of, owed_to as owed_to_of, position_owing as position_owing_of, reason_by as reason_by_of, reason_of, reason_to_stay as reason_to_stay_of, unit_at as unit_at_of, unsent as unsent_of};

use crate::waiting::{Owed, Reason};
use mark_checker::accept::Accepted;
use mips_instructions::number::Reg;
use register_ring::members::next_member;
use sequencer::machine::Machine;
use task_descriptor::program::Program;
use unit_core::unit::{Unit, created};
use unit_core::wait::Wait;

/// The number round the ring of the unit at a position.
pub(crate) fn unit_at(machine: &Machine<'_>, units: u32, position: u32) -> u32
    requires some { 0 < units }
    ensures { result ≡ unit_at_of units (state machine.now) position }
{
    ((machine.commits().len() + position as usize) % units as usize) as u32
}

/// Whether the task of the unit at a position may produce a register.
fn may_produce(program: &Program, machine: &Machine<'_>, register: Reg, position: u32) -> bool
    ensures { result ≡ may_produce_of program.now register (slice_get (state machine.now).queue position) }
{
    match machine.unit(position) {
        Some(unit) => created(program, unit.task()).has(register),
        None => false,
    }
}

/// The position of the unit that owes a register to the one at a position.
fn position_owing(program: &Program, machine: &Machine<'_>, register: Reg, position: u32) -> u32
    ensures { result ≡ position_owing_of program.now (state machine.now).queue register position }
{
    let mut owing = 0;
    for ahead in 0..position {
        if may_produce(program, machine, register, ahead) {
            owing = ahead;
        }
    }
    owing
}

/// Whether a unit passes a register on: it has sent it, or its task does not produce it and it has arrived.
fn passes_on(program: &Program, unit: &Unit, register: Reg) -> bool
    ensures { result ≡ is_some (pass program.now (active_of unit.now) register) }
{
    unit.pass(created(program, unit.task()), register).is_some()
}

/// What the unit at a position owes for a register.
fn owed_at(
    program: &Program,
    machine: &Machine<'_>,
    units: u32,
    register: Reg,
    position: u32,
) -> Owed
    requires some { 0 < units }
    ensures { result ≡ owed_at_of program.now units (state machine.now) register position }
{
    let number = unit_at(machine, units, position);
    match machine.unit(position) {
        Some(unit) => Owed {
            unit: number,
            task: unit.task(),
            is_sent: passes_on(program, unit, register),
        },
        None => Owed {
            unit: number,
            task: 0,
            is_sent: false,
        },
    }
}

/// What the unit at a position is owed for a register.
fn owed_to(
    program: &Program,
    machine: &Machine<'_>,
    units: u32,
    register: Reg,
    position: u32,
) -> Owed
    requires some { 0 < units }
    ensures { result ≡ owed_to_of program.now units (state machine.now) register position }
{
    let owing = position_owing(program, machine, register, position);
    owed_at(program, machine, units, register, owing)
}

/// The least register of a unit's create mask that it has not sent.
fn unsent(program: &Program, unit: &Unit) -> Option<Reg>
    ensures { result ≡ unsent_of program.now (active_of unit.now) }
{
    next_member(created(program, unit.task()).minus(unit.sent_set()), 0)
}

/// What holds back a unit that has stopped.
fn reason_to_stay(
    program: &Program,
    machine: &Machine<'_>,
    units: u32,
    position: u32,
    unit: &Unit,
) -> Reason
    requires some { 0 < units }
    ensures { result ≡ reason_to_stay_of program.now units (state machine.now) position (active_of unit.now) (unsent_of program.now (active_of unit.now)) }
{
    let Some(register) = unsent(program, unit) else {
        return Reason::HasFinished;
    };
    if unit.value(register).is_some() {
        return Reason::CouldGoOn;
    }
    Reason::HasToPass(
        register,
        owed_to(program, machine, units, register, position),
    )
}

/// What holds back a unit that does not execute its next instruction, by what refuses the instruction.
fn reason_by(
    program: &Program,
    machine: &Machine<'_>,
    units: u32,
    position: u32,
    unit: &Unit,
    why: &Wait,
) -> Reason
    requires some { 0 < units }
    ensures { result ≡ reason_by_of program.now units (state machine.now) position (active_of unit.now) (Some (refused_by why.now)) }
{
    match *why {
        Wait::Stopped => reason_to_stay(program, machine, units, position, unit),
        Wait::Waiting(register) => Reason::NeedsRegister(
            register,
            owed_to(program, machine, units, register, position),
        ),
        Wait::NotHead => Reason::NeedsHead,
        Wait::OutOfMemory => reason_to_stay(program, machine, units, position, unit),
    }
}

/// What holds back the unit at a position after the head: the first refusal of its next instruction, or, where it
/// has stopped, what it still has to send.
pub(crate) fn reason(
    accepted: &Accepted,
    machine: &Machine<'_>,
    units: u32,
    position: u32,
    unit: &Unit,
) -> Reason
    requires over { machine.now.accepted ≡ accepted.now }
    requires some { 0 < units }
    requires at { slice_get (state machine.now).queue position ≡ Some (active_of unit.now) }
    ensures { result ≡ reason_of accepted.now.program units (state machine.now) position (active_of unit.now) }
{
    match unit.wait(accepted.program(), false) {
        None => Reason::CouldGoOn,
        Some(why) => reason_by(accepted.program(), machine, units, position, unit, &why),
    }
}
