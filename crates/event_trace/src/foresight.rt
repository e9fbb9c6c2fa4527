//! What is foreseen of an event, read off the machine before it.

ghost use Rattle.std.specs.Prelude.{◌≡◌, ℕ, ◌<◌, ◌++◌, ◌+◌, drop, slice_get, unwrap_or, IfOk, OnOk};
ghost use Rattle.mips_instructions.specs.Words.{has};
ghost use Rattle.machine_model.specs.Answer.{after, exit_of};
ghost use Rattle.machine_model.specs.Machine.{State};
ghost use Rattle.machine_model.specs.declared.event.Event.TheVariants.{Exec};
ghost use Rattle.sequencer.specs.Machines.{state};
ghost use Rattle.event_trace.specs.Changes.{changes_of, has_arrived, lost, retired};
ghost use Rattle.event_trace.specs.Foresight.{realized};

use crate::change::{Change, add, at_unit};
use crate::foreseen::Foreseen;
use crate::instruction::{execution, instruction_at};
use crate::unit_change::UnitChange;
use machine_model::event::{Event, Spot};
use mips_instructions::number::RegSet;
use sequencer::machine::Machine;
use std::alloc::{AllocError, Global};
use task_descriptor::program::Program;

/// What is foreseen of an event on a machine that runs this program. It comes true if the event is allowed. An
/// error says that memory was refused.
pub(crate) fn foresee(
    alloc: Global,
    program: &Program,
    machine: &Machine<'_>,
    event: Event,
) -> Result<Foreseen, AllocError>
    ensures { IfOk result (λ foreseen. realized program.now foreseen (after program.now (state machine.now) event)
        ≡ changes_of program.now (state machine.now) event (after program.now (state machine.now) event)) }
{
    match event {
        Event::Assign(_) => Ok(Foreseen::Begins(machine.active())),
        Event::Exec(position) => Ok(foresee_execution(alloc, program, machine, position)),
        Event::Transfer(position, register) => Ok(Foreseen::Takes(position, register)),
        Event::Drain(position, register) => Ok(Foreseen::Sends(position, register)),
        Event::Squash(position) => {
            let going = lost(alloc, machine, position as usize + 1, &UnitChange::Squashed)?;
            Ok(Foreseen::Known(going))
        }
        Event::Retire => {
            let going = retired(alloc, machine)?;
            let before = arrived_at(machine, 1);
            Ok(Foreseen::Retires(going, before))
        }
        Event::Fault => Ok(Foreseen::Ends),
        Event::Drop(position) => {
            let going = lost(alloc, machine, position as usize, &UnitChange::Dropped)?;
            Ok(Foreseen::Known(going))
        }
    }
}

/// What is foreseen of an Exec at a position: nothing if no unit stands before an instruction there.
fn foresee_execution(
    alloc: Global,
    program: &Program,
    machine: &Machine<'_>,
    position: u32,
) -> Foreseen
    ensures { (s : State) → realized program.now result s ≡ changes_of program.now (state machine.now) (Exec position) s }
{
    let Some(unit) = machine.unit(position) else {
        return Foreseen::Known(Vec::new(alloc));
    };
    let Some(marked) = instruction_at(program, unit.spot()) else {
        return Foreseen::Known(Vec::new(alloc));
    };
    Foreseen::Executes(execution(position, unit, &marked.op))
}

/// Change `change` of each unit from a position on.
fn lost(
    alloc: Global,
    machine: &Machine<'_>,
    from: usize,
    change: &UnitChange,
) -> Result<Vec<Change>, AllocError>
    ensures { IfOk result (λ changes. changes.items ≡ lost change.now from (drop from (state machine.now).queue)) }
{
    let mut changes = Vec::new(alloc);
    let end = machine.active() as usize;
    for position in from..end {
        add_lost(&mut changes, machine, position as u32, change)?;
    }
    Ok(changes)
}

/// Adds a change of the unit at a position, if a unit is there.
fn add_lost(
    changes: &mut Vec<Change>,
    machine: &Machine<'_>,
    position: u32,
    change: &UnitChange,
) -> Result<(), AllocError>
    ensures { OnOk result (changes.new.items ++ lost change.now (position + 1) (drop (position + 1) (state machine.now).queue)
        ≡ changes.old.items ++ lost change.now position (drop position (state machine.now).queue)) }
{
    let Some(unit) = machine.unit(position) else {
        return Ok(());
    };
    let task = unit.task();
    add(
        changes,
        Change::AtUnit {
            position,
            task,
            change: *change,
        },
    )?;
    Ok(())
}

/// The address at which a unit has stopped; 0 where it has not.
fn exit_of(spot: Spot) -> u32
    ensures { result ≡ unwrap_or (exit_of spot) 0 }
{
    match spot {
        Spot::Stopped(address) => address,
        Spot::Inside(_) => 0,
    }
}

/// That the head retires, if there is one.
fn retired(alloc: Global, machine: &Machine<'_>) -> Result<Vec<Change>, AllocError>
    ensures { IfOk result (λ changes. changes.items ≡ retired (slice_get (state machine.now).queue 0)) }
{
    let Some(unit) = machine.unit(0) else {
        return Ok(Vec::new(alloc));
    };
    let exit = exit_of(unit.spot());
    at_unit(alloc, 0, unit.task(), UnitChange::Retired { exit })
}

/// The registers that have arrived at the unit at a position; none if no unit is there.
fn arrived_at(machine: &Machine<'_>, position: u32) -> RegSet
    ensures { (r : ℕ) → r < 34 → has result r ≡ has_arrived (slice_get (state machine.now).queue position) r }
{
    match machine.unit(position) {
        Some(unit) => unit.arrived_set(),
        None => RegSet::empty(),
    }
}
