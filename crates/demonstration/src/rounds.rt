//! Runs in rounds: the head retires if it may, each unit takes and sends what it can and executes one instruction, and a
//! unit that is free begins with a task.

ghost use Rattle.std.specs.Prelude.{◌≡◌, ℕ, ◌<◌, ◌≤◌, ◌↔◌, [], length, IfOk, IsTrue, OnOk};
ghost use Rattle.std.specs.List.{fold};
ghost use Rattle.open_machine.specs.Machines.{state, units_of};
ghost use Rattle.demonstration.specs.Rounds.{begun, first_begins, has_open_tail as has_open_tail_of, known_tasks as known_tasks_of, next_place as next_place_of, register_tried, registers, round as round_of, run_of, units_tried};

use crate::driven::Driven;
use machine_model::event::{Event, Spot};
use mips_instructions::number::Reg;
use mips_plain::outcome::OutOfMemory;
use open_machine::machine::OpenMachine;
use std::alloc::Global;
use task_descriptor::program::Program;

/// A unit takes and sends each register, if it may.
#[tactic(auto, using(crate::proofs::Rounding::one_more_register, crate::proofs::Rounding::all_registers))]
fn try_registers(driven: &mut Driven<'_>, position: u32) -> Result<(), OutOfMemory>
    ensures { OnOk result (driven.new ≡ record driven.old { run = fold (register_tried driven.old.program driven.old.units position) driven.old.run registers }) }
{
    for number in 0..34u8 {
        let Some(register) = Reg::new(number) else {
            unreachable!();
        };
        driven.try_event(Event::Transfer(position, register))?;
        driven.try_event(Event::Drain(position, register))?;
    }
    Ok(())
}

/// What is tried of each unit at work: what follows it is squashed, and it executes an instruction.
#[tactic(auto, using(crate::proofs::Rounding::one_more_unit))]
fn try_units(driven: &mut Driven<'_>) -> Result<(), OutOfMemory>
    ensures { OnOk result (driven.new ≡ record driven.old { run = units_tried driven.old.program driven.old.units driven.old.run }) }
{
    for position in 0..driven.machine().active() {
        driven.try_event(Event::Squash(position))?;
        try_registers(driven, position)?;
        driven.try_event(Event::Exec(position))?;
    }
    Ok(())
}

/// Whether there is a tail that has not stopped, so that what follows it is not known.
fn has_open_tail(machine: &OpenMachine<'_>) -> bool
    ensures { result ≡ has_open_tail_of (state machine.now) }
{
    match machine.unit(machine.active().saturating_sub(1)) {
        Some(tail) => matches!(tail.spot(), Spot::Inside(_)),
        None => false,
    }
}

/// The first task that may begin does.
fn begin_first(driven: &mut Driven<'_>) -> Result<(), OutOfMemory>
    ensures { OnOk result (driven.new ≡ record driven.old { run = first_begins driven.old.program driven.old.units driven.old.run 0 (length driven.old.program.tasks) }) }
{
    for task in 0..driven.machine().program().tasks().len() as u32 {
        if driven.try_event(Event::Assign(task))? {
            return Ok(());
        }
    }
    Ok(())
}

/// Which place of the run the next task has, counted from 0.
fn next_place(machine: &OpenMachine<'_>) -> usize
    ensures { result ≡ next_place_of (state machine.now) }
{
    machine
        .commits()
        .len()
        .saturating_add(machine.active() as usize)
}

/// A task begins on a free unit: the first that may where it is known that one follows, else the one that is guessed for
/// its place.
#[tactic(auto, using(crate::proofs::Rounding::begins_known))]
fn begin_on_free(driven: &mut Driven<'_>, guesses: &[u32]) -> Result<(), OutOfMemory>
    ensures { OnOk result (driven.new ≡ record driven.old { run = begun driven.old.program driven.old.units guesses.now driven.old.run }) }
{
    if !has_open_tail(driven.machine()) {
        return begin_first(driven);
    }
    match guesses.get(next_place(driven.machine())) {
        Some(task) => {
            driven.try_event(Event::Assign(*task))?;
            Ok(())
        }
        None => Ok(()),
    }
}

/// Whether a unit is free.
fn is_free(machine: &OpenMachine<'_>) -> bool
    ensures { IsTrue result ↔ (length (state machine.now).queue < units_of machine.now) }
{
    machine.active() < machine.capacity()
}

/// A task begins, if a unit is free, and the result says whether one was.
#[tactic(auto, using(crate::proofs::MoreUnits::none_begins, crate::proofs::MoreUnits::same_begun))]
fn begin(driven: &mut Driven<'_>, guesses: &[u32]) -> Result<bool, OutOfMemory>
    ensures run { OnOk result (driven.new ≡ record driven.old { run = begun driven.old.program driven.old.units guesses.now driven.old.run }) }
    ensures free { IfOk result (λ free. IsTrue free → (more : ℕ) → driven.old.units ≤ more
        → begun driven.old.program more guesses.now driven.old.run ≡ begun driven.old.program driven.old.units guesses.now driven.old.run) }
{
    if !is_free(driven.machine()) {
        return Ok(false);
    }
    begin_on_free(driven, guesses)?;
    Ok(true)
}

/// One round. The result says whether a unit was free where a task was to begin.
#[tactic(auto, using(crate::proofs::MoreUnits::same_round), unfolding(crate::specs::Rounds::round))]
fn round(driven: &mut Driven<'_>, guesses: &[u32]) -> Result<bool, OutOfMemory>
    ensures run { OnOk result (driven.new ≡ record driven.old { run = round_of driven.old.program driven.old.units guesses.now driven.old.run }) }
    ensures free { IfOk result (λ free. IsTrue free → (more : ℕ) → driven.old.units ≤ more
        → round_of driven.old.program more guesses.now driven.old.run ≡ round_of driven.old.program driven.old.units guesses.now driven.old.run) }
{
    driven.try_event(Event::Retire)?;
    driven.try_event(Event::Fault)?;
    try_units(driven)?;
    begin(driven, guesses)
}

/// The run on so many units with these guesses of the tasks that follow one another: rounds, until there are at least
/// `steps` events, or no event is allowed. And whether a unit was free each time that a task was to begin: on more units the
/// run is the same then.
#[tactic(auto, using(crate::proofs::Rounding::ends_full, crate::proofs::Rounding::ends_still, crate::proofs::Rounding::goes_on, crate::proofs::Rounding::ends_last))]
pub(crate) fn drive<'a>(
    alloc: Global,
    program: &'a Program,
    units: u32,
    guesses: &[u32],
    steps: u32,
) -> Result<(Driven<'a>, bool), OutOfMemory>
    requires { units ≤ 16 }
    ensures run { IfOk result (λ course. course.0 ≡ record { program = program.now; units = units; run = run_of program.now units guesses.now steps }) }
    ensures free { IfOk result (λ course. IsTrue course.1 → (more : ℕ) → units ≤ more
        → run_of program.now more guesses.now steps ≡ run_of program.now units guesses.now steps) }
{
    let mut driven = Driven::new(alloc, program, units)?;
    let mut is_free = true;
    for _ in 0..steps {
        let before = driven.events().len();
        if before >= steps as usize {
            return Ok((driven, is_free));
        }
        let was_free = round(&mut driven, guesses)?;
        is_free = is_free && was_free;
        if driven.events().len() <= before {
            return Ok((driven, is_free));
        }
    }
    Ok((driven, is_free))
}

/// The tasks of the run on two units in which each begins only once it is known.
pub(crate) fn known_tasks(
    alloc: Global,
    program: &Program,
    steps: u32,
) -> Result<Vec<u32>, OutOfMemory>
    ensures { IfOk result (λ tasks. tasks.items ≡ known_tasks_of program.now steps) }
{
    let (driven, _) = drive(alloc, program, 2, &[], steps)?;
    let commits = driven.machine().commits();
    let tasks = commits.iter().map(|commit| commit.task).collect(alloc)?;
    Ok(tasks)
}
