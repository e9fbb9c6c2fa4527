//! Units on their own: instructions of a head and of a unit ahead, and bursts that are taken over.

use crate::bursts::write_burst;
use crate::given::{BURST, Given, TRIES};
use crate::notes::Notes;
use mark_checker::accept::Accepted;
use mips_instructions::number::RegSet;
use mips_plain::memory::Memory;
use register_ring::port::Port;
use unit_core::burst::Burst;
use unit_core::unit::Unit;
use unit_core::wait::Wait;
use unit_core::world::World;

/// The most instructions of a short burst.
const SHORT: u32 = 16;

/// A unit of a program, and the world that the head's instructions change.
#[derive(Drop)]
struct Trial<'a> {
    accepted: &'a Accepted,
    unit: Unit,
    world: World,
}

impl<'a> Trial<'a> {
    /// A unit before a task, with registers of 0, and the memory that the program begins with.
    fn new(given: &Given<'_>, accepted: &'a Accepted, task: u32) -> Option<Trial<'a>> {
        let program = accepted.program();
        if task as usize >= program.tasks().len() {
            return None;
        }
        let memory = Memory::new(given.alloc(), program.bytes(), program.fixed()).ok()?;
        let port = Port::fresh(&[0; 34], RegSet::empty());
        Some(Trial {
            accepted,
            unit: Unit::new(given.alloc(), program, task, 0, port),
            world: World::new(given.alloc(), memory),
        })
    }

    /// One instruction, of the head or of a unit ahead; `None` once the run has ended.
    fn step(&mut self, is_head: bool) -> Option<Result<(), Wait>> {
        if !self.world.is_running() {
            return None;
        }
        if is_head {
            Some(self.unit.exec(self.accepted.program(), &mut self.world))
        } else {
            Some(self.unit.exec_ahead(self.accepted.program()))
        }
    }

    /// A burst of so few steps that its reads are copied, or of as many as there may be.
    fn burst(&self, is_short: bool) -> Burst<'a> {
        let lease = self.unit.lease(self.accepted);
        if is_short {
            Burst::run(lease, SHORT)
        } else {
            Burst::run(lease, BURST)
        }
    }

    fn write(&self, notes: &mut Notes) {
        let (outcome, output) = (self.world.outcome(), self.world.output());
        writeln!(notes, "{:?} {outcome:?} {output:?}", self.unit);
    }

    fn notes(&self, given: &Given<'_>) -> Notes {
        let mut notes = Notes::new(given.alloc());
        self.write(&mut notes);
        notes
    }
}

/// The instructions of a unit of each task, until it waits or the run ends.
pub(crate) fn executes(given: &Given<'_>, is_head: bool) -> Option<()> {
    let accepted = given.accepted()?;
    let mut notes = Notes::new(given.alloc());
    for task in 0..accepted.program().tasks().len() {
        executes_task(given, &accepted, task as u32, is_head, &mut notes)?;
    }
    given.shows_notes(&notes)
}

fn executes_task(
    given: &Given<'_>,
    accepted: &Accepted,
    task: u32,
    is_head: bool,
    notes: &mut Notes,
) -> Option<()> {
    let mut trial = Trial::new(given, accepted, task)?;
    runs_on(given, &mut trial, is_head);
    trial.write(notes);
    Some(())
}

fn runs_on(given: &Given<'_>, trial: &mut Trial<'_>, is_head: bool) {
    for _ in 0..TRIES {
        let before = trial.notes(given);
        given.begins();
        let answer = trial.step(is_head);
        given.ends();
        match answer {
            Some(Ok(())) => {}
            Some(Err(Wait::OutOfMemory)) => {
                given.refused(true, trial.notes(given).is_same(&before));
            }
            _ => return,
        }
    }
}

/// Bursts of a unit of each task, after some of its instructions, that the unit takes over.
pub(crate) fn takes(given: &Given<'_>) -> Option<()> {
    let accepted = given.accepted()?;
    let mut notes = Notes::new(given.alloc());
    for task in 0..accepted.program().tasks().len() {
        takes_of_task(given, &accepted, task as u32, &mut notes)?;
    }
    given.shows_notes(&notes)
}

fn takes_of_task(
    given: &Given<'_>,
    accepted: &Accepted,
    task: u32,
    notes: &mut Notes,
) -> Option<()> {
    for count in 0..4 {
        takes_after(given, accepted, task, count, true, notes)?;
        takes_after(given, accepted, task, count, false, notes)?;
    }
    Some(())
}

fn takes_after(
    given: &Given<'_>,
    accepted: &Accepted,
    task: u32,
    count: u32,
    is_short: bool,
    notes: &mut Notes,
) -> Option<()> {
    let mut trial = Trial::new(given, accepted, task)?;
    for _ in 0..count {
        let _ = trial.step(true);
    }
    let burst = trial.burst(is_short);
    let Trial { mut unit, .. } = trial;
    takes_burst(given, &mut unit, burst, notes)
}

// A refusal returns the burst.
fn takes_burst(
    given: &Given<'_>,
    unit: &mut Unit,
    mut burst: Burst<'_>,
    notes: &mut Notes,
) -> Option<()> {
    for _ in 0..TRIES {
        let before = both_notes(given, unit, &burst);
        given.begins();
        let answer = unit.take(burst);
        given.ends();
        match answer {
            Ok(steps) => {
                write_taken(notes, steps, unit);
                return Some(());
            }
            Err((back, _)) => {
                burst = back;
                given.refused(true, both_notes(given, unit, &burst).is_same(&before));
            }
        }
    }
    None
}

fn write_taken(notes: &mut Notes, steps: u32, unit: &Unit) {
    writeln!(notes, "{steps} {unit:?}");
}

fn both_notes(given: &Given<'_>, unit: &Unit, burst: &Burst<'_>) -> Notes {
    let mut notes = Notes::new(given.alloc());
    write!(notes, "{unit:?} ");
    write_burst(&mut notes, burst);
    notes
}
