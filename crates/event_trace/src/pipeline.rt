//! The instructions of a run in steps as a log for the pipeline viewer Konata (its format Kanata, 0004): each task on a unit is
//! a thread, and an instruction of it lasts from the step in which it is executed to the one in which its task ends.

ghost use Rattle.std.specs.Prelude.{◌<◌, ◌≤◌};

use crate::change::Change;
use crate::notes::{Source, write_effect};
use crate::ring::Ring;
use crate::source::EventSource;
use crate::times::steps_of;
use crate::told::Told;
use crate::unit_change::UnitChange;
use crate::walk::Walk;
use event_script::writing::task_name;
use machine_model::event::Event;
use mark_checker::accept::Accepted;
use std::alloc::{AllocError, Global};
use std::mem::replace;
use task_descriptor::program::Program;

/// How an instruction ends.
#[derive(Clone, Copy, Debug)]
enum Ending {
    /// Its task retires, or is the head at the end.
    Retired,
    /// Its task is squashed or dropped, or the run ends before it is the head.
    Flushed,
}

/// A log on its way.
#[derive(Drop)]
struct Log {
    alloc: Global,
    text: String,
    /// The step, from 0.
    step: usize,
    /// The instructions that were executed in it.
    fresh: Vec<u32>,
    /// How many instructions began, how many retired and how many tasks began.
    begun: u32,
    retired: u32,
    tasks: u32,
    /// Of each unit its thread and its instructions.
    threads: Vec<u32>,
    open: Vec<Vec<u32>>,
}

/// The instructions of a run in steps on `units` units, 1 to 16, of an accepted program with this text, as a log that the
/// pipeline viewer Konata reads. A thread is a task on a unit, by the number, from 0, in which it was assigned; an
/// instruction is flushed if its task is squashed or dropped, or is not the head when the run ends. An error means that
/// memory was refused.
pub fn pipeline(
    alloc: Global,
    accepted: &Accepted,
    units: u32,
    program_text: &[u8],
    events: &[Event],
) -> Result<String, AllocError>
    requires some { 0 < units }
    requires few { units ≤ 16 }
{
    let source = Source::new(alloc, program_text)?;
    let steps = steps_of(alloc, EventSource::Steps, events)?;
    let mut log = Log::new(alloc, units)?;
    let mut walk = Walk::new(alloc, accepted, units)?;
    for (index, event) in events.iter().enumerate() {
        let ring = walk.ring();
        let (next, told) = walk.step(alloc, event)?;
        walk = next;
        log.go_to(steps.get(index).copied().unwrap_or(0))?;
        if let Told::Taken(changes) = &told {
            log.add(accepted.program(), &source, &ring, changes)?;
        }
    }
    log.finish(units, walk.ring().number_at(0))
}

impl Log {
    /// A log in which nothing happened yet.
    fn new(alloc: Global, units: u32) -> Result<Log, AllocError> {
        let mut open = Vec::new(alloc);
        for _ in 0..units {
            open.push(Vec::new(alloc))?;
        }
        Ok(Log {
            alloc,
            text: String::from_str(alloc, "Kanata\t0004\nC=\t0\n")?,
            step: 0,
            fresh: Vec::new(alloc),
            begun: 0,
            retired: 0,
            tasks: 0,
            threads: vec![in alloc; 0; units as usize]?,
            open,
        })
    }

    /// Goes to a step: the instructions that were executed before it wait from then on for the end of their tasks.
    fn go_to(&mut self, step: usize) -> Result<(), AllocError> {
        if step <= self.step {
            return Ok(());
        }
        let steps = step - self.step;
        self.step = step;
        writeln!(self.text, "C\t{steps}")?;
        let fresh = replace(&mut self.fresh, Vec::new(self.alloc));
        for id in &fresh {
            writeln!(self.text, "E\t{id}\t0\tX\nS\t{id}\t0\tW")?;
        }
        Ok(())
    }

    /// Adds what an event changed, before which the ring was this one.
    fn add(
        &mut self,
        program: &Program,
        source: &Source<'_>,
        ring: &Ring,
        changes: &[Change],
    ) -> Result<(), AllocError> {
        let mut is_executed = false;
        for change in changes {
            match change {
                Change::AtUnit {
                    position,
                    task,
                    change,
                } => {
                    let unit = ring.number_at(*position);
                    is_executed |= self.add_at(source, unit, task_name(program, *task), *change)?;
                }
                effect => {
                    if is_executed {
                        write_effect(&mut self.text, *effect)?;
                    }
                }
            }
        }
        if is_executed {
            self.text.push_str("\n")?;
        }
        Ok(())
    }

    /// Adds what changed at a unit with a task of this name. Answers whether it executed an instruction: its line is then
    /// left open.
    fn add_at(
        &mut self,
        source: &Source<'_>,
        unit: usize,
        task: &str,
        change: UnitChange,
    ) -> Result<bool, AllocError> {
        match change {
            UnitChange::Began { .. } => self.begin(unit),
            UnitChange::Executed { index } => {
                self.execute(source, unit, task, index)?;
                return Ok(true);
            }
            UnitChange::Retired { .. } => self.end(unit, Ending::Retired)?,
            UnitChange::Squashed | UnitChange::Dropped => self.end(unit, Ending::Flushed)?,
            _ => {}
        }
        Ok(false)
    }

    /// Begins the thread of a task on a unit.
    fn begin(&mut self, unit: usize) {
        if let Some(thread) = self.threads.get_mut(unit) {
            *thread = self.tasks;
        }
        self.tasks = self.tasks.saturating_add(1);
    }

    /// Adds that a unit executes the instruction of this index in a task of this name; its line is left open for its effects.
    fn execute(
        &mut self,
        source: &Source<'_>,
        unit: usize,
        task: &str,
        index: u32,
    ) -> Result<(), AllocError> {
        let id = self.begun;
        self.begun = self.begun.saturating_add(1);
        self.fresh.push(id)?;
        if let Some(open) = self.open.get_mut(unit) {
            open.push(id)?;
        }
        let thread = self.threads.get(unit).copied().unwrap_or(0);
        write!(self.text, "I\t{id}\t{id}\t{thread}\nL\t{id}\t0\t{task}: ")?;
        source.write_instruction(&mut self.text, index)?;
        write!(self.text, "\nS\t{id}\t0\tX\nL\t{id}\t1\tunit {unit}, ")?;
        source.write_line(&mut self.text, index)
    }

    /// Ends the instructions of a unit, which executed at most its last one in this step.
    fn end(&mut self, unit: usize, ending: Ending) -> Result<(), AllocError> {
        let empty = Vec::new(self.alloc);
        let Some(open) = self.open.get_mut(unit) else {
            return Ok(());
        };
        let ids = replace(open, empty);
        self.forget(ids.last().copied().unwrap_or(u32::MAX))?;
        for id in &ids {
            let number = self.retired;
            match ending {
                Ending::Retired => {
                    writeln!(self.text, "R\t{id}\t{number}\t0")?;
                    self.retired = self.retired.saturating_add(1);
                }
                Ending::Flushed => writeln!(self.text, "R\t{id}\t{number}\t1")?,
            }
        }
        Ok(())
    }

    /// Leaves an instruction out of those that were executed in this step, if it is one.
    fn forget(&mut self, ended: u32) -> Result<(), AllocError> {
        let fresh = replace(&mut self.fresh, Vec::new(self.alloc));
        for id in &fresh {
            if *id != ended {
                self.fresh.push(*id)?;
            }
        }
        Ok(())
    }

    /// Ends all instructions in a step of its own: those of the head's unit retire. Answers the text.
    fn finish(mut self, units: u32, head: usize) -> Result<String, AllocError> {
        let next = self.step.saturating_add(1);
        self.go_to(next)?;
        self.end(head, Ending::Retired)?;
        for unit in 0..units {
            self.end(unit as usize, Ending::Flushed)?;
        }
        Ok(self.text)
    }
}
