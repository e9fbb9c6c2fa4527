//! The machine: units over any well-formed program, changed by events alone.

use machine_model::event::{Commit, Event, Refused, Standing};
use machine_model::laws::next_is_after;
use mips_plain::outcome::OutOfMemory;
use processor_steps::processor::Processor;
use std::alloc::Global;
use std::marker::Model;
use task_descriptor::program::Program;
use unit_core::read_log::ReadLog;
use unit_core::unit::Unit;

/// A multiscalar machine over a well-formed program, whether its marks are sound or not.
#[derive(Drop)]
pub struct OpenMachine<'a> {
    alloc: Global,
    program: &'a Program,
    processor: Processor,
    count: usize,
}

impl<'a> Model for OpenMachine<'a> {
    ghost use Rattle.open_machine.specs.Machines.{OpenView, IsOpen};

    ghost Value = { OpenView };

    ghost view = { λ m. record { program = m.program.now; processor = m.processor; count = m.count } };

    ghost invariant = { λ m. IsOpen (record { program = m.program.now; processor = m.processor; count = m.count }) };
}

impl<'a> OpenMachine<'a> {
    ghost use Rattle.std.specs.Prelude.{◌≡◌, ◌+◌, ◌≤◌, ◌↔◌, length, slice_get, IfOk, OnOk, OnErr, IsTrue};
    ghost use Rattle.std.specs.Option.{option_copied, option_map};
    ghost use Rattle.machine_model.specs.Machine.{opening};
    ghost use Rattle.machine_model.specs.Claims.{by_head};
    ghost use Rattle.unit_core.specs.Units.{active_of};
    ghost use Rattle.machine_model.specs.declared.event.Standing.TheVariants as standing;
    ghost use Rattle.open_machine.specs.Machines.{state, units_of, IsAnswered, Applies};

    /// A machine at the start of the program, with up to 16 units, all of them free.
    ///
    /// # Errors
    ///
    /// `OutOfMemory` where memory was refused for the queue or the memory.
    pub fn new(
        alloc: Global,
        program: &'a Program,
        units: u32,
    ) -> Result<OpenMachine<'a>, OutOfMemory>
        requires { units ≤ 16 }
        ensures program { IfOk result (λ machine. machine.program ≡ program.now) }
        ensures units { IfOk result (λ machine. units_of machine ≡ units) }
        ensures count { IfOk result (λ machine. machine.count ≡ 0) }
        ensures opening { IfOk result (λ machine. state machine ≡ opening program.now) }
    {
        let processor = Processor::new(alloc, program, units)?;
        Ok(OpenMachine {
            alloc,
            program,
            processor,
            count: 0,
        })
    }

    /// Applies an event, exactly where the machine step allows it and fewer than 1,000,000 have been applied.
    ///
    /// # Errors
    ///
    /// The first refusal that holds, else `OutOfMemory` where memory was refused for an Exec or a Retire, the
    /// only events that take it; nothing is changed then.
    pub fn apply(&mut self, event: &Event) -> Result<(), Refused>
        ensures answer { IsAnswered self.old event.now result }
        ensures ok { OnOk result (Applies self.old event.now self.new) }
        ensures err { OnErr result (self.new ≡ self.old) }
        ensures kept { (self.new.program ≡ self.old.program) × (units_of self.new ≡ units_of self.old) }
    {
        next_is_after();
        if !self.is_running() {
            return Err(Refused::Ended);
        }
        self.processor
            .step(self.alloc, self.program, self.count, event)?;
        self.count += 1;
        Ok(())
    }

    /// Whether the run continues.
    pub fn is_running(&self) -> bool
        ensures { IsTrue result ↔ ((state self.now).outcome ≡ standing.Running) }
    {
        self.processor.world().is_running()
    }

    /// The program that the machine runs.
    pub fn program(&self) -> &'a Program
        ensures { result.now ≡ self.now.program }
    {
        self.program
    }

    /// The number of events that were applied.
    pub fn count(&self) -> usize
        ensures { result ≡ self.now.count }
    {
        self.count
    }

    /// The number of units, at work or free; at most 16.
    pub fn capacity(&self) -> u32
        ensures capacity { result ≡ units_of self.now }
        ensures within { units_of self.now ≤ 16 }
    {
        self.processor.capacity()
    }

    /// The number of units at work.
    pub fn active(&self) -> u32
        ensures active { result ≡ length (state self.now).queue }
        ensures within { length (state self.now).queue ≤ units_of self.now }
    {
        self.processor.active()
    }

    /// The unit at a position, counted from the head, which is 0; `None` past the tail.
    pub fn unit(&self, position: u32) -> Option<&Unit>
        ensures { option_map active_of (option_copied result) ≡ slice_get (state self.now).queue position }
    {
        self.processor.unit(position)
    }

    /// Whether the run continues or how it ended.
    pub fn outcome(&self) -> Standing
        ensures { result ≡ (state self.now).outcome }
    {
        self.processor.world().outcome()
    }

    /// What the instructions of the retired tasks read, oldest first.
    pub fn reads(&self) -> &ReadLog
        ensures { result.now.reads ≡ (state self.now).reads }
    {
        self.processor.reads()
    }

    /// How many instructions the retired tasks and the head have executed.
    pub fn executed(&self) -> usize
        ensures { result ≡ length (state self.now).reads + by_head (state self.now).queue }
    {
        let retired = self.processor.reads();
        let by_head = self.executed_by_head();
        retired.len() + by_head
    }

    /// How many instructions the head has executed; 0 where there is no head.
    fn executed_by_head(&self) -> usize
        ensures { result ≡ by_head (state self.now).queue }
    {
        match self.unit(0) {
            Some(head) => head.reads().len(),
            None => 0,
        }
    }

    /// One commit for each retired task, oldest first.
    pub fn commits(&self) -> &[Commit]
        ensures { result.now ≡ (state self.now).commits }
    {
        self.processor.commits()
    }

    /// The address, in bytes, at which the next task after the retired ones begins.
    pub fn next(&self) -> u32
        ensures { result ≡ (state self.now).next }
    {
        self.processor.next()
    }
}
