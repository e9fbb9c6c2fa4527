//! A machine together with the events that changed it.

ghost use Rattle.std.specs.Prelude.{◌≡◌, ◌↔◌, IsTrue};
ghost use Rattle.machine_model.specs.declared.event.Refused.TheVariants as refused;

use machine_model::event::{Event, Refused};
use machine_model::laws::replays_join;
use mips_plain::outcome::OutOfMemory;
use open_machine::machine::OpenMachine;
use std::alloc::Global;
use std::marker::Model;
use task_descriptor::program::Program;

/// Whether it is want of memory that refused an event.
fn is_memory(why: Refused) -> bool
    ensures { IsTrue result ↔ (why ≡ refused.OutOfMemory) }
{
    matches!(why, Refused::OutOfMemory)
}

/// A machine, and the events that changed it, the first one first.
#[derive(Drop)]
pub(crate) struct Driven<'a> {
    machine: OpenMachine<'a>,
    events: Vec<Event>,
}

impl<'a> Model for Driven<'a> {
    ghost use Rattle.demonstration.specs.Driven.{DrivenView, driven_of, IsDriven};

    ghost Value = { DrivenView };

    ghost view = { λ d. driven_of d.machine d.events.items };

    ghost invariant = { λ d. IsDriven d.machine d.events.items };
}

impl<'a> Driven<'a> {
    ghost use Rattle.std.specs.Prelude.{◌≤◌, [], length, IfOk, OnOk};
    ghost use Rattle.machine_model.specs.Answer.{most_events};
    ghost use Rattle.machine_model.specs.Replay.{Replays};
    ghost use Rattle.open_machine.specs.Machines.{state, units_of};
    ghost use Rattle.demonstration.specs.Rounds.{is_allowed, state_after, tried};

    /// A machine with this many units at the start of the program.
    #[tactic(auto, using(crate::proofs::Driving::opened_driven))]
    pub(crate) fn new(
        alloc: Global,
        program: &'a Program,
        units: u32,
    ) -> Result<Driven<'a>, OutOfMemory>
        requires { units ≤ 16 }
        ensures { IfOk result (λ driven. driven ≡ record { program = program.now; units = units; run = [] }) }
    {
        let machine = OpenMachine::new(alloc, program, units)?;
        Ok(Driven {
            machine,
            events: Vec::new(alloc),
        })
    }

    /// The machine, in the state that the events leave, which are as many as a machine allows.
    pub(crate) fn machine(&self) -> &OpenMachine<'a>
        ensures program { result.now.program ≡ self.now.program }
        ensures units { units_of result.now ≡ self.now.units }
        ensures state { state result.now ≡ state_after self.now.program self.now.run }
        ensures room { length self.now.run ≤ most_events }
        ensures replays { Replays self.now.program self.now.units self.now.run (state_after self.now.program self.now.run) }
    {
        &self.machine
    }

    /// The events.
    pub(crate) fn events(&self) -> &[Event]
        ensures { result.now ≡ self.now.run }
    {
        &self.events
    }

    /// The events alone.
    pub(crate) fn into_events(self) -> Vec<Event>
        ensures { result.items ≡ self.entry.run }
    {
        let Driven { machine: _, events } = self;
        events
    }

    /// Tries an event: it is added where the machine allows it. The result says whether it was.
    pub(crate) fn try_event(&mut self, event: Event) -> Result<bool, OutOfMemory>
        ensures run { OnOk result (self.new ≡ record self.old { run = tried self.old.program self.old.units self.old.run event }) }
        ensures allowed { IfOk result (λ allowed. allowed ≡ is_allowed self.old.program self.old.units self.old.run event) }
    {
        replays_join();
        self.events.reserve(1)?;
        match self.machine.apply(&event) {
            Ok(()) => {
                self.events.push_reserved(event);
                Ok(true)
            }
            Err(why) => {
                if is_memory(why) {
                    return Err(OutOfMemory);
                }
                Ok(false)
            }
        }
    }
}
