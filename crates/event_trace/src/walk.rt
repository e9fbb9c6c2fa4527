//! A walk over events: the machine's answer to each, and what the event changes.

use crate::changes::changes;
use crate::foresight::foresee;
use crate::ring::Ring;
use crate::told::Told;
use limits::ranges::Units;
use machine_model::event::{Event, Refused};
use machine_model::laws::next_is_after;
use mark_checker::accept::Accepted;
use sequencer::machine::Machine;
use std::alloc::{AllocError, Global};
use std::marker::Model;
use task_descriptor::program::Program;

/// A machine that is given events, one after another. A contract sees the machine before the next event.
#[derive(Drop)]
pub struct Walk<'a> {
    accepted: &'a Accepted,
    units: u32,
    machine: Machine<'a>,
}

impl<'a> Model for Walk<'a> {
    ghost use Rattle.std.specs.Prelude.{◌≡◌, ◌<◌};
    ghost use Rattle.sequencer.specs.Machines.{MachineView, units_of};

    ghost Value = { MachineView };

    ghost view = { λ w. w.machine };

    ghost invariant = { λ w. (w.machine.accepted ≡ w.accepted.now) × (units_of w.machine ≡ w.units) × (0 < w.units) };
}

ghost use Rattle.std.specs.Prelude.{◌≡◌, ◌<◌, ◌≤◌, [], IfOk, OnOk};
ghost use Rattle.machine_model.specs.Machine.{opening};
ghost use Rattle.sequencer.specs.Machines.{answer_to, state, units_of};
ghost use Rattle.event_trace.specs.Entries.{Tells};
ghost use Rattle.event_trace.specs.Following.{GoesOn};
ghost use Rattle.event_trace.specs.Ring.{ring_in};

impl<'a> Walk<'a> {
    /// A walk from the start of an accepted program, on `units` units, 1 to 16.
    ///
    /// # Errors
    ///
    /// `AllocError` where memory was refused.
    pub fn new(alloc: Global, accepted: &'a Accepted, units: u32) -> Result<Walk<'a>, AllocError>
        requires some { 0 < units }
        requires few { units ≤ 16 }
        ensures accepted { IfOk result (λ walk. walk.accepted ≡ accepted.now) }
        ensures units { IfOk result (λ walk. units_of walk ≡ units) }
        ensures history { IfOk result (λ walk. walk.history ≡ []) }
        ensures opening { IfOk result (λ walk. state walk ≡ opening accepted.now.program) }
    {
        match Machine::with_units(alloc, accepted, Units::of(units)) {
            Ok(machine) => Ok(Walk {
                accepted,
                units,
                machine,
            }),
            Err(AllocError) => Err(AllocError),
        }
    }

    /// Gives the machine an event, and reports its answer and what the event changes.
    ///
    /// # Errors
    ///
    /// `AllocError` where memory was refused; the walk, which is taken by value, ends there.
    pub fn step(self, alloc: Global, event: &Event) -> Result<(Walk<'a>, Told), AllocError>
        ensures on { IfOk result (λ stepped. GoesOn self.entry event.now stepped.0) }
        ensures told { IfOk result (λ stepped. Tells self.entry.accepted.program (state self.entry) event.now (answer_to self.entry event.now) stepped.1) }
    {
        let Walk {
            accepted,
            units,
            mut machine,
        } = self;
        let told = advance(alloc, accepted.program(), &mut machine, event)?;
        let walk = Walk {
            accepted,
            units,
            machine,
        };
        Ok((walk, told))
    }

    /// The ring of the units, as the events so far leave it.
    pub fn ring(&self) -> Ring
        ensures { result ≡ ring_in (units_of self.now) (state self.now) }
    {
        Ring::of(&self.machine, self.units)
    }

    /// The machine as the events so far leave it.
    pub fn into_machine(self) -> Machine<'a>
        ensures { result ≡ self.entry }
    {
        self.machine
    }
}

/// Applies an event, and reports what the machine answers to it and what it changes.
fn advance(
    alloc: Global,
    program: &Program,
    machine: &mut Machine<'_>,
    event: &Event,
) -> Result<Told, AllocError>
    requires { machine.old.accepted.program ≡ program.now }
    ensures told { IfOk result (λ told. Tells program.now (state machine.old) event.now (answer_to machine.old event.now) told) }
    ensures on { OnOk result (GoesOn machine.old event.now machine.new) }
{
    next_is_after();
    let foreseen = foresee(alloc, program, machine, *event)?;
    match machine.apply(*event) {
        Ok(()) => {
            let changes = changes(alloc, machine, foreseen)?;
            Ok(Told::Taken(changes))
        }
        Err(Refused::OutOfMemory) => Err(AllocError),
        Err(refusal) => Ok(Told::Refused(refusal)),
    }
}
