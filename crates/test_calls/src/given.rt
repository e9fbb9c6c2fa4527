//! Registers, places, accepted programs, and machines with the events that they are given.

use machine_model::event::Event;
use mark_checker::accept::Accepted;
use mips_instructions::number::{Place, Reg};
use sequencer::machine::Machine;
use std::alloc::Global;
use std::process::Abort;
use test_programs::acceptance;

pub(crate) fn register(rt: &impl Abort, number: u8) -> Reg {
    Reg::new(number).expect(rt, "a register")
}

pub(crate) fn place(rt: &impl Abort, index: u32) -> Place {
    Place::new(index).expect(rt, "a place")
}

/// A program, accepted with its certificate.
pub(crate) fn accepted(
    rt: &impl Abort,
    alloc: Global,
    program: &str,
    certificate: &str,
) -> Accepted {
    acceptance::accepted(alloc, program, certificate).expect(rt, "accepted")
}

/// A machine with the given number of units, at the start of its program.
pub(crate) fn machine<'a>(
    rt: &impl Abort,
    alloc: Global,
    accepted: &'a Accepted,
    units: u32,
) -> Machine<'a> {
    Machine::new(alloc, accepted, units)
        .ok()
        .expect(rt, "a machine")
}

/// Applies events, and asserts that each is allowed.
pub(crate) fn apply_all(rt: &impl Abort, machine: &mut Machine<'_>, events: &[Event]) {
    for event in events {
        apply(rt, machine, event);
    }
}

fn apply(rt: &impl Abort, machine: &mut Machine<'_>, event: &Event) {
    assert!(rt; machine.enabled(*event));
    assert!(rt; machine.apply(*event).is_ok());
}
