//! The machine and its events.

use crate::bursts::{hands_in_bursts, makes_bursts};
use crate::given::{Given, MANY, TRIES};
use crate::notes::Notes;
use event_script::reading::read as read_script;
use machine_model::event::{Event, Refused, Standing};
use mark_checker::accept::Accepted;
use mips_instructions::number::Reg;
use mips_plain::outcome::Read;
use sequencer::machine::{Machine, MachineFault};
use unit_core::burst::Burst;

/// Calls on a machine.
#[derive(Clone, Copy)]
pub(crate) enum OfMachine {
    Apply,
    Finish,
    MakeBursts,
    HandInBursts,
}

/// Makes calls on a machine at the start of the program, each until it is not refused.
pub(crate) fn of_machine(given: &Given<'_>, units: u32, call: OfMachine) -> Option<()> {
    let accepted = given.accepted()?;
    let mut machine = Machine::new(given.alloc(), &accepted, units).ok()?;
    match call {
        OfMachine::Apply => applies(given, &accepted, &mut machine),
        OfMachine::Finish => finishes(given, &mut machine),
        OfMachine::MakeBursts => makes_bursts(given, &mut machine),
        OfMachine::HandInBursts => hands_in_bursts(given, &mut machine),
    }
}

pub(crate) fn makes_machine(given: &Given<'_>) -> Option<()> {
    let accepted = given.accepted()?;
    for _ in 0..TRIES {
        given.begins();
        let answer = Machine::new(given.alloc(), &accepted, given.units);
        given.ends();
        match answer {
            Ok(machine) => return shows_machine(given, &machine),
            Err(fault) => given.refused(fault == MachineFault::OutOfMemory, true),
        }
    }
    None
}

pub(crate) fn shows_machine(given: &Given<'_>, machine: &Machine<'_>) -> Option<()> {
    given.shows_notes(&machine_notes(given, machine))
}

// All that can be seen of a machine.
pub(crate) fn machine_notes(given: &Given<'_>, machine: &Machine<'_>) -> Notes {
    let mut notes = Notes::new(given.alloc());
    write_end(&mut notes, machine);
    write_history(&mut notes, machine);
    for unit in 0..16 {
        write_unit(&mut notes, machine, unit);
    }
    for position in 0..16 {
        write_values(&mut notes, machine, position);
    }
    notes
}

// What a machine has done, whatever the order of events was.
pub(crate) fn write_end(notes: &mut Notes, machine: &Machine<'_>) {
    let (c, h) = machine.counts();
    writeln!(notes, "{:?} c {c} h {h}", machine.outcome());
    writeln!(notes, "output {:?}", machine.output());
    for commit in machine.commits() {
        writeln!(notes, "{commit:?}");
    }
    writeln!(
        notes,
        "reads {:08x} of {}",
        sum_of_reads(machine),
        machine.reads().len()
    );
    writeln!(notes, "memory {:08x}", sum(machine.memory().bytes()));
}

fn write_history(notes: &mut Notes, machine: &Machine<'_>) {
    writeln!(
        notes,
        "length {} executed {}",
        machine.length(),
        machine.executed()
    );
    for run in machine.history() {
        writeln!(notes, "{:?} {} times", run.event, run.count);
    }
}

// Bytes as one number.
fn sum(bytes: &[u8]) -> u32 {
    let mut all: u32 = 0;
    for byte in bytes {
        all = all.wrapping_mul(16_777_619).wrapping_add(u32::from(*byte));
    }
    all
}

// The committed reads as one number.
fn sum_of_reads(machine: &Machine<'_>) -> u32 {
    let mut all: u32 = 0;
    let (closed, current) = machine.reads().chunks();
    for chunk in closed {
        all = sum_behind(all, chunk);
    }
    sum_behind(all, current)
}

// Reads after others as one number.
fn sum_behind(before: u32, reads: &[Read]) -> u32 {
    let mut all = before;
    for read in reads {
        all = all
            .wrapping_mul(16_777_619)
            .wrapping_add(read.pc ^ read.a ^ read.b);
    }
    all
}

// A unit as it would be lent, and where it stands.
fn write_unit(notes: &mut Notes, machine: &Machine<'_>, unit: u32) {
    if let Some(lease) = machine.lease(unit) {
        let burst = Burst::run(lease, 0);
        writeln!(notes, "unit {unit} {:?}", burst.before());
    }
    if let Some(position) = machine.position(unit) {
        writeln!(notes, "unit {unit} at {position}");
    }
}

fn write_values(notes: &mut Notes, machine: &Machine<'_>, position: u32) {
    for number in 0..34 {
        if let Some(register) = Reg::new(number) {
            write_value(notes, machine, position, number, register);
        }
    }
}

fn write_value(notes: &mut Notes, machine: &Machine<'_>, position: u32, number: u8, register: Reg) {
    if let Some(value) = machine.value(position, register) {
        writeln!(notes, "{position} {number} {value}");
    }
}

// Each event of the script.
fn applies(given: &Given<'_>, accepted: &Accepted, machine: &mut Machine<'_>) -> Option<()> {
    let events = read_script(given.alloc(), &given.script, accepted.program()).ok()?;
    for event in &events {
        applies_event(given, machine, event)?;
    }
    shows_machine(given, machine)
}

fn applies_event(given: &Given<'_>, machine: &mut Machine<'_>, event: &Event) -> Option<()> {
    let before = machine_notes(given, machine);
    for _ in 0..TRIES {
        given.begins();
        let answer = machine.apply(*event);
        given.ends();
        let Err(Refused::OutOfMemory) = answer else {
            return Some(());
        };
        let is_same = machine_notes(given, machine).is_same(&before);
        notes_refused(given, event)?;
        given.refused(true, is_same);
    }
    None
}

// A line of its own, which names the event.
fn notes_refused(given: &Given<'_>, event: &Event) -> Option<()> {
    let mut notes = Notes::new(given.alloc());
    writeln!(notes, "note {event:?} refused");
    given.says(notes.as_bytes()?);
    Some(())
}

// The events before the refused one stay.
fn finishes(given: &Given<'_>, machine: &mut Machine<'_>) -> Option<()> {
    for _ in 0..TRIES {
        let before = machine.length();
        given.begins();
        let answer = machine.finish(MANY);
        given.ends();
        match answer {
            Ok(()) => return shows_machine(given, machine),
            Err(fault) => {
                let goes_on = machine.outcome() == Standing::Running && machine.length() >= before;
                given.refused(fault == Refused::OutOfMemory, goes_on);
            }
        }
    }
    None
}
