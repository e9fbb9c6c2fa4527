//! Bursts of the head, and how a machine takes them over.

use crate::given::{BURST, Given, TRIES};
use crate::machines::{machine_notes, shows_machine};
use crate::notes::Notes;
use machine_model::event::{Refused, Standing};
use sequencer::machine::Machine;
use unit_core::burst::Burst;

/// Bursts of the head, as long as they get, and one head event after each.
pub(crate) fn makes_bursts(given: &Given<'_>, machine: &mut Machine<'_>) -> Option<()> {
    for _ in 0..TRIES {
        if machine.outcome() != Standing::Running {
            return shows_machine(given, machine);
        }
        makes_burst(given, machine)?;
        applies_head_event(machine)?;
    }
    None
}

/// Bursts of the head that are handed in, as long as they get, and one head event after each.
pub(crate) fn hands_in_bursts(given: &Given<'_>, machine: &mut Machine<'_>) -> Option<()> {
    for _ in 0..TRIES {
        if machine.outcome() != Standing::Running {
            return shows_machine(given, machine);
        }
        hands_in_burst(given, machine)?;
        applies_head_event(machine)?;
    }
    None
}

fn applies_head_event(machine: &mut Machine<'_>) -> Option<()> {
    match machine.head_event() {
        Some(event) => machine.apply(event).ok(),
        None => Some(()),
    }
}

// A burst whose reads find no room ends early, and is one nevertheless.
fn makes_burst(given: &Given<'_>, machine: &mut Machine<'_>) -> Option<()> {
    for _ in 0..TRIES {
        let (Some(first), Some(second)) = (machine.lease(0), machine.lease(0)) else {
            return Some(());
        };
        given.begins();
        let burst = Burst::run(first, BURST);
        given.ends();
        let whole = Burst::run(second, BURST).steps();
        let steps = burst.steps();
        if machine.apply_burst(burst).ok()? != steps {
            given.says(b"another fault\n");
        }
        if steps == whole {
            return Some(());
        }
        given.refused(true, steps < whole);
    }
    None
}

// A refusal returns the burst.
fn hands_in_burst(given: &Given<'_>, machine: &mut Machine<'_>) -> Option<()> {
    let Some(lease) = machine.lease(0) else {
        return Some(());
    };
    let mut burst = Burst::run(lease, BURST);
    let before = machine_notes(given, machine);
    let made = burst_notes(given, &burst);
    for _ in 0..TRIES {
        given.begins();
        let answer = machine.apply_burst(burst);
        given.ends();
        match answer {
            Ok(_) => return Some(()),
            Err((back, fault)) => {
                burst = back;
                let is_same = machine_notes(given, machine).is_same(&before)
                    && burst_notes(given, &burst).is_same(&made);
                given.refused(fault == Refused::OutOfMemory, is_same);
            }
        }
    }
    None
}

fn burst_notes(given: &Given<'_>, burst: &Burst<'_>) -> Notes {
    let mut notes = Notes::new(given.alloc());
    write_burst(&mut notes, burst);
    notes
}

pub(crate) fn write_burst(notes: &mut Notes, burst: &Burst<'_>) {
    write!(
        notes,
        "{} {:?} {:?}",
        burst.steps(),
        burst.before(),
        burst.after()
    );
}
