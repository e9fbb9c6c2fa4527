//! Runs by threads.

use crate::given::{Given, Runtime, TRIES};
use crate::machines::write_end;
use crate::notes::Notes;
use machine_model::event::{Event, EventRun};
use sequencer::predict::Last;
use threaded_runner::gate::Open as OpenRun;
use threaded_runner::report::{Report, RunFault};
use threaded_runner::runner::run_threads;

pub(crate) fn runs_threads(given: &Given<'_>, rt: &impl Runtime) -> Option<()> {
    let accepted = given.accepted()?;
    let (alloc, units) = (given.alloc(), given.units);
    for _ in 0..TRIES {
        given.begins();
        let answer = run_threads(rt, alloc, &accepted, units, 1_000_000, Last, &OpenRun);
        given.ends();
        match answer {
            Ok(report) => return shows_report(given, &report),
            Err(fault) => given.refused(fault == RunFault::OutOfMemory, true),
        }
    }
    None
}

// What the threads left: the counts of the workers, and what does not depend on their order.
pub(crate) fn shows_report(given: &Given<'_>, report: &Report<'_>) -> Option<()> {
    let mut note = Notes::new(given.alloc());
    writeln!(note, "note drops {}", drops(report.machine.history()));
    given.says(note.as_bytes()?);
    let mut notes = Notes::new(given.alloc());
    write_end(&mut notes, &report.machine);
    write_counts(&mut notes, report);
    given.shows_notes(&notes)
}

fn write_counts(notes: &mut Notes, report: &Report<'_>) {
    let adds_up = sum(&report.counts) == report.machine.length() as u64;
    writeln!(
        notes,
        "{:?}, {} counts add up: {adds_up}",
        report.how,
        report.counts.len()
    );
}

fn sum(counts: &[u64]) -> u64 {
    let mut all: u64 = 0;
    for count in counts {
        all = all.wrapping_add(*count);
    }
    all
}

fn drops(runs: &[EventRun]) -> u32 {
    let mut drops: u32 = 0;
    for run in runs {
        if matches!(run.event, Event::Drop(_)) {
            drops = drops.wrapping_add(run.count);
        }
    }
    drops
}
