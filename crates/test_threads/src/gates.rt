//! That workers work side by side: each meets the others at a gate. And that those that sleep are woken.

use crate::given::{Meeting, Nap, halts};
use crate::runs::{expect_counts, run_at};
use machine_model::event::{Event, EventRun};
use parallel_check::checking::verdict_shared;
use sequencer::predict::{First, Last};
use std::process::Abort;
use test_programs::acceptance::{accepted, parts};
use test_programs::certificates::{DIAMOND_CERTIFICATE, PAIR_CERTIFICATE};
use test_programs::programs::{DIAMOND, PAIR};

#[test]
fn sixteen_workers_check_at_the_same_time(rt: HostRuntime) {
    let (program, cert) = halts(rt.alloc()).ok().expect(&rt, "room for texts");
    let parts = parts(rt.alloc(), program.as_str(), cert.as_str());
    let (program, cert) = parts.expect(&rt, "parts");
    let gate = Meeting::new(rt.clone().expect(&rt, "another handle"), 16);
    let verdict = verdict_shared(&rt, rt.alloc(), &program, &cert, 16, &gate);
    assert!(rt; verdict.is_ok());
    assert!(rt; gate.all_met());
}

#[test]
fn gate_pair(rt: HostRuntime) {
    let accepted = accepted(rt.alloc(), PAIR, PAIR_CERTIFICATE).expect(&rt, "accepted");
    let gate = Meeting::new(rt.clone().expect(&rt, "another handle"), 2);
    let report = run_at(&rt, rt.alloc(), &accepted, 2, First, &gate, (2, 3));
    assert!(rt; gate.all_met());
    let (first, second) = gate.steps();
    assert!(rt; first == 1);
    assert!(rt; second == 1);
    expect_counts(&rt, &report, 2);
}

// Asserts which tasks a history assigns.
fn expect_assigned(rt: &impl Abort, history: &[EventRun], tasks: &[(u32, bool)]) {
    for (task, is_assigned) in tasks {
        let assigns = history.iter().any(|run| run.event == Event::Assign(*task));
        assert!(rt; assigns == *is_assigned, "task {task}");
    }
}

#[test]
fn gate_diamond_predictor(rt: HostRuntime) {
    let accepted = accepted(rt.alloc(), DIAMOND, DIAMOND_CERTIFICATE).expect(&rt, "accepted");
    let gate = Meeting::new(rt.clone().expect(&rt, "another handle"), 2);
    let report = run_at(&rt, rt.alloc(), &accepted, 2, Last, &gate, (3, 6));
    assert!(rt; gate.all_met());
    let tasks = [(0, true), (1, false), (2, true), (3, true)];
    expect_assigned(&rt, report.machine.history(), &tasks);
    let gate = Meeting::new(rt.clone().expect(&rt, "another handle"), 2);
    let report = run_at(&rt, rt.alloc(), &accepted, 2, First, &gate, (3, 6));
    assert!(rt; gate.all_met());
    let tasks = [(0, true), (1, true), (2, true), (3, true)];
    expect_assigned(&rt, report.machine.history(), &tasks);
}

// The second worker is held up before its burst. Meanwhile the first one, whose task has retired, falls asleep, and so
// does the third one, whose task is a `halt` and waits for the head. If one of them is not woken, the run does not end.
#[test]
fn sleepers_are_woken(rt: HostRuntime) {
    let accepted = accepted(rt.alloc(), PAIR, PAIR_CERTIFICATE).expect(&rt, "accepted");
    let gate = Nap {
        rt: rt.clone().expect(&rt, "another handle"),
    };
    let report = run_at(&rt, rt.alloc(), &accepted, 3, First, &gate, (2, 3));
    expect_counts(&rt, &report, 3);
}
