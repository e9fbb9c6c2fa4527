//! Runs by threads: how they end, and their bursts. The expected values were worked out by hand.

use crate::given::Bench;
use machine_model::event::Standing;
use mark_checker::accept::Accepted;
use mips_instructions::number::Place;
use sequencer::predict::{First, Predict};
use std::alloc::Global;
use std::process::Abort;
use std::sync::atomic::{AtomicU32, Ordering};
use test_programs::acceptance::accepted;
use test_programs::certificates::{COUNT_CERTIFICATE, SPIN_CERTIFICATE};
use test_programs::programs::{COUNT, SPIN};
use threaded_runner::gate::{Open, RunGate};
use threaded_runner::report::{How, Report, RunFault};
use threaded_runner::runner::run_threads;

/// What a run leaves that reaches its end and has these counts.
pub(crate) fn run_at<'a, P: Predict, G: RunGate>(
    rt: &impl Bench,
    alloc: Global,
    accepted: &'a Accepted,
    units: u32,
    predictor: P,
    gate: &G,
    counts: (u64, u64),
) -> Report<'a> {
    let report = run_threads(rt, alloc, accepted, units, 1_000_000, predictor, gate);
    let report = report.ok().expect(rt, "a report");
    assert!(rt; report.how == How::Ended);
    let (c, h) = report.machine.counts();
    assert!(rt; c == counts.0);
    assert!(rt; h == counts.1);
    report
}

/// Asserts that each event of the history is counted for one of the given number of workers.
pub(crate) fn expect_counts(rt: &impl Abort, report: &Report<'_>, workers: u32) {
    assert!(rt; report.counts.len() == workers as usize);
    let mut all: u64 = 0;
    for count in &report.counts {
        all = all.wrapping_add(*count);
    }
    assert!(rt; all == report.machine.length() as u64);
}

/// Answers a number that is beyond every list of targets.
#[derive(Drop)]
struct Large;

impl Predict for Large {
    fn choose(&mut self, _targets: &[Place]) -> u32 {
        u32::MAX
    }
}

#[test]
fn large_answers(rt: HostRuntime) {
    let accepted = accepted(rt.alloc(), COUNT, COUNT_CERTIFICATE).expect(&rt, "accepted");
    for units in [1, 2, 4, 16] {
        expect_counted(&rt, rt.alloc(), &accepted, units);
    }
}

fn expect_counted(rt: &impl Bench, alloc: Global, accepted: &Accepted, units: u32) {
    let report = run_at(rt, alloc, accepted, units, Large, &Open, (16, 18));
    assert!(rt; report.machine.outcome() == Standing::Halted);
    assert!(rt; report.machine.output() == [10].as_slice());
    expect_counts(rt, &report, units);
}

/// Counts the calls after a burst, and notes the most instructions of one.
#[derive(Drop)]
struct Longest {
    calls: AtomicU32,
    steps: AtomicU32,
}

impl RunGate for Longest {
    fn before(&self, _worker: u32) {}

    fn after(&self, _worker: u32, steps: u32) {
        self.calls.fetch_add(1, Ordering::SeqCst);
        self.steps.fetch_max(steps, Ordering::SeqCst);
    }
}

// A single worker executes 1,024 instructions in place. The task has filled that, so the next bursts are leased: of 128
// instructions, then of twice as many each time up to 4,096, and of the last 911. (That none holds the lock meanwhile,
// its type says.)
#[test]
fn one_worker_leases_bursts(rt: HostRuntime) {
    let accepted = accepted(rt.alloc(), SPIN, SPIN_CERTIFICATE).expect(&rt, "accepted");
    let gate = Longest {
        calls: AtomicU32::new(0),
        steps: AtomicU32::new(0),
    };
    let report = run_threads(&rt, rt.alloc(), &accepted, 1, 10_000, First, &gate);
    let report = report.ok().expect(&rt, "a report");
    assert!(rt; report.how == How::OutOfBudget);
    assert!(rt; report.machine.length() == 10_000);
    assert!(rt; gate.calls.load(Ordering::SeqCst) == 8);
    assert!(rt; gate.steps.load(Ordering::SeqCst) == 4_096);
}

// A number of units and a budget, and what is wrong with them.
const BAD_RUNS: [(u32, u32, RunFault); 3] = [
    (0, 1, RunFault::Units),
    (17, 1, RunFault::Units),
    (4, 0, RunFault::Budget),
];

#[test]
fn bad_runner_numbers(rt: HostRuntime) {
    let accepted = accepted(rt.alloc(), COUNT, COUNT_CERTIFICATE).expect(&rt, "accepted");
    for (units, budget, fault) in BAD_RUNS {
        let answer = run_threads(&rt, rt.alloc(), &accepted, units, budget, First, &Open);
        assert!(rt; answer.err() == Some(fault));
    }
}
