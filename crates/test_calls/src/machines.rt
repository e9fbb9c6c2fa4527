//! Runs by single events and by head events, and what the machine reports of them; the predictors.

use crate::given::{accepted, apply_all, machine, place, register};
use machine_model::event::{Commit, Event, Standing};
use mips_plain::outcome::Read;
use sequencer::machine::{Machine, MachineFault};
use sequencer::predict::{First, Last, Predict, Script};
use std::process::Abort;
use test_programs::certificates::COUNT_CERTIFICATE;
use test_programs::programs::COUNT;

/// Applies head events until h has grown by `k`, and asserts the length, c and h, and the head event after them.
fn expect_finished(
    rt: &impl Abort,
    machine: &mut Machine<'_>,
    k: u64,
    length: usize,
    c: u64,
    h: u64,
    head: Option<Event>,
) {
    assert!(rt; machine.finish(k).is_ok());
    assert!(rt; machine.length() == length);
    let counts = machine.counts();
    assert!(rt; counts.0 == c);
    assert!(rt; counts.1 == h);
    assert!(rt; machine.head_event() == head);
}

// `finish(0)` does nothing, here on a new machine.
#[test]
fn finish_count(rt: HostRuntime) {
    let drain = Event::Drain(0, register(&rt, 10));
    let accepted = accepted(&rt, rt.alloc(), COUNT, COUNT_CERTIFICATE);
    let mut machine = machine(&rt, rt.alloc(), &accepted, 1);
    for (k, length, c, h, head) in [
        (0, 0, 0, 0, Some(Event::Assign(0))),
        (4, 5, 0, 4, Some(drain)),
        (1, 9, 4, 5, Some(Event::Exec(0))),
        (100, 31, 16, 18, None),
    ] {
        expect_finished(&rt, &mut machine, k, length, c, h, head);
    }
    expect_halted(&rt, &machine);
}

/// A round of `COUNT` that another one follows.
const ROUND: Commit = Commit {
    task: 0,
    exit: 0x0040_0000,
    count: 4,
};

const ROUNDS: [Commit; 4] = [
    ROUND,
    ROUND,
    ROUND,
    Commit {
        exit: 0x0040_0010,
        ..ROUND
    },
];

const FIRST_READ: Read = Read {
    pc: 0x0040_0000,
    a: 0,
    b: 0,
};

/// Asserts what stays of the run. Each round is four runs of equal events, and the last task two.
fn expect_halted(rt: &impl Abort, machine: &Machine<'_>) {
    assert!(rt; machine.outcome() == Standing::Halted);
    assert!(rt; machine.output() == [10].as_slice());
    assert!(rt; machine.commits() == ROUNDS.as_slice());
    assert!(rt; machine.history().len() == 18);
    assert!(rt; machine.reads().len() == 16);
    let (_, current) = machine.reads().chunks();
    assert!(rt; current.first().copied() == Some(FIRST_READ));
}

// The first unit executes its task, and the second two instructions. The Retire that raises h adds what
// the second had executed ahead.
#[test]
fn finish_runs_ahead(rt: HostRuntime) {
    let events = [
        Event::Assign(0),
        Event::Assign(0),
        Event::Exec(0),
        Event::Transfer(1, register(&rt, 8)),
        Event::Exec(1),
        Event::Exec(0),
        Event::Transfer(1, register(&rt, 9)),
        Event::Exec(1),
        Event::Exec(0),
        Event::Exec(0),
    ];
    let drain = Event::Drain(0, register(&rt, 10));
    let accepted = accepted(&rt, rt.alloc(), COUNT, COUNT_CERTIFICATE);
    let mut machine = machine(&rt, rt.alloc(), &accepted, 2);
    apply_all(&rt, &mut machine, &events);
    expect_finished(&rt, &mut machine, 0, 10, 0, 4, Some(drain));
    expect_finished(&rt, &mut machine, 1, 12, 4, 6, Some(Event::Exec(0)));
    let last = machine.history().last().expect(&rt, "an event");
    assert!(rt; last.event == Event::Retire);
}

// The first round has retired, and the unit of the second one is the head.
#[test]
fn one_round_behind(rt: HostRuntime) {
    let accepted = accepted(&rt, rt.alloc(), COUNT, COUNT_CERTIFICATE);
    let mut machine = machine(&rt, rt.alloc(), &accepted, 2);
    assert!(rt; machine.is_over(&accepted, 2));
    expect_finished(&rt, &mut machine, 5, 9, 4, 5, Some(Event::Exec(0)));
    expect_ring(&rt, &machine);
    assert!(rt; machine.memory().bytes().len() == 65_536);
}

/// Asserts which unit is the head and which is free, and what may follow; 4294967295 is 1 modulo 2.
fn expect_ring(rt: &impl Abort, machine: &Machine<'_>) {
    assert!(rt; machine.position(1) == Some(0));
    assert!(rt; machine.next_unit() == Some(0));
    assert!(rt; machine.unit_with(1) == Some(1));
    assert!(rt; machine.choices() == [place(rt, 0), place(rt, 4)].as_slice());
    assert!(rt; machine.choice(4_294_967_295) == Some(Event::Assign(1)));
}

#[test]
fn bad_unit_numbers(rt: HostRuntime) {
    let accepted = accepted(&rt, rt.alloc(), COUNT, COUNT_CERTIFICATE);
    assert!(rt; Machine::new(rt.alloc(), &accepted, 0).err() == Some(MachineFault::Units));
    assert!(rt; Machine::new(rt.alloc(), &accepted, 17).err() == Some(MachineFault::Units));
}

// Asserts what a predictor returns, call by call, where there are three targets.
fn expect_chosen<P: Predict>(rt: &impl Abort, predictor: P, expected: &[u32]) {
    let mut predictor = predictor;
    let targets = [place(rt, 0), place(rt, 4), place(rt, 5)];
    for answer in expected {
        assert!(rt; predictor.choose(&targets) == *answer);
    }
}

#[test]
fn predictors_choose(rt: HostRuntime) {
    expect_chosen(&rt, First, &[0]);
    expect_chosen(&rt, Last, &[2]);
    let numbers = [1, 0].to_vec(rt.alloc()).ok();
    let numbers = numbers.expect(&rt, "room for numbers");
    expect_chosen(&rt, Script::new(numbers), &[1, 0, 1]);
}
