//! Units that are lent, and bursts that are handed in.

use crate::given::{accepted, apply_all, machine, register};
use machine_model::event::Event;
use sequencer::machine::Machine;
use std::alloc::Global;
use std::process::Abort;
use test_programs::certificates::{
    COUNT_CERTIFICATE, DIAMOND_CERTIFICATE, WRONG_PATH_SPIN_CERTIFICATE,
};
use test_programs::programs::{COUNT, COUNT_FORWARDED, DIAMOND, WRONG_PATH_SPIN};
use unit_core::burst::Burst;
use unit_core::wait::Wait;

/// A burst of at most 64 steps on a unit; asserts how many it has.
fn burst<'a>(rt: &impl Abort, machine: &Machine<'a>, unit: u32, steps: u32) -> Burst<'a> {
    let burst = Burst::run(machine.lease(unit).expect(rt, "a unit at work"), 64);
    assert!(rt; burst.steps() == steps);
    burst
}

/// Hands in a burst, and asserts how many events it makes, and the length after them.
fn hand_in(
    rt: &impl Abort,
    machine: &mut Machine<'_>,
    burst: Burst<'_>,
    events: u32,
    length: usize,
) {
    assert!(rt; machine.apply_burst(burst).ok() == Some(events));
    assert!(rt; machine.length() == length);
}

// The unit that the first burst was made on is squashed, and another unit is at work on the same task.
#[test]
fn stale_burst(rt: HostRuntime) {
    let r9 = register(&rt, 9);
    let before = [Event::Assign(0), Event::Assign(1), Event::Assign(3)];
    let after = [
        Event::Exec(0),
        Event::Exec(0),
        Event::Squash(0),
        Event::Assign(2),
        Event::Assign(3),
    ];
    let accepted = accepted(&rt, rt.alloc(), DIAMOND, DIAMOND_CERTIFICATE);
    let mut machine = machine(&rt, rt.alloc(), &accepted, 3);
    apply_all(&rt, &mut machine, &before);
    let stale = burst(&rt, &machine, 2, 1);
    apply_all(&rt, &mut machine, &after);
    assert!(rt; machine.length() == 8);
    hand_in(&rt, &mut machine, stale, 0, 8);
    assert!(rt; machine.value(2, r9) == Some(0));
    let fresh = burst(&rt, &machine, 2, 1);
    hand_in(&rt, &mut machine, fresh, 1, 9);
    assert!(rt; machine.value(2, r9) == Some(7));
}

// The unit stands where it stood when it was lent, with the same registers, but has executed since.
#[test]
fn burst_log_grew(rt: HostRuntime) {
    let accepted = accepted(
        &rt,
        rt.alloc(),
        WRONG_PATH_SPIN,
        WRONG_PATH_SPIN_CERTIFICATE,
    );
    let mut machine = machine(&rt, rt.alloc(), &accepted, 2);
    apply_all(&rt, &mut machine, &[Event::Assign(0), Event::Assign(1)]);
    let stale = burst(&rt, &machine, 1, 64);
    apply_all(&rt, &mut machine, &[Event::Exec(1)]);
    hand_in(&rt, &mut machine, stale, 0, 3);
    let fresh = burst(&rt, &machine, 1, 64);
    assert!(rt; fresh.ended() == None);
    hand_in(&rt, &mut machine, fresh, 64, 67);
}

// The first instruction sends $8, and the burst goes on. Its equal events form one run of the history.
#[test]
fn burst_to_the_stop(rt: HostRuntime) {
    let accepted = accepted(&rt, rt.alloc(), COUNT, COUNT_CERTIFICATE);
    let mut machine = machine(&rt, rt.alloc(), &accepted, 1);
    apply_all(&rt, &mut machine, &[Event::Assign(0)]);
    let whole = burst(&rt, &machine, 0, 4);
    assert!(rt; whole.ended() == Some(Wait::Stopped));
    hand_in(&rt, &mut machine, whole, 4, 5);
    assert!(rt; machine.history().len() == 2);
}

/// The certificate of `COUNT` with $10 also in the mask of the last instruction of A.
const COUNT_CERTIFICATE_LARGER: &str = "cert 1
task A
0 00000700
1 00000600
2 00000400
3 00000400
task B
4 00000000
5 00000000
";

// A program and a certificate, how many events a burst of the first unit of `COUNT` makes there, and the length after
// them. The serial number and the registers are the same.
const MACHINES: [(&str, &str, u32, usize); 3] = [
    (COUNT_FORWARDED, COUNT_CERTIFICATE, 0, 1),
    (COUNT, COUNT_CERTIFICATE_LARGER, 0, 1),
    (COUNT, COUNT_CERTIFICATE, 4, 5),
];

#[test]
fn burst_other_program(rt: HostRuntime) {
    let accepted = accepted(&rt, rt.alloc(), COUNT, COUNT_CERTIFICATE);
    let mut lent = machine(&rt, rt.alloc(), &accepted, 1);
    apply_all(&rt, &mut lent, &[Event::Assign(0)]);
    for (program, certificate, events, length) in MACHINES {
        expect_taken(&rt, rt.alloc(), &lent, program, certificate, events, length);
    }
}

/// Hands in a burst of the first unit of another machine; its first step raises $8 from 0 to 1.
fn expect_taken(
    rt: &impl Abort,
    alloc: Global,
    lent: &Machine<'_>,
    program: &str,
    certificate: &str,
    events: u32,
    length: usize,
) {
    let accepted = accepted(rt, alloc, program, certificate);
    let mut machine = machine(rt, alloc, &accepted, 1);
    apply_all(rt, &mut machine, &[Event::Assign(0)]);
    hand_in(rt, &mut machine, burst(rt, lent, 0, 4), events, length);
    let raised = u32::from(events > 0);
    assert!(rt; machine.value(0, register(rt, 8)) == Some(raised));
}

// The second unit waits for a register of the first.
#[test]
fn burst_no_step(rt: HostRuntime) {
    let accepted = accepted(&rt, rt.alloc(), COUNT, COUNT_CERTIFICATE);
    let mut machine = machine(&rt, rt.alloc(), &accepted, 2);
    let events = [Event::Assign(0), Event::Assign(0), Event::Exec(0)];
    apply_all(&rt, &mut machine, &events);
    let waiting = burst(&rt, &machine, 1, 0);
    hand_in(&rt, &mut machine, waiting, 0, 3);
}
