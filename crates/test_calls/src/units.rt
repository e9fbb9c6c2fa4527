//! The worked examples of one unit, on task A of two programs.

use crate::given::{accepted, register};
use machine_model::event::Spot;
use mark_checker::accept::Accepted;
use mips_instructions::number::{Reg, RegSet};
use mips_plain::memory::Memory;
use register_ring::port::{AlreadyThere, Port};
use std::alloc::Global;
use std::process::Abort;
use test_programs::certificates::{COUNT_CERTIFICATE, RELEASE_CERTIFICATE};
use test_programs::programs::{COUNT, RELEASE_CREATES_MORE};
use unit_core::burst::Burst;
use unit_core::unit::Unit;
use unit_core::wait::{DrainFault, Wait};
use unit_core::world::World;

/// Registers of 0, except for a reserved set.
fn zeros(rt: &impl Abort, reserved: u64) -> Port {
    let reserved = RegSet::from_bits(reserved).expect(rt, "a mask");
    Port::fresh(&[0; 34], reserved)
}

/// A unit of a program, and the world that the head's instructions change.
#[derive(Drop)]
struct Trial<'a> {
    accepted: &'a Accepted,
    unit: Unit,
    world: World,
}

impl<'a> Trial<'a> {
    /// A unit before task A, with these registers.
    fn new(rt: &impl Abort, alloc: Global, accepted: &'a Accepted, port: Port) -> Trial<'a> {
        assert!(rt; !accepted.program().tasks().is_empty());
        let memory = Memory::new(alloc, &[], &[]).ok();
        let memory = memory.expect(rt, "room for a memory");
        Trial {
            accepted,
            unit: Unit::new(alloc, accepted.program(), 0, 0, port),
            world: World::new(alloc, memory),
        }
    }

    /// The answer to one instruction of the head, in a run that has not ended.
    fn step(&mut self, rt: &impl Abort) -> Option<Wait> {
        assert!(rt; self.world.is_running());
        self.unit
            .exec(self.accepted.program(), &mut self.world)
            .err()
    }

    /// The answer to one instruction of a unit that is not the head.
    fn step_ahead(&mut self) -> Option<Wait> {
        self.unit.exec_ahead(self.accepted.program()).err()
    }

    fn drain(&mut self, register: Reg) -> Option<DrainFault> {
        self.unit.drain(self.accepted.program(), register).err()
    }

    /// A burst of at most 64 steps.
    fn burst(&self) -> Burst<'a> {
        Burst::run(self.unit.lease(self.accepted), 64)
    }
}

/// Asserts how the head's next instructions are answered.
fn expect_steps(rt: &impl Abort, trial: &mut Trial<'_>, answers: &[Option<Wait>]) {
    for answer in answers {
        assert!(rt; trial.step(rt) == *answer);
    }
}

/// Asserts how the drain of a register is answered.
fn expect_drain(rt: &impl Abort, trial: &mut Trial<'_>, number: u8, answer: Option<DrainFault>) {
    let register = register(rt, number);
    assert!(rt; trial.drain(register) == answer, "register {number}");
}

/// Asserts the value of a register.
fn expect_value(rt: &impl Abort, unit: &Unit, number: u8, value: u32) {
    let register = register(rt, number);
    assert!(rt; unit.value(register) == Some(value), "register {number}");
}

#[test]
fn unit_runs_task(rt: HostRuntime) {
    let accepted = accepted(&rt, rt.alloc(), COUNT, COUNT_CERTIFICATE);
    let mut trial = Trial::new(&rt, rt.alloc(), &accepted, zeros(&rt, 0));
    let answers = [None, None, None, None, Some(Wait::Stopped)];
    expect_steps(&rt, &mut trial, &answers);
    assert!(rt; trial.unit.spot() == Spot::Stopped(0x0040_0000));
    assert!(rt; trial.unit.reads().len() == 4);
    for number in 8..11 {
        expect_value(&rt, &trial.unit, number, 1);
    }
    for (number, answer) in [
        (7, Some(DrainFault::NotInCreate)),
        (8, Some(DrainFault::AlreadySent)),
        (10, None),
        (10, Some(DrainFault::AlreadySent)),
    ] {
        expect_drain(&rt, &mut trial, number, answer);
    }
}

// Register 7 is in the create mask but never written.
#[test]
fn unit_drain_no_value(rt: HostRuntime) {
    let accepted = accepted(&rt, rt.alloc(), RELEASE_CREATES_MORE, RELEASE_CERTIFICATE);
    let mut trial = Trial::new(&rt, rt.alloc(), &accepted, zeros(&rt, 0x80));
    expect_steps(&rt, &mut trial, &[None, None, None]);
    assert!(rt; trial.unit.spot() == Spot::Stopped(0x0040_0014));
    expect_drain(&rt, &mut trial, 7, Some(DrainFault::NoValue));
}

#[test]
fn unit_waits(rt: HostRuntime) {
    let accepted = accepted(&rt, rt.alloc(), COUNT, COUNT_CERTIFICATE);
    let mut trial = Trial::new(&rt, rt.alloc(), &accepted, zeros(&rt, 0x100));
    expect_drain(&rt, &mut trial, 8, Some(DrainFault::NotStopped));
    let waiting = Some(Wait::Waiting(register(&rt, 8)));
    assert!(rt; trial.step(&rt) == waiting);
    assert!(rt; trial.step_ahead() == waiting);
}

// Register 8 has arrived with 2 and does not arrive again.
#[test]
fn unit_uses_what_arrived(rt: HostRuntime) {
    let accepted = accepted(&rt, rt.alloc(), COUNT, COUNT_CERTIFICATE);
    let r8 = register(&rt, 8);
    let mut port = zeros(&rt, 0x100);
    assert!(rt; port.arrive(r8, 2) == Ok(()));
    assert!(rt; port.arrive(r8, 3) == Err(AlreadyThere));
    let mut trial = Trial::new(&rt, rt.alloc(), &accepted, port);
    assert!(rt; trial.step(&rt) == None);
    expect_value(&rt, &trial.unit, 8, 3);
    assert!(rt; trial.step_ahead() == None);
    expect_value(&rt, &trial.unit, 9, 3);
}

#[test]
fn texts_of_answers(rt: HostRuntime) {
    let waiting = Wait::Waiting(register(&rt, 33));
    let text = format!(in rt.alloc(); "{waiting}, {}", DrainFault::NoValue).ok();
    let text = text.expect(&rt, "room for a text");
    assert!(rt; text.as_str() == "2 Waiting $33, 4 NoValue");
}

// Register 5 arrives while the burst is made, and stays.
#[test]
fn burst_is_taken(rt: HostRuntime) {
    let accepted = accepted(&rt, rt.alloc(), COUNT, COUNT_CERTIFICATE);
    let mut trial = Trial::new(&rt, rt.alloc(), &accepted, zeros(&rt, 0x20));
    expect_steps(&rt, &mut trial, &[None, None]);
    let burst = trial.burst();
    let Trial { mut unit, .. } = trial;
    assert!(rt; unit.arrive(register(&rt, 5), 9) == Ok(()));
    assert!(rt; burst.after().reads().len() == 2);
    assert!(rt; unit.take(burst).ok() == Some(2));
    expect_value(&rt, &unit, 5, 9);
    assert!(rt; unit.reads().len() == 4);
}
