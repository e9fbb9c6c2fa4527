//! The calls of the plain machine.

use crate::given::{accepted, register};
use mips_plain::outcome::Outcome;
use mips_plain::plain::Plain;
use std::process::Abort;
use test_programs::certificates::COUNT_CERTIFICATE;
use test_programs::programs::COUNT;

#[test]
fn runs_to_the_end(rt: HostRuntime) {
    let accepted = accepted(&rt, rt.alloc(), COUNT, COUNT_CERTIFICATE);
    let machine = accepted.program().plain(rt.alloc()).ok();
    let mut machine = machine.expect(&rt, "a machine");
    step(&rt, &mut machine);
    assert!(rt; machine.reg(register(&rt, 8)) == 1);
    expect_at(&rt, &machine, 1, 0x0040_0004);
    run(&rt, &mut machine);
    assert!(rt; machine.outcome() == Outcome::Halted);
    assert!(rt; machine.output() == [10].as_slice());
    expect_at(&rt, &machine, 18, 0x0040_0014);
}

fn step(rt: &impl Abort, machine: &mut Plain) {
    assert!(rt; machine.count() < 1_000);
    assert!(rt; machine.step() == Ok(()));
}

fn run(rt: &impl Abort, machine: &mut Plain) {
    assert!(rt; machine.count() < 1_000);
    assert!(rt; machine.run(100) == Ok(()));
}

// Asserts how many steps a machine has taken, and its address.
fn expect_at(rt: &impl Abort, machine: &Plain, count: u64, pc: u32) {
    assert!(rt; machine.count() == count);
    assert!(rt; machine.pc() == pc);
}
