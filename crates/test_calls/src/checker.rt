//! The program `count`: that it comes back from its text, its members, and what is found in it.

use canonical_text::laws::print_and_assemble;
use mark_checker::check::{check_task, verdict};
use mark_checker::finding::{Finding, Rule};
use mips_instructions::number::Reg;
use task_graph::members::members;
use test_programs::acceptance::parts;
use test_programs::certificates::{COUNT_CERTIFICATE, COUNT_CERTIFICATE_LACKING};
use test_programs::programs::COUNT;

#[test]
fn members_and_check_task(rt: HostRuntime) {
    let (program, cert) = parts(rt.alloc(), COUNT, COUNT_CERTIFICATE).expect(&rt, "parts");
    assert!(rt; print_and_assemble(rt.alloc(), &program).is_ok());
    let found = members(rt.alloc(), &program, 0).ok();
    let found = found.expect(&rt, "room for members");
    assert!(rt; found.as_slice() == [0, 1, 2, 3].as_slice());
    let found = check_task(rt.alloc(), &program, &cert, 0).ok();
    assert!(rt; found.expect(&rt, "room for findings").is_empty());
}

// The finding that `check` writes where a mask lacks a register.
#[test]
fn missing_destination_is_found(rt: HostRuntime) {
    let parts = parts(rt.alloc(), COUNT, COUNT_CERTIFICATE_LACKING);
    let (program, cert) = parts.expect(&rt, "parts");
    let wanted = Finding {
        task: 0,
        index: 1,
        rule: Rule::LacksDestination,
        reg: Reg::new(9),
    };
    let verdict = verdict(rt.alloc(), &program, &cert).ok();
    let found = verdict.expect(&rt, "room for findings").findings;
    assert!(rt; found.as_slice() == [wanted].as_slice());
}
