//! Whether several workers accept a program.

use crate::given::Bench;
use parallel_check::checking::accepts_shared;
use parallel_check::fault::ShareFault;
use parallel_check::gate::Open;
use std::alloc::Global;
use test_programs::acceptance::parts;
use test_programs::certificates::{COUNT_CERTIFICATE, FIVE_FINDINGS_CERTIFICATE};
use test_programs::programs::{COUNT, FIVE_FINDINGS};

// Numbers of workers, and what they answer for `FIVE_FINDINGS` and for `COUNT`.
const ANSWERS: [(u32, Result<bool, ShareFault>, Result<bool, ShareFault>); 5] = [
    (1, Ok(false), Ok(true)),
    (3, Ok(false), Ok(true)),
    (16, Ok(false), Ok(true)),
    (0, Err(ShareFault::Workers), Err(ShareFault::Workers)),
    (17, Err(ShareFault::Workers), Err(ShareFault::Workers)),
];

#[test]
fn any_number_of_workers_answers_the_same(rt: HostRuntime) {
    for (workers, found, accepted) in ANSWERS {
        expect_accepts(
            &rt,
            rt.alloc(),
            FIVE_FINDINGS,
            FIVE_FINDINGS_CERTIFICATE,
            workers,
            found,
        );
        expect_accepts(&rt, rt.alloc(), COUNT, COUNT_CERTIFICATE, workers, accepted);
    }
}

fn expect_accepts(
    rt: &impl Bench,
    alloc: Global,
    program: &str,
    certificate: &str,
    workers: u32,
    answer: Result<bool, ShareFault>,
) {
    let (program, cert) = parts(alloc, program, certificate).expect(rt, "parts");
    let accepts = accepts_shared(rt, alloc, &program, &cert, workers, &Open);
    assert!(rt; accepts == answer, "{workers} workers");
}
