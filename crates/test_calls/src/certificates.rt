//! Every beginning of a certificate, in both spellings.

use mask_certificate::fault::CertFault;
use mask_certificate::reading::read;
use std::alloc::Global;
use std::process::Abort;
use task_descriptor::program::Program;
use test_programs::acceptance::parts;
use test_programs::certificates::{COUNT_CERTIFICATE, COUNT_CERTIFICATE_WIDE};
use test_programs::programs::COUNT;

/// What the first bytes of a text with 9 lines are: their lines, and whether the last one is whole.
fn answer_of_beginning(text: &[u8]) -> Option<CertFault> {
    let lines = text.iter().filter(|byte| **byte == b'\n').count();
    if text.len() < 7 {
        Some(CertFault::Header)
    } else if text.last() != Some(&b'\n') {
        Some(CertFault::Line(lines.saturating_add(1)))
    } else if lines < 7 {
        Some(CertFault::MissingTask)
    } else {
        None
    }
}

#[test]
fn beginnings_are_refused(rt: HostRuntime) {
    let (program, _) = parts(rt.alloc(), COUNT, COUNT_CERTIFICATE).expect(&rt, "parts");
    for text in [COUNT_CERTIFICATE, COUNT_CERTIFICATE_WIDE] {
        expect_beginnings(&rt, rt.alloc(), &program, text.as_bytes());
    }
}

// Asserts the fault of each beginning of a text.
fn expect_beginnings(rt: &impl Abort, alloc: Global, program: &Program, text: &[u8]) {
    for len in 0..text.len() {
        let beginning = &text[..len];
        let answer = read(alloc, beginning, program).err();
        assert!(rt; answer == answer_of_beginning(beginning));
    }
}
