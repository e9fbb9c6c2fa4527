//! Certificates, and the checks of one worker and of several.

use crate::given::{Given, Runtime, TRIES};
use crate::notes::Notes;
use crate::watch::Watch;
use mark_checker::check::{check_task, verdict};
use mask_certificate::certificate::Cert;
use mask_certificate::fault::CertFault;
use mask_certificate::reading::read;
use mask_certificate::writing::write;
use parallel_check::checking::{accepts_shared, verdict_shared};
use parallel_check::fault::ShareFault;
use parallel_check::gate::Open as OpenCheck;
use task_descriptor::program::Program;

/// A call on a program and its certificate by one worker.
#[derive(Clone, Copy)]
pub(crate) enum OfPair {
    Write,
    CheckTask,
    Verdict,
}

/// Makes a call on the program and its certificate until it is not refused.
pub(crate) fn of_pair(given: &Given<'_>, call: OfPair) -> Option<()> {
    let (program, cert) = given.pair()?;
    for _ in 0..TRIES {
        if once(given, &program, &cert, call) {
            return Some(());
        }
    }
    None
}

// Makes the call once, and tells whether it answered.
fn once(given: &Given<'_>, program: &Program, cert: &Cert, call: OfPair) -> bool {
    match call {
        OfPair::Write => writes_certificate(given, program, cert),
        OfPair::CheckTask => checks_task(given, program, cert),
        OfPair::Verdict => checks(given, program, cert),
    }
}

pub(crate) fn reads_certificate(given: &Given<'_>, program: &Program) -> bool {
    given.begins();
    let answer = read(given.alloc(), &given.certificate, program);
    given.ends();
    match answer {
        Ok(cert) => given.shows_certificate(&cert, program).is_some(),
        Err(fault) => given.refused_once(fault == CertFault::OutOfMemory),
    }
}

fn writes_certificate(given: &Given<'_>, program: &Program, cert: &Cert) -> bool {
    given.begins();
    let answer = write(given.alloc(), cert, program);
    given.ends();
    match answer {
        Ok(text) => given.shows(&text).is_some(),
        Err(_) => given.refused_once(true),
    }
}

fn checks_task(given: &Given<'_>, program: &Program, cert: &Cert) -> bool {
    given.begins();
    let answer = check_task(given.alloc(), program, cert, 0);
    given.ends();
    match answer {
        Ok(found) => {
            let mut notes = Notes::new(given.alloc());
            write!(notes, "{found:?}");
            given.shows_notes(&notes).is_some()
        }
        Err(_) => given.refused_once(true),
    }
}

fn checks(given: &Given<'_>, program: &Program, cert: &Cert) -> bool {
    given.begins();
    let answer = verdict(given.alloc(), program, cert);
    given.ends();
    match answer {
        Ok(verdict) => {
            let mut notes = Notes::new(given.alloc());
            write!(notes, "{verdict:?}");
            given.shows_notes(&notes).is_some()
        }
        Err(_) => given.refused_once(true),
    }
}

pub(crate) fn checks_shared(given: &Given<'_>, rt: &impl Runtime) -> Option<()> {
    let (program, cert) = given.pair()?;
    let (alloc, workers) = (given.alloc(), given.workers);
    for _ in 0..TRIES {
        let gate = Watch::new(workers);
        given.begins();
        let answer = verdict_shared(rt, alloc, &program, &cert, workers, &gate);
        given.ends();
        if !gate.is_right() {
            given.refused(false, true);
        }
        match answer {
            Ok(verdict) => {
                let mut notes = Notes::new(alloc);
                write!(notes, "{verdict:?}");
                return given.shows_notes(&notes);
            }
            Err(fault) => given.refused(fault == ShareFault::OutOfMemory, true),
        }
    }
    None
}

pub(crate) fn accepts_by_several(given: &Given<'_>, rt: &impl Runtime) -> Option<()> {
    let (program, cert) = given.pair()?;
    let (alloc, workers) = (given.alloc(), given.workers);
    for _ in 0..TRIES {
        given.begins();
        let answer = accepts_shared(rt, alloc, &program, &cert, workers, &OpenCheck);
        given.ends();
        match answer {
            Ok(accepted) => return given.shows(if accepted { b"yes" } else { b"no" }),
            Err(fault) => given.refused(fault == ShareFault::OutOfMemory, true),
        }
    }
    None
}
