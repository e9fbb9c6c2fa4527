//! Programs: their texts, their members, and what is proposed for them.

use crate::checks::reads_certificate;
use crate::given::{Given, TRIES};
use crate::notes::Notes;
use crate::plain::{makes_memory, makes_plain};
use annotated_asm::assembler::assemble;
use annotated_asm::fault::AsmFault;
use annotator::certify::certify;
use annotator::propose::{AnnotateFault, propose};
use canonical_text::print::print;
use mask_certificate::certificate::Cert;
use task_descriptor::program::Program;
use task_graph::members::members;

/// A call on a program, which keeps nothing of it.
#[derive(Clone, Copy)]
pub(crate) enum OfProgram {
    Print,
    Members,
    Certify,
    ReadCertificate,
    NewMemory,
    Plain,
}

/// Makes a call on the program until it is not refused.
pub(crate) fn of_program(given: &Given<'_>, call: OfProgram) -> Option<()> {
    let program = given.assembled()?;
    for _ in 0..TRIES {
        if once(given, &program, call) {
            return Some(());
        }
    }
    None
}

// Makes the call once, and tells whether it answered.
fn once(given: &Given<'_>, program: &Program, call: OfProgram) -> bool {
    match call {
        OfProgram::Print => prints(given, program),
        OfProgram::Members => finds_members(given, program),
        OfProgram::Certify => certifies(given, program),
        OfProgram::ReadCertificate => reads_certificate(given, program),
        OfProgram::NewMemory => makes_memory(given, program),
        OfProgram::Plain => makes_plain(given, program),
    }
}

fn prints(given: &Given<'_>, program: &Program) -> bool {
    given.begins();
    let answer = print(given.alloc(), program);
    given.ends();
    match answer {
        Ok(text) => given.shows(&text).is_some(),
        Err(_) => given.refused_once(true),
    }
}

fn finds_members(given: &Given<'_>, program: &Program) -> bool {
    given.begins();
    let answer = members(given.alloc(), program, 0);
    given.ends();
    match answer {
        Ok(found) => {
            let mut notes = Notes::new(given.alloc());
            write!(notes, "{found:?}");
            given.shows_notes(&notes).is_some()
        }
        Err(_) => given.refused_once(true),
    }
}

fn certifies(given: &Given<'_>, program: &Program) -> bool {
    given.begins();
    let answer = certify(given.alloc(), program);
    given.ends();
    match answer {
        Ok(cert) => given.shows_certificate(&cert, program).is_some(),
        Err(_) => given.refused_once(true),
    }
}

pub(crate) fn assembles(given: &Given<'_>) -> Option<()> {
    for _ in 0..TRIES {
        given.begins();
        let answer = assemble(given.alloc(), &given.program);
        given.ends();
        match answer {
            Ok(program) => return given.shows_program(&program),
            Err(fault) => given.refused(fault == AsmFault::OutOfMemory, true),
        }
    }
    None
}

pub(crate) fn proposes(given: &Given<'_>) -> Option<()> {
    let program = given.assembled()?;
    let before = print(given.alloc(), &program).ok()?;
    proposes_for(given, program, &before)
}

// A refusal returns the program, whose text was this one before.
fn proposes_for(given: &Given<'_>, mut program: Program, before: &[u8]) -> Option<()> {
    for _ in 0..TRIES {
        given.begins();
        let answer = propose(given.alloc(), program);
        given.ends();
        match answer {
            Ok((proposed, cert)) => return shows_proposed(given, &proposed, &cert),
            Err((back, AnnotateFault::OutOfMemory)) => {
                program = back;
                given.refused(true, is_text_of(given, &program, before));
            }
        }
    }
    None
}

fn shows_proposed(given: &Given<'_>, program: &Program, cert: &Cert) -> Option<()> {
    given.shows_program(program)?;
    given.shows_certificate(cert, program)
}

fn is_text_of(given: &Given<'_>, program: &Program, text: &[u8]) -> bool {
    match print(given.alloc(), program) {
        Ok(printed) => printed.as_slice() == text,
        Err(_) => false,
    }
}
