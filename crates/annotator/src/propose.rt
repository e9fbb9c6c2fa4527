//! Proposes marks for a program.

ghost use Rattle.std.specs.Prelude.{◌≡◌, None, length, MatchResult, IfOk};
ghost use Rattle.task_descriptor.specs.Listing.{IsWellFormed, build_fault};
ghost use Rattle.annotator.specs.Least.{IsLeast};
ghost use Rattle.annotator.specs.Proposed.{IsProposed};
ghost use Rattle.annotator.specs.Marking.{AreCreates, AreForwards, with_forwards, with_creates, with_marks};

use crate::certify::certificate;
use crate::marks::{create_masks, forward_bits, members_of_any};
use crate::masks::least_masks;
use mask_certificate::certificate::Cert;
use mips_instructions::number::RegSet;
use std::alloc::{AllocError, Global};
use task_descriptor::descriptor::{Descriptor, Marked};
use task_descriptor::program::Program;
use thiserror::Error;

/// Why no marks are proposed.
#[derive(Clone, Copy, Debug, PartialEq, Eq, Error)]
pub enum AnnotateFault {
    /// 1: memory was refused.
    #[error("1 OutOfMemory")]
    OutOfMemory,
}

/// What is found before the program is changed.
#[derive(Drop)]
struct Found {
    forwards: Vec<bool>,
    creates: Vec<RegSet>,
    cert: Cert,
}

/// The program with the marks that are proposed for it, and its least certificate. Each create mask is what
/// members of the task write or release; a member of a task has a forward bit exactly where it has a
/// destination and no destination may be written again; everything else stays.
///
/// # Errors
///
/// `OutOfMemory` where memory was refused, with the program as it was.
pub fn propose(alloc: Global, program: Program) -> Result<(Program, Cert), (Program, AnnotateFault)>
    ensures { MatchResult result
        (λ proposed. IsProposed program proposed.0 × IsLeast proposed.0 proposed.1)
        (λ refused. refused.0 ≡ program) }
{
    match find_marks(alloc, &program) {
        Ok(found) => {
            let Found {
                forwards,
                creates,
                cert,
            } = found;
            Ok((marked(program, &forwards, &creates), cert))
        }
        Err(AllocError) => Err((program, AnnotateFault::OutOfMemory)),
    }
}

/// The marks to propose, and the least certificate, which doesn't depend on forward bits or create
/// masks.
fn find_marks(alloc: Global, program: &Program) -> Result<Found, AllocError>
    ensures forwards { IfOk result (λ found. AreForwards program.now (length program.now.code) found.forwards.items) }
    ensures creates { IfOk result (λ found. AreCreates program.now (length program.now.tasks) found.creates.items) }
    ensures cert { IfOk result (λ found. IsLeast program.now found.cert) }
    ensures well_formed { IfOk result (λ found. IsWellFormed program.now) }
{
    let masks = least_masks(alloc, program)?;
    let cert = certificate(alloc, program, &masks)?;
    let members = members_of_any(alloc, program, &cert)?;
    let forwards = forward_bits(alloc, program, &masks, &members)?;
    let creates = create_masks(alloc, program, &cert)?;
    Ok(Found {
        forwards,
        creates,
        cert,
    })
}

/// The program with these forward bits and create masks. Takes no memory.
fn marked(program: Program, forwards: &[bool], creates: &[RegSet]) -> Program
    requires forwards { length forwards.now ≡ length program.code }
    requires creates { length creates.now ≡ length program.tasks }
    requires passes { build_fault (with_marks program forwards.now creates.now) ≡ None }
    ensures { result ≡ with_marks program forwards.now creates.now }
{
    let mut parts = program.parts();
    set_forwards(&mut parts.code, forwards);
    set_creates(&mut parts.tasks, creates);
    match Program::build(parts) {
        Ok(program) => program,
        Err(_) => unreachable!(),
    }
}

/// Gives each instruction its forward bit.
fn set_forwards(code: &mut [Marked], forwards: &[bool])
    requires { length forwards.now ≡ length code.old }
    ensures { code.new ≡ with_forwards code.old forwards.now }
{
    for (i, forward) in forwards.iter().enumerate() {
        code[i].forward = *forward;
    }
}

/// Gives each task its create mask.
fn set_creates(tasks: &mut [Descriptor], creates: &[RegSet])
    requires { length creates.now ≡ length tasks.old }
    ensures { tasks.new ≡ with_creates tasks.old creates.now }
{
    for (task, create) in creates.iter().enumerate() {
        tasks[task].create = *create;
    }
}
