//! The job `annotate`.
ghost use Rattle.std.specs.Prelude.{◌≡◌, Some, Err, IfOk};
ghost use Rattle.report_texts.specs.AnnotateText.{IsAnnotateReport, IsAnnotation, IsLeastText, IsMarksAnswer, IsMarksReport, IsProposalCertificate, IsProposalText, marks_report};

use crate::report::{JobReport, refused_program};
use annotated_asm::assembler::assemble;
use annotated_asm::fault::AsmFault;
use annotator::certify::certify;
use annotator::propose::{AnnotateFault, propose};
use canonical_text::fault::MarksFault;
use canonical_text::marking::with_marks_of;
use canonical_text::print::print;
use jobs::job::Emit;
use mask_certificate::writing::write;
use std::alloc::{AllocError, Global};
use task_descriptor::program::Program;

/// The report of `annotate` on a program text.
///
/// # Errors
///
/// `AllocError` where memory was refused.
pub fn annotate(alloc: Global, emit: Emit, text: &[u8]) -> Result<JobReport, AllocError>
    ensures { IfOk result (λ report. IsAnnotateReport emit text.now report) }
{
    match assemble(alloc, text) {
        Ok(program) => annotation(alloc, emit, text, program),
        Err(AsmFault::OutOfMemory) => Err(AllocError),
        Err(fault) => refused_program(alloc, fault),
    }
}

// What `annotate` writes for a text that spells a program.
fn annotation(
    alloc: Global,
    emit: Emit,
    text: &[u8],
    program: Program,
) -> Result<JobReport, AllocError>
    ensures { IfOk result (λ report. IsAnnotation emit text.now program report) }
{
    match emit {
        Emit::Text => Ok(JobReport::new(proposal(alloc, program)?, 0)),
        Emit::Cert => Ok(JobReport::new(certificate_of_proposal(alloc, program)?, 0)),
        Emit::Keep => Ok(JobReport::new(least_certificate(alloc, &program)?, 0)),
        Emit::Marks => marked(alloc, text, program),
    }
}

// The program with the marks that are proposed for it.
fn proposal(alloc: Global, program: Program) -> Result<Vec<u8>, AllocError>
    ensures { IfOk result (λ v. IsProposalText program v.items) }
{
    match propose(alloc, program) {
        Ok((proposed, _)) => print(alloc, &proposed),
        Err((_, AnnotateFault::OutOfMemory)) => Err(AllocError),
    }
}

// The certificate of that program.
fn certificate_of_proposal(alloc: Global, program: Program) -> Result<Vec<u8>, AllocError>
    ensures { IfOk result (λ v. IsProposalCertificate program v.items) }
{
    match propose(alloc, program) {
        Ok((proposed, cert)) => write(alloc, &cert, &proposed),
        Err((_, AnnotateFault::OutOfMemory)) => Err(AllocError),
    }
}

// The certificate of the program as it stands.
fn least_certificate(alloc: Global, program: &Program) -> Result<Vec<u8>, AllocError>
    ensures { IfOk result (λ v. IsLeastText program.now v.items) }
{
    let cert = certify(alloc, program)?;
    write(alloc, &cert, program)
}

// The text itself, with the marks that are proposed for its program.
fn marked(alloc: Global, text: &[u8], program: Program) -> Result<JobReport, AllocError>
    ensures { IfOk result (λ report. IsMarksReport text.now program report) }
{
    match propose(alloc, program) {
        Ok((proposed, _)) => marks_report(alloc, text, &proposed),
        Err((_, AnnotateFault::OutOfMemory)) => Err(AllocError),
    }
}

// The text with the marks of a program, or why there is none.
fn marks_report(alloc: Global, text: &[u8], program: &Program) -> Result<JobReport, AllocError>
    ensures { IfOk result (λ report. IsMarksAnswer text.now program.now report) }
{
    match with_marks_of(alloc, text, program) {
        Ok(bytes) => Ok(JobReport::new(bytes, 0)),
        Err(fault) => refused_marks(alloc, fault),
    }
}

// Why a text does not get its marks.
fn refused_marks(alloc: Global, fault: MarksFault) -> Result<JobReport, AllocError>
    ensures { IfOk result (λ report. marks_report (Err fault) ≡ Some report) }
{
    match fault {
        MarksFault::OutOfMemory => Err(AllocError),
        MarksFault::TooLong | MarksFault::Differs => {
            let mut text = String::new(alloc);
            writeln!(text, "marks refused: {fault}")?;
            Ok(JobReport::new(text.into_bytes(), 1))
        }
    }
}
