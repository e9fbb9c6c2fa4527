//! The judgement with which `replay`, `run` and `curve` begin.
ghost use Rattle.std.specs.Prelude.{◌≡◌, ◌≢◌, ◌⊎◌, [], map, Err, IfOk};
ghost use Rattle.mask_certificate.specs.CertificateReading.{cert_parse, names_of};
ghost use Rattle.mark_checker.specs.Rules.{all_rules};
ghost use Rattle.report_texts.specs.VerdictTexts.{program_found};
ghost use Rattle.report_texts.specs.JudgedTexts.{certificate_judged, findings_judged, judgement};
ghost use Rattle.report_texts.specs.Judging.{IsKept, IsLeastJudged, as_judgement};
ghost use Rattle.report_texts.specs.CertificateTexts.{OfCertificate};

use crate::report::{JobReport, refused_program};
use crate::verdict_text::{found_program, refused_certificate};
use annotated_asm::assembler::assemble;
use annotated_asm::fault::AsmFault;
use annotator::certify::certify;
use jobs::job::{CertificateSource, Texts};
use mark_checker::accept;
use mark_checker::check::verdict;
use mask_certificate::certificate::Cert;
use mask_certificate::fault::CertFault;
use mask_certificate::laws::written_is_read;
use mask_certificate::part::CertificatePart;
use mask_certificate::reading::read_parts;
use std::alloc::{AllocError, Global};
use task_descriptor::program::Program;
use text_pieces::text::Text;

/// The judgement of a program and its certificate.
#[derive(Debug, Drop)]
pub enum Judged {
    /// A text is refused, or the checker finds something: the report of the job.
    Refused(JobReport),
    /// The checker accepts the program with its certificate.
    Accepted(accept::Accepted),
}

/// Judges a program text, then the text of its certificate, and then the program by the certificate. With the least
/// certificate the result is the same as with the text that `annotate --emit keep` writes.
///
/// # Errors
///
/// `AllocError` where memory was refused. A text that is refused is no error, but a judgement.
pub fn judge(alloc: Global, source: CertificateSource, texts: &Texts) -> Result<Judged, AllocError>
    ensures { IfOk result (λ judged. OfCertificate source texts.now.program.items texts.now.certificate (λ certificate.
        as_judgement judged ≡ judgement texts.now.program.items certificate)) }
{
    match assemble(alloc, &texts.program) {
        Ok(program) => match source {
            CertificateSource::File => judge_program(alloc, program, &texts.certificate),
            CertificateSource::Least => judge_by_least(alloc, program),
        },
        Err(AsmFault::OutOfMemory) => Err(AllocError),
        Err(fault) => Ok(Judged::Refused(refused_program(alloc, fault)?)),
    }
}

/// The least certificate of a program, whose text would be read as it.
pub(crate) fn keep(alloc: Global, program: &Program) -> Result<Cert, AllocError>
    ensures { IfOk result (IsKept program.now) }
{
    written_is_read();
    let cert = certify(alloc, program)?;
    // Any one of its lists shows that they are those of a certificate.
    cert.list(0);
    Ok(cert)
}

// Judges a program by its least certificate.
fn judge_by_least(alloc: Global, program: Program) -> Result<Judged, AllocError>
    ensures { IfOk result (λ judged. IsLeastJudged program (as_judgement judged)) }
{
    let cert = keep(alloc, &program)?;
    judge_marks(alloc, program, cert)
}

// Judges the text of a program's certificate.
fn judge_program(alloc: Global, program: Program, certificate: &Text) -> Result<Judged, AllocError>
    ensures { IfOk result (λ judged.
        as_judgement judged ≡ certificate_judged program (cert_parse certificate.now (names_of program))) }
{
    match read(alloc, certificate, &program) {
        Ok(cert) => judge_marks(alloc, program, cert),
        Err(CertFault::OutOfMemory) => Err(AllocError),
        Err(fault) => Ok(Judged::Refused(refused_certificate(alloc, fault)?)),
    }
}

/// The certificate of a program that a text spells.
///
/// # Errors
///
/// The fault of the text; `CertFault::OutOfMemory` where memory was refused.
pub fn read(alloc: Global, certificate: &Text, program: &Program) -> Result<Cert, CertFault>
    ensures { (result ≡ Err CertFault.OutOfMemory) ⊎ (result ≡ cert_parse certificate.now (names_of program.now)) }
{
    let pieces = certificate.pieces(alloc)?;
    let parts = parts_of(alloc, &pieces)?;
    read_parts(alloc, parts, program)
}

// The pieces, of which nothing was read ahead.
fn parts_of<'a>(alloc: Global, pieces: &[&'a [u8]]) -> Result<Vec<CertificatePart<'a>>, AllocError>
    ensures { IfOk result (λ parts. parts.items ≡ map (λ piece. piece.now) pieces.now) }
{
    let mut parts = Vec::with_capacity(alloc, pieces.len())?;
    for piece in pieces {
        parts.push(CertificatePart::new(alloc, piece))?;
    }
    Ok(parts)
}

// Judges a program by its certificate.
fn judge_marks(alloc: Global, program: Program, cert: Cert) -> Result<Judged, AllocError>
    ensures { IfOk result (λ judged. as_judgement judged ≡ findings_judged program (all_rules program cert)) }
{
    match accept::Accepted::new(program, cert) {
        Ok(accepted) => Ok(Judged::Accepted(accepted)),
        Err((program, cert)) => Ok(Judged::Refused(report_findings(alloc, &program, &cert)?)),
    }
}

// What the rules find, where they find something.
fn report_findings(alloc: Global, program: &Program, cert: &Cert) -> Result<JobReport, AllocError>
    requires { all_rules program.now cert.now ≢ [] }
    ensures { IfOk result (λ report. report ≡ program_found program.now (all_rules program.now cert.now)) }
{
    let found = verdict(alloc, program, cert)?;
    found_program(alloc, program, found.findings.as_slice())
}
