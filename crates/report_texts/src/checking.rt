//! The job `check`.
ghost use Rattle.std.specs.Prelude.{◌≡◌, [], map, IfOk};
ghost use Rattle.text_pieces.specs.Pieces.{joined, AreCut};
ghost use Rattle.annotated_asm.specs.Steps.{Answers};
ghost use Rattle.annotated_asm.specs.ProgramText.{parse};
ghost use Rattle.mask_certificate.specs.CertificateReading.{cert_parse, names_of};
ghost use Rattle.mark_checker.specs.Rules.{all_rules};
ghost use Rattle.report_texts.specs.CertificateTexts.{OfCertificate};
ghost use Rattle.report_texts.specs.CheckText.{check_text};
ghost use Rattle.report_texts.specs.JudgedTexts.{certificate_judged, findings_judged, goes_on};
ghost use Rattle.report_texts.specs.VerdictTexts.{program_accepted};

use crate::judging::keep;
use crate::report::{JobReport, refused_program};
use crate::verdict_text::{accepted_program, found_program, refused_certificate};
use annotated_asm::assembler::assemble;
use annotated_asm::fault::AsmFault;
use jobs::job::{CertificateSource, Texts};
use limits::ranges::Workers;
use mask_certificate::certificate::Cert;
use mask_certificate::fault::CertFault;
use parallel_check::checking::verdict_by;
use parallel_check::gate::Open;
use parallel_check::reading::{ReadAhead, is_shared_out};
use std::alloc::{AllocError, Global};
use std::thread;
use std::thread::Threads;
use task_descriptor::program::Program;
use text_pieces::text::Text;

/// The report of `check` on a program text and the text of its certificate. `workers` threads share the work, and the
/// report is the same for any number of them. One thread alone makes the least certificate.
///
/// # Errors
///
/// `AllocError` where memory was refused.
pub fn check<R: Threads + Sync>(
    rt: &R,
    alloc: Global,
    source: CertificateSource,
    workers: Workers,
    texts: &Texts,
) -> Result<JobReport, AllocError>
    ensures { IfOk result (λ report. OfCertificate source texts.now.program.items texts.now.certificate (λ certificate.
        report ≡ check_text texts.now.program.items certificate)) }
{
    match source {
        CertificateSource::File => {
            check_by_text(rt, alloc, workers, &texts.program, &texts.certificate)
        }
        CertificateSource::Least => check_by_least(rt, alloc, workers, &texts.program),
    }
}

// Checks a program with its least certificate.
fn check_by_least<R: Threads + Sync>(
    rt: &R,
    alloc: Global,
    workers: Workers,
    program: &[u8],
) -> Result<JobReport, AllocError>
    ensures { IfOk result (λ report. OfCertificate CertificateSource.Least program.now [] (λ certificate.
        report ≡ check_text program.now certificate)) }
{
    match assemble(alloc, program) {
        Ok(program) => {
            let cert = keep(alloc, &program)?;
            check_marks(rt, alloc, workers, &program, &cert)
        }
        Err(fault) => match fault {
            AsmFault::OutOfMemory => Err(AllocError),
            _ => refused_program(alloc, fault),
        },
    }
}

// Checks a program with the text of its certificate.
fn check_by_text<R: Threads + Sync>(
    rt: &R,
    alloc: Global,
    workers: Workers,
    program: &[u8],
    certificate: &Text,
) -> Result<JobReport, AllocError>
    ensures { IfOk result (λ report. report ≡ check_text program.now certificate.now) }
{
    let pieces = certificate.pieces(alloc)?;
    let (assembled, ahead) = read_texts(rt, alloc, workers, program, &pieces);
    match assembled {
        Ok(program) => check_certificate(rt, alloc, workers, &program, ahead?),
        Err(AsmFault::OutOfMemory) => Err(AllocError),
        Err(fault) => refused_program(alloc, fault),
    }
}

// Reads the program, and the certificate as far as is possible without it. Where the certificate is shared
// out, a thread of its own reads the program meanwhile.
fn read_texts<'a, R: Threads + Sync>(
    rt: &R,
    alloc: Global,
    workers: Workers,
    program: &[u8],
    certificate: &[&'a [u8]],
) -> (Result<Program, AsmFault>, Result<ReadAhead<'a>, AllocError>)
    requires { AreCut (map (λ piece. piece.now) certificate.now) }
    ensures program { Answers (λ p. p) result.0 (parse program.now) }
    ensures certificate { IfOk result.1 (λ ahead. ahead ≡ joined (map (λ piece. piece.now) certificate.now)) }
{
    let workers = workers.get();
    if is_shared_out(certificate, workers) {
        return thread::join(
            rt,
            || assemble(alloc, program),
            ||
                requires { AreCut (map (λ piece. piece.now) certificate.now) }
            { ReadAhead::new(rt, alloc, certificate, workers, &Open) },
        );
    }
    (
        assemble(alloc, program),
        ReadAhead::new(rt, alloc, certificate, workers, &Open),
    )
}

// Checks a program with a certificate that was read ahead.
fn check_certificate<R: Threads + Sync>(
    rt: &R,
    alloc: Global,
    workers: Workers,
    program: &Program,
    certificate: ReadAhead<'_>,
) -> Result<JobReport, AllocError>
    ensures { IfOk result (λ report.
        report ≡ goes_on program_accepted (certificate_judged program.now (cert_parse certificate.entry (names_of program.now)))) }
{
    match certificate.read(alloc, program) {
        Ok(cert) => check_marks(rt, alloc, workers, program, &cert),
        Err(CertFault::OutOfMemory) => Err(AllocError),
        Err(fault) => refused_certificate(alloc, fault),
    }
}

// Checks a program with its certificate.
fn check_marks<R: Threads + Sync>(
    rt: &R,
    alloc: Global,
    workers: Workers,
    program: &Program,
    cert: &Cert,
) -> Result<JobReport, AllocError>
    ensures { IfOk result (λ report.
        report ≡ goes_on program_accepted (findings_judged program.now (all_rules program.now cert.now))) }
{
    match verdict_by(rt, alloc, program, cert, workers, &Open) {
        Ok(verdict) if verdict.findings.as_slice().is_empty() => accepted_program(alloc, program),
        Ok(verdict) => found_program(alloc, program, verdict.findings.as_slice()),
        Err(AllocError) => Err(AllocError),
    }
}
