//! The diagnostics for a certificate and an event script that are given with a program.
ghost use Rattle.std.specs.Prelude.{◌≡◌, ◌++◌, true, Ok, IfOk};
ghost use Rattle.mask_certificate.specs.CertificateReading.{cert_parse, names_of};
ghost use Rattle.annotator.specs.Least.{IsLeast};
ghost use Rattle.input_diagnostics.specs.ScriptErrors.{AreScriptErrors};
ghost use Rattle.explain_report.specs.Explained.{IfGiven, IsCertificateSaid, IsFitSaid, asked_by, is_silent};

use crate::given::{Given, joined};
use annotated_asm::fault::AsmFault;
use annotated_asm::reading::source_map;
use diagnostics::diagnostic::{Diagnostic, Span};
use input_diagnostics::certificate::{ProgramLines, certificate_errors};
use input_diagnostics::script::script_errors;
use input_diagnostics::unfit::unfit_error;
use mark_checker::check::verdict;
use mask_certificate::certificate::Cert;
use mask_certificate::fault::CertFault;
use mask_certificate::reading::read;
use operand_forms::rows::lines_of;
use std::alloc::{AllocError, Global};
use task_descriptor::program::Program;

/// The diagnostics for a certificate, if a file of one is named.
pub(crate) fn certificate_said(
    alloc: Global,
    given: &Given<'_>,
    text: &[u8],
    program: &Program,
    least: &Cert,
) -> Result<Vec<Diagnostic>, AllocError>
    requires { IsLeast program.now least.now }
    ensures { IfOk result (λ list. IfGiven (asked_by given.now text.now).certificate (IsCertificateSaid program.now) list.items) }
{
    match given.cert_file {
        Some(_) => {
            let certificate = joined(alloc, &given.texts.certificate)?;
            let list = file_said(alloc, text, program, least, &certificate)?;
            Ok(list)
        }
        None => Ok(Vec::new(alloc)),
    }
}

/// What is wrong with the text of an event script, if a file of one is named.
pub(crate) fn script_said(
    alloc: Global,
    given: &Given<'_>,
    text: &[u8],
    program: &Program,
) -> Result<Vec<Diagnostic>, AllocError>
    ensures { IfOk result (λ list. IfGiven (asked_by given.now text.now).script (AreScriptErrors program.now) list.items) }
{
    match given.script_file {
        Some(_) => script_errors(alloc, &given.texts.script, program),
        None => Ok(Vec::new(alloc)),
    }
}

/// Whether there are no diagnostics.
pub(crate) fn is_silent(list: &[Diagnostic]) -> bool
    ensures { result ≡ is_silent list.now }
{
    match list {
        [] => true,
        _ => false,
    }
}

/// Both lists, one after the other.
pub(crate) fn both(
    mut first: Vec<Diagnostic>,
    mut second: Vec<Diagnostic>,
) -> Result<Vec<Diagnostic>, AllocError>
    ensures { IfOk result (λ list. list.items ≡ first.items ++ second.items) }
{
    first.append(&mut second)?;
    Ok(first)
}

// The diagnostics for the text of a certificate.
fn file_said(
    alloc: Global,
    text: &[u8],
    program: &Program,
    least: &Cert,
    certificate: &[u8],
) -> Result<Vec<Diagnostic>, AllocError>
    requires { IsLeast program.now least.now }
    ensures { IfOk result (λ list. IsCertificateSaid program.now certificate.now list.items) }
{
    let code = spans_in(alloc, text)?;
    let rows = lines_of(alloc, text)?;
    let lines = ProgramLines {
        rows: &rows,
        code: &code,
    };
    let alone = certificate_errors(alloc, certificate, program, lines, least)?;
    let silent = is_silent(&alone);
    let further = fit_said(alloc, silent, program, least, certificate)?;
    let list = both(alone, further)?;
    Ok(list)
}

// Where the instructions of a program text stand; nowhere in another text.
fn spans_in(alloc: Global, text: &[u8]) -> Result<Vec<Span>, AllocError> {
    let map = match source_map(alloc, text) {
        Ok(map) => map,
        Err(AsmFault::OutOfMemory) => return Err(AllocError),
        Err(_) => return Ok(Vec::new(alloc)),
    };
    map.code
        .iter()
        .zip(map.widths.iter())
        .map(|(at, width)| Span {
            line: at.line,
            column: at.column,
            width: *width,
        })
        .collect(alloc)
}

// Whether a certificate fits beside the program's marks, where nothing is wrong with it alone.
fn fit_said(
    alloc: Global,
    silent: bool,
    program: &Program,
    least: &Cert,
    certificate: &[u8],
) -> Result<Vec<Diagnostic>, AllocError>
    requires { IsLeast program.now least.now }
    ensures { IfOk result (λ list. IsFitSaid silent program.now
        (cert_parse certificate.now (names_of program.now)) list.items) }
{
    if silent {
        match read(alloc, certificate, program) {
            Ok(cert) => compared(alloc, program, least, certificate, &cert),
            Err(CertFault::OutOfMemory) => Err(AllocError),
            Err(_) => Ok(Vec::new(alloc)),
        }
    } else {
        Ok(Vec::new(alloc))
    }
}

// That the checker has more findings with a certificate, read from this text, than with the least one, if it does.
fn compared(
    alloc: Global,
    program: &Program,
    least: &Cert,
    text: &[u8],
    cert: &Cert,
) -> Result<Vec<Diagnostic>, AllocError>
    requires { IsLeast program.now least.now }
    ensures { IfOk result (λ list. IsFitSaid true program.now (Ok cert.now) list.items) }
{
    // Counted first, so that the two lists of findings never take memory together.
    let wanted = verdict(alloc, program, least)?.findings.as_slice().len();
    let found = verdict(alloc, program, cert)?;
    let findings = found.findings.as_slice();
    let mut list = Vec::new(alloc);
    if findings.len() <= wanted {
        return Ok(list);
    }
    list.push(unfit_error(alloc, program, text, cert, least, findings, wanted)?)?;
    Ok(list)
}
