//! The diagnostic for a certificate with which the checker finds more than with the least one: a mask is too large.

ghost use Rattle.std.specs.Prelude.{IfOk};
ghost use Rattle.diagnostics.specs.declared.diagnostic.Source.TheVariants.{Certificate};
ghost use Rattle.input_diagnostics.specs.Advice.{IsErrorOf};

use crate::advice::{ANEW, advice, span};
use crate::certificate::ProgramLines;
use crate::masks::Compared;
use crate::refused::digits_in;
use diagnostics::code::Code;
use diagnostics::diagnostic::{Diagnostic, Source};
use diagnostics::listed::Listed;
use diagnostics::words;
use mark_checker::finding::Finding;
use mask_certificate::certificate::Cert;
use std::alloc::{AllocError, Global};
use task_descriptor::program::Program;

/// For how many findings, the first, an entry is sought: this bounds the time that it takes.
const MOST_TRIED: usize = 100;

/// The diagnostic for a certificate, read from this text, with which the checker has these findings, and with the least
/// one only `wanted`. Its place is the first mask that has a register for no reason, in the task of the first of the
/// findings, among 100, for which there is one; if there is none, the diagnostic has no place.
///
/// # Errors
///
/// `AllocError` where memory was refused.
pub fn unfit_error<'x>(
    alloc: Global,
    program: &'x Program,
    text: &[u8],
    cert: &'x Cert,
    least: &'x Cert,
    findings: &[Finding],
    wanted: usize,
) -> Result<Diagnostic, AllocError>
    ensures { IfOk result (IsErrorOf Certificate) }
{
    let compared = Compared {
        alloc,
        program,
        cert,
        least,
        digits: digits_in(text),
        lines: ProgramLines {
            rows: &[],
            code: &[],
        },
    };
    let says = if wanted == 0 {
        "the marks are right; a mask in this certificate is too large"
    } else {
        "a mask in this certificate is too large: check finds {found} errors with it, {least} with the least one"
    };
    let words = [
        ("found", words!(in alloc; "{}", findings.len())?),
        ("least", words!(in alloc; "{wanted}")?),
    ];
    let whole = span(1, 0, 0);
    let mut said = advice(says, ANEW).at(alloc, Source::Certificate, Code::Unfit, whole, &words)?;
    said.span = None;
    let mut tried = findings.iter().take(MOST_TRIED);
    let Some(finding) = tried.find(|finding| compared.idle_at(finding).is_some()) else {
        return Ok(said);
    };
    let index = compared.idle_at(finding).unwrap_or(0);
    said.span = Some(compared.mask_span(finding.task, index));
    said.notes = Listed::new(compared.larger_notes(finding, index)?);
    Ok(said)
}
