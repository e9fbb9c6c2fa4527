//! The diagnostics of `explain`, from which each form of its report is made.
ghost use Rattle.std.specs.Prelude.{◌≡◌, ◌≢◌, ◌↔◌, ◌&&◌, ◌++◌, [], Ok, IfOk};
ghost use Rattle.annotated_asm.specs.ProgramText.{parse};
ghost use Rattle.annotator.specs.Least.{IsLeast};
ghost use Rattle.input_diagnostics.specs.MistakenTexts.{mistaken_kind};
ghost use Rattle.judged_fixes.specs.declared.judge.Marks.TheVariants.{Right, Unread};
ghost use Rattle.explain_report.specs.Explained.{AreWarned, IsExplained, IsProgramExplained, IsRefusedBy, IsRefusedSaid, are_told, asked_by, final_status, is_silent, said_status};

use crate::beside::{both, certificate_said, is_silent, script_said};
use crate::given::Given;
use crate::order::in_order;
use annotated_asm::assembler::assemble;
use annotated_asm::fault::AsmFault;
use annotator::certify::certify;
use diagnostics::diagnostic::Diagnostic;
use diagnostics::listed::Listed;
use input_diagnostics::mistaken::{mistaken_error, mistaken_kind};
use jobs::job::Warnings;
use judged_fixes::fixed::Fixed;
use judged_fixes::judge::Marks;
use judged_fixes::judged::judge_fixes;
use judged_fixes::proposal::proposal;
use judged_fixes::refused::judge_refusal;
use mark_diagnostics::error::mark_errors;
use mark_diagnostics::warning::mark_warnings;
use mask_certificate::certificate::Cert;
use release_proposals::warning::release_warnings;
use std::alloc::{AllocError, Global};
use task_descriptor::program::Program;
use text_diagnostics::refusal::refusal;

/// The result of `explain` on its texts, before it is rendered.
#[derive(Debug, Drop)]
pub struct Explanation {
    /// The diagnostics, in the order in which they are reported.
    pub said: Listed<Diagnostic>,
    /// The verdict on the marks of the program text. Where they are wrong, a run may show their harm.
    pub marks: Marks,
    /// The exit status: 1 where something is wrong, else 0.
    pub status: u8,
    /// The text with the judged fixes; of a refused text, with the fix of its first fault. `None` where none were made.
    pub fixed: Option<Fixed>,
}

/// The diagnostics for a program text, and for what is given beside it.
///
/// # Errors
///
/// `AllocError` where memory was refused.
pub fn explained(alloc: Global, given: &Given<'_>, text: &[u8]) -> Result<Explanation, AllocError>
    ensures { IfOk result (IsExplained (asked_by given.now text.now)) }
{
    match assemble(alloc, text) {
        Ok(program) => program_explained(alloc, given, text, &program),
        Err(AsmFault::OutOfMemory) => Err(AllocError),
        Err(fault) => refusal_explained(alloc, text, fault),
    }
}

/// The status where this is said: a warning may count as an error.
pub(crate) fn final_status(warnings: Warnings, explained: &Explanation) -> u8
    ensures { result ≡ final_status warnings explained.now }
{
    match warnings {
        Warnings::AsErrors => status_alone(explained.said.as_slice()),
        Warnings::Silent | Warnings::Told => explained.status,
    }
}

// What is wrong with a text that spells no program: only what it is, if it begins as a certificate or a script of events does.
fn refused_said(alloc: Global, text: &[u8], fault: AsmFault) -> Result<Vec<Diagnostic>, AllocError>
    ensures { IfOk result (λ list. IsRefusedBy (mistaken_kind text.now) text.now fault list.items) }
{
    match mistaken_kind(text) {
        Some(kind) => {
            let said = mistaken_error(alloc, kind, text)?;
            let mut list = Vec::new(alloc);
            list.push(said)?;
            Ok(list)
        }
        None => refusal(alloc, text, fault),
    }
}

// The diagnostics for a text that spells no program.
fn refusal_explained(alloc: Global, text: &[u8], fault: AsmFault) -> Result<Explanation, AllocError>
    ensures { IfOk result (IsRefusedSaid text.now fault) }
{
    let errors = refused_said(alloc, text, fault)?;
    let judged = judge_refusal(alloc, text, fault, errors)?;
    let said = in_order(alloc, judged.errors)?;
    Ok(Explanation {
        said: Listed::new(said),
        marks: Marks::Unread,
        status: 1,
        fixed: judged.fixed,
    })
}

// The diagnostics for the program that the text spells: for its marks, the certificate, and the script.
fn program_explained(
    alloc: Global,
    given: &Given<'_>,
    text: &[u8],
    program: &Program,
) -> Result<Explanation, AllocError>
    requires { parse text.now ≡ Ok program.now }
    ensures { IfOk result (IsProgramExplained (asked_by given.now text.now) program.now) }
{
    let least = certify(alloc, program)?;
    let errors = mark_errors(alloc, text, program, &least)?;
    let asked = is_asked(given.warnings, &errors);
    let warned = warned(alloc, text, program, &least, asked)?;
    let certified = certificate_said(alloc, given, text, program, &least)?;
    let scripted = script_said(alloc, given, text, program)?;
    let beside = both(certified, scripted)?;
    let status = status_of(&errors, &beside);
    let marks = marks_by(errors.as_slice());
    let all = proposal(alloc, text, &errors, None)?;
    let judged = judge_fixes(alloc, text, program, &least, errors, &all)?;
    let all = both(judged.errors, both(warned, beside)?)?;
    let said = in_order(alloc, all)?;
    Ok(Explanation {
        said: Listed::new(said),
        marks,
        status,
        fixed: judged.fixed,
    })
}

// Whether warnings are to be reported: they are asked for, and nothing is wrong with the marks.
fn is_asked(warnings: Warnings, errors: &[Diagnostic]) -> bool
    ensures { result ≡ (are_told warnings && is_silent errors.now) }
{
    match warnings {
        Warnings::Silent => false,
        Warnings::Told | Warnings::AsErrors => is_silent(errors),
    }
}

// What could be better about the marks, and the releases that may be forgotten, where that is asked for.
fn warned(
    alloc: Global,
    text: &[u8],
    program: &Program,
    least: &Cert,
    asked: bool,
) -> Result<Vec<Diagnostic>, AllocError>
    requires spelled { parse text.now ≡ Ok program.now }
    requires least { IsLeast program.now least.now }
    ensures { IfOk result (λ list. AreWarned asked text.now program.now list.items) }
{
    if asked {
        let marks = mark_warnings(alloc, text, program, least)?;
        let releases = release_warnings(alloc, text, program, least)?;
        let list = both(marks, releases)?;
        Ok(list)
    } else {
        Ok(Vec::new(alloc))
    }
}

// What a program's marks are of which this is wrong.
fn marks_by(errors: &[Diagnostic]) -> Marks
    ensures right { (result ≡ Right) ↔ (errors.now ≡ []) }
    ensures read { result ≢ Unread }
{
    if is_silent(errors) {
        Marks::Right
    } else {
        Marks::Wrong
    }
}

// The status of what is wrong with the marks and with the texts beside the program: 0 where it is nothing.
fn status_of(errors: &[Diagnostic], beside: &[Diagnostic]) -> u8
    ensures { result ≡ said_status (errors.now ++ beside.now) }
{
    match errors {
        [] => status_alone(beside),
        [_, ..] => 1,
    }
}

// The status of what is wrong: 0 where it is nothing.
fn status_alone(list: &[Diagnostic]) -> u8
    ensures { result ≡ said_status list.now }
{
    match list {
        [] => 0,
        _ => 1,
    }
}
