//! What is left to mend by hand in what `annotate` proposes.
ghost use Rattle.std.specs.Prelude.{◌≡◌, Ok, IfOk};
ghost use Rattle.annotated_asm.specs.ProgramText.{parse};
ghost use Rattle.explain_report.specs.LeftOvers.{IsFindingCount, IsLeftOf, IsLeftOver};

use crate::explaining::alone;
use crate::order::in_order;
use annotated_asm::assembler::assemble;
use annotated_asm::fault::AsmFault;
use annotator::certify::certify;
use diagnostics::colour::Colour;
use diagnostics::diagnostic::Diagnostic;
use diagnostics::text::text_of;
use jobs::job::{Emit, Job};
use mark_checker::check::verdict;
use mark_diagnostics::error::mark_errors;
use operand_forms::rows::lines_of;
use report_texts::annotating::annotate;
use shown_names::name::shown_name;
use std::alloc::{AllocError, Global};
use task_descriptor::program::Program;

/// What is left to mend by hand in a text.
#[derive(Debug, Drop)]
pub struct LeftOver {
    /// The text for standard error: the report of `explain`, and a line that says how much is left.
    pub said: Vec<u8>,
    /// How many findings are left; 0 where all marks are right.
    pub count: usize,
}

/// What is left to mend by hand in the text that `annotate` proposes for a program text in a file of this name. `written`
/// and `status` are the job's report; where that is a certificate, the text is the one that `annotate --emit marks`
/// writes. `None` exactly where the job is no `annotate`, or what it proposes is a refusal or no program.
///
/// # Errors
///
/// `AllocError` where memory was refused.
pub fn left_over(
    alloc: Global,
    job: &Job,
    program: &[u8],
    name: &str,
    status: u8,
    written: &[u8],
) -> Result<Option<LeftOver>, AllocError>
    ensures { IfOk result (λ left. IsLeftOver job.now program.now name.now
        record { bytes = written.now; status = status } left) }
{
    match job {
        Job::Annotate {
            emit: Emit::Text | Emit::Marks,
        } => left_of(alloc, name, status, written),
        Job::Annotate {
            emit: Emit::Cert | Emit::Keep,
        } => {
            let marked = annotate(alloc, Emit::Marks, program)?;
            left_of(alloc, name, marked.status(), marked.bytes())
        }
        _ => Ok(None),
    }
}

// What is left in a text with a status; nothing is in a refusal.
fn left_of(
    alloc: Global,
    name: &str,
    status: u8,
    text: &[u8],
) -> Result<Option<LeftOver>, AllocError>
    ensures { IfOk result (IsLeftOf record { bytes = text.now; status = status }) }
{
    if status != 0 {
        return Ok(None);
    }
    match assemble(alloc, text) {
        Ok(program) => Ok(Some(left_in(alloc, name, text, &program)?)),
        Err(AsmFault::OutOfMemory) => Err(AllocError),
        Err(_) => Ok(None),
    }
}

// What is left in a text that spells a program.
fn left_in(
    alloc: Global,
    name: &str,
    text: &[u8],
    program: &Program,
) -> Result<LeftOver, AllocError>
    requires { parse text.now ≡ Ok program.now }
    ensures { IfOk result (λ left. IsFindingCount program.now left.count) }
{
    let least = certify(alloc, program)?;
    let errors = in_order(alloc, mark_errors(alloc, text, program, &least)?)?;
    let count = verdict(alloc, program, &least)?.findings.as_slice().len();
    let said = said_of(alloc, name, text, &errors, count)?;
    Ok(LeftOver { said, count })
}

// What `explain` says of a text, and a line that says how much is left.
fn said_of(
    alloc: Global,
    name: &str,
    text: &[u8],
    errors: &[Diagnostic],
    count: usize,
) -> Result<Vec<u8>, AllocError> {
    let rows = lines_of(alloc, text)?;
    let mut said = text_of(alloc, &alone(name, &rows), errors, Colour::Never)?;
    let name = shown_name(alloc, name)?;
    match count {
        0 => writeln!(said, "multiscalar: {name}: all marks are right")?,
        _ => writeln!(said, "multiscalar: {name}: {count} left to fix by hand")?,
    }
    Ok(said.into_bytes())
}
