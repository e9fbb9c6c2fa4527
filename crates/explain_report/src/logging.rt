//! A SARIF log of what `explain` finds in several programs.
ghost use Rattle.std.specs.Prelude.{◌≡◌, ◌++◌, ◌∷◌, [], None, map as each, IfOk};
ghost use Rattle.std.specs.String.{string_bytes};
ghost use Rattle.explain_report.specs.Explained.{IsExplainReport};

use crate::explained::{Explanation, explained, final_status};
use crate::explaining::{alone, logged};
use crate::given::Given;
use diagnostic_log::sarif::{Logged, log_text};
use jobs::job::{Texts, Warnings};
use operand_forms::rows::lines_of;
use std::alloc::{AllocError, Global};

/// A program of a log, with its diagnostics.
#[derive(Debug, Drop)]
pub struct LoggedProgram {
    /// The name of its file.
    pub name: String,
    /// Its text.
    pub text: Vec<u8>,
    /// Its diagnostics.
    pub said: Explanation,
}

/// Adds a program text in a file of this name, with its diagnostics, and returns the status of `explain` on it, 0 or 1. No
/// certificate and no script is given with it.
///
/// # Errors
///
/// `AllocError` where memory was refused; what `programs` then has is not stated.
pub fn add_program(
    alloc: Global,
    programs: &mut Vec<LoggedProgram>,
    warnings: Warnings,
    name: &str,
    texts: &Texts,
) -> Result<u8, AllocError>
    ensures status { IfOk result (λ status. IsExplainReport None None warnings texts.now.program.items texts.now.certificate texts.now.script.items
        record { bytes = []; status = status }) }
    ensures names { IfOk result (λ status. each (λ p. string_bytes p.name) programs.new.items
        ≡ each (λ p. string_bytes p.name) programs.old.items ++ (name.now ∷ [])) }
    ensures texts { IfOk result (λ status. each (λ p. p.text.items) programs.new.items
        ≡ each (λ p. p.text.items) programs.old.items ++ (texts.now.program.items ∷ [])) }
{
    let none: Option<String> = None;
    let given = Given {
        name,
        cert_file: &none,
        script_file: &none,
        warnings,
        texts,
    };
    let said = explained(alloc, &given, &texts.program)?;
    let status = final_status(warnings, &said);
    programs.push(LoggedProgram {
        name: String::from_str(alloc, name)?,
        text: texts.program.to_vec(alloc)?,
        said,
    })?;
    Ok(status)
}

/// The SARIF log of some programs, where the program ends with this exit status.
///
/// # Errors
///
/// `AllocError` where memory was refused.
pub fn log_of(
    alloc: Global,
    programs: &[LoggedProgram],
    status: u8,
) -> Result<Vec<u8>, AllocError> {
    let mut rows = Vec::new(alloc);
    for program in programs {
        rows.push(lines_of(alloc, &program.text)?)?;
    }
    let list = logged_programs(alloc, programs, &rows)?;
    log_text(alloc, &list, status)
}

// Programs of a log, of whose texts these are the lines.
fn logged_programs<'a, 'b>(
    alloc: Global,
    programs: &'b [LoggedProgram],
    rows: &'b [Vec<&'a [u8]>],
) -> Result<Vec<Logged<'b>>, AllocError> {
    let mut list = Vec::new(alloc);
    for (program, rows) in programs.iter().zip(rows.iter()) {
        let files = alone(program.name.as_str(), rows.as_slice());
        list.push(logged(files, &program.said))?;
    }
    Ok(list)
}
