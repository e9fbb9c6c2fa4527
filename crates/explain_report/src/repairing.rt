//! `explain --fix`: the author's text with the fixes that were judged, and what is left.
ghost use Rattle.std.specs.Prelude.{◌≡◌, IfOk};
ghost use Rattle.std.specs.Option.{option_map};
ghost use Rattle.std.specs.String.{string_bytes};
ghost use Rattle.explain_report.specs.Explained.{final_status};
ghost use Rattle.explain_report.specs.Repairs.{IsRepaired};

use crate::explained::{Explanation, explained, final_status};
use crate::explaining::{is_error, written};
use crate::given::Given;
use diagnostics::diagnostic::{Severity, Source};
use diagnostics::listed::Listed;
use jobs::job::{Colors, Format, Texts, Warnings};
use judged_fixes::judge::Marks;
use shown_names::name::shown_name;
use std::alloc::{AllocError, Global};

/// The result of `explain --fix`: a program's text with fixes, and the reports on it.
#[derive(Debug, Drop)]
pub struct Repaired {
    /// The report of `explain` on the text as it was.
    pub said: Vec<u8>,
    /// The text with the judged fixes; as it was where none were made.
    pub text: Listed<u8>,
    /// The verdict on its marks.
    pub marks: Marks,
    /// The exit status of `explain` on it.
    pub status: u8,
    /// The line for standard error: how many fixes were made, and what is left.
    pub line: Vec<u8>,
}

/// The result of `explain --fix` on a program text, whose file has this name, and on the texts of a certificate and of an
/// event script, where a file of one is named.
///
/// # Errors
///
/// `AllocError` where memory was refused.
pub fn repair(
    alloc: Global,
    name: &str,
    cert_file: &Option<String>,
    script_file: &Option<String>,
    warnings: Warnings,
    asked: Colors,
    texts: &Texts,
) -> Result<Repaired, AllocError>
    ensures { IfOk result (IsRepaired (option_map string_bytes cert_file.now) (option_map string_bytes script_file.now) warnings
        texts.now.program.items texts.now.certificate texts.now.script.items) }
{
    let given = Given {
        name,
        cert_file,
        script_file,
        warnings,
        texts,
    };
    let before = explained(alloc, &given, &texts.program)?;
    let said = written(alloc, Format::Text, asked, &given, &texts.program, &before)?;
    match &before.fixed {
        Some(fixed) => {
            let text = fixed.text.as_slice();
            let after = explained(alloc, &given, text)?;
            repaired_as(alloc, &given, text, said, fixed.fixes, &after)
        }
        None => repaired_as(alloc, &given, &texts.program, said, 0, &before),
    }
}

// What is written, where this is said of the text as it was, and then of the text with so many fixes.
fn repaired_as(
    alloc: Global,
    given: &Given<'_>,
    text: &[u8],
    said: Vec<u8>,
    fixes: usize,
    after: &Explanation,
) -> Result<Repaired, AllocError>
    ensures text { IfOk result (λ r. r.text ≡ text.now) }
    ensures marks { IfOk result (λ r. r.marks ≡ after.now.marks) }
    ensures status { IfOk result (λ r. r.status ≡ final_status given.now.warnings after.now) }
{
    let line = line_of(alloc, given.name, fixes, after)?;
    Ok(Repaired {
        said,
        text: Listed::new(text.to_vec(alloc)?),
        marks: after.marks,
        status: final_status(given.warnings, after),
        line,
    })
}

// How many fixes were made, and what is left of the text with them, of which this is said.
fn line_of(
    alloc: Global,
    name: &str,
    fixes: usize,
    after: &Explanation,
) -> Result<Vec<u8>, AllocError> {
    let name = shown_name(alloc, name)?;
    let mut line = String::new(alloc);
    match fixes {
        0 => write!(line, "multiscalar: {name}: no fix applied, ")?,
        1 => write!(line, "multiscalar: {name}: 1 fix applied, ")?,
        _ => write!(line, "multiscalar: {name}: {fixes} fixes applied, ")?,
    }
    let said = after.said.as_slice();
    let errors = said.iter().filter(|one| is_error(*one)).count();
    let is_more = said.iter().any(|one| one.source == Source::Program
        && one.severity == Severity::Note);
    match (after.marks, errors) {
        (Marks::Right, _) => writeln!(line, "all marks are right")?,
        (_, 1) => writeln!(line, "1 error left")?,
        _ if is_more => writeln!(line, "more than {errors} errors left")?,
        _ => writeln!(line, "{errors} errors left")?,
    }
    Ok(line.into_bytes())
}
