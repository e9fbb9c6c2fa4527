//! The job `explain`: the diagnostics rendered as text, as a log in SARIF, or as lines of JSON.
ghost use Rattle.std.specs.Prelude.{IfOk};
ghost use Rattle.std.specs.Option.{option_map};
ghost use Rattle.std.specs.String.{string_bytes};
ghost use Rattle.explain_report.specs.Explained.{IsExplainReport};

use crate::explained::{Explanation, explained, final_status};
use crate::given::{Given, file_lines, file_name, joined};
use diagnostic_log::json_lines::lines_text;
use diagnostic_log::sarif::{Logged, log_text};
use diagnostics::colour::Colour;
use diagnostics::diagnostic::{Diagnostic, Severity, Source};
use diagnostics::files::{Files, TextFile};
use diagnostics::text::text_of;
use jobs::job::{Colors, Format, Texts, Warnings};
use judged_fixes::judge::Marks;
use judged_fixes::proposal::has_fix;
use operand_forms::rows::lines_of;
use report_texts::report::JobReport;
use shown_names::shell::shell_word;
use std::alloc::{AllocError, Global};

/// The report of `explain`, in a format, on a program text, whose file has this name, and on the texts of a certificate
/// and of an event script, where a file of one is named. Text has colours only for `Colors::Always`: the caller, who knows
/// the terminal, settles `Colors::Auto` before.
///
/// # Errors
///
/// `AllocError` where memory was refused.
pub fn explain(
    alloc: Global,
    format: Format,
    name: &str,
    cert_file: &Option<String>,
    script_file: &Option<String>,
    warnings: Warnings,
    asked: Colors,
    texts: &Texts,
) -> Result<JobReport, AllocError>
    ensures { IfOk result (λ report. IsExplainReport (option_map string_bytes cert_file.now) (option_map string_bytes script_file.now) warnings
        texts.now.program.items texts.now.certificate texts.now.script.items report) }
{
    let given = Given {
        name,
        cert_file,
        script_file,
        warnings,
        texts,
    };
    let explained = explained(alloc, &given, &texts.program)?;
    let bytes = written(alloc, format, asked, &given, &texts.program, &explained)?;
    Ok(JobReport::new(bytes, final_status(warnings, &explained)))
}

/// What is said of a program text, in a format.
pub(crate) fn written(
    alloc: Global,
    format: Format,
    asked: Colors,
    given: &Given<'_>,
    text: &[u8],
    explained: &Explanation,
) -> Result<Vec<u8>, AllocError> {
    let certificate = joined(alloc, &given.texts.certificate)?;
    let rows = lines_of(alloc, text)?;
    let beside = file_lines(alloc, given.cert_file, &certificate)?;
    let events = file_lines(alloc, given.script_file, &given.texts.script)?;
    let files = Files {
        program: file(given.name, &rows),
        certificate: file(file_name(given.cert_file), &beside),
        script: file(file_name(given.script_file), &events),
    };
    match format {
        Format::Sarif => {
            let mut list = Vec::new(alloc);
            list.push(logged(files, explained))?;
            log_text(alloc, &list, final_status(given.warnings, explained))
        }
        Format::Json => lines_text(alloc, &files, explained.said.as_slice(), mends(explained)),
        Format::Text => text_for(alloc, asked, &files, explained),
    }
}

/// The files of a command that has the file of a program alone, with this name and these lines.
pub(crate) fn alone<'a>(name: &'a str, rows: &'a [&'a [u8]]) -> Files<'a> {
    Files {
        program: file(name, rows),
        certificate: file("", &[]),
        script: file("", &[]),
    }
}

/// A program of a log, with what is said of it.
pub(crate) fn logged<'a>(files: Files<'a>, explained: &'a Explanation) -> Logged<'a> {
    Logged {
        files,
        diagnostics: explained.said.as_slice(),
        mends: mends(explained),
    }
}

/// Whether this is an error of the program.
pub(crate) fn is_error(said: &Diagnostic) -> bool {
    said.source == Source::Program && said.severity == Severity::Error
}

// A file with this name and these lines.
fn file<'a>(name: &'a str, rows: &'a [&'a [u8]]) -> TextFile<'a> {
    TextFile { name, rows }
}

// What is said, for a person.
fn text_for(
    alloc: Global,
    asked: Colors,
    files: &Files<'_>,
    explained: &Explanation,
) -> Result<Vec<u8>, AllocError> {
    let said = explained.said.as_slice();
    let colour = match asked {
        Colors::Always => Colour::Always,
        Colors::Auto | Colors::Never => Colour::Never,
    };
    let mut text = text_of(alloc, files, said, colour)?;
    if explained.marks == Marks::Wrong {
        let name = shell_word(alloc, files.program.name)?;
        writeln!(
            text,
            "to look for a run that goes wrong: multiscalar demonstrate {name}"
        )?;
    }
    if mends(explained) {
        write_right(alloc, &mut text, said)?;
    }
    Ok(text.into_bytes())
}

// Whether what is told to write makes wrong marks right.
fn mends(explained: &Explanation) -> bool {
    match &explained.fixed {
        Some(fixed) => fixed.is_right && explained.marks == Marks::Wrong,
        None => false,
    }
}

// Adds that with the fixes that are told the marks are right; where not every error has one, with the fixes of which lines.
fn write_right(alloc: Global, text: &mut String, said: &[Diagnostic]) -> Result<(), AllocError> {
    let errors = said.iter().filter(|one| is_error(*one)).count();
    let mut lines: Vec<u32> = said
        .iter()
        .filter(|one| is_error(*one) && has_fix(*one))
        .map(|one| one.span.map_or(0, |span| span.line))
        .collect(alloc)?;
    let fixes = lines.len();
    lines.dedup();
    match fixes {
        1 if errors == 1 => writeln!(text, "with this fix the marks are right"),
        _ if errors == fixes => writeln!(text, "with these {fixes} fixes the marks are right"),
        _ => write_lines(text, &lines),
    }
}

// Adds that with the fixes of these lines the marks are right.
fn write_lines(text: &mut String, lines: &[u32]) -> Result<(), AllocError> {
    let last = lines.len().saturating_sub(1);
    write!(
        text,
        "with the fix{} of line{} ",
        if last == 0 { "" } else { "es" },
        if last == 0 { "" } else { "s" }
    )?;
    for (place, line) in lines.iter().enumerate() {
        let before = match place {
            0 => "",
            _ if place == last => " and ",
            _ => ", ",
        };
        write!(text, "{before}{line}")?;
    }
    writeln!(text, " the marks are right")
}
