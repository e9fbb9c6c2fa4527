//! A log in the format SARIF 2.1.0 as a text.

use crate::artifact::{STANDARD_INPUT, read_standard_input, write_artifact};
use crate::columns::Columns;
use crate::results::Results;
use crate::rules::{rule_level, rule_section, rule_short};
use diagnostics::code::Code;
use diagnostics::diagnostic::{Diagnostic, Severity, Source};
use diagnostics::files::Files;
use json_text::{JsonText, Written};
use std::alloc::{AllocError, Global};

/// A program of a log, with what is reported about it.
#[derive(Clone, Copy)]
pub struct Logged<'a> {
    /// Its text files.
    pub files: Files<'a>,
    /// The diagnostics about them, in order.
    pub diagnostics: &'a [Diagnostic],
    /// Whether all that the helps propose to write makes its marks right.
    pub mends: bool,
}

/// Adds the rules of some diagnostics, each once.
fn add_rules(rules: &mut Vec<Code>, diagnostics: &[Diagnostic]) -> Written {
    for said in diagnostics {
        if !rules.iter().any(|rule| *rule == said.code) {
            rules.push(said.code)?;
        }
    }
    Ok(())
}

/// Adds a rule, and where it is explained.
fn write_rule(alloc: Global, out: &mut JsonText, code: Code) -> Written {
    let section = rule_section(code);
    let name = format!(in alloc; "{code:?}")?;
    let help = format!(in alloc; "docs/{section} explains it")?;
    out.begin()?;
    out.text("id", code.id())?;
    out.text("name", name.as_str())?;
    out.message("shortDescription", rule_short(code))?;
    out.message("help", help.as_str())?;
    out.object("defaultConfiguration")?;
    out.text("level", rule_level(code))?;
    out.end()?;
    out.end()
}

/// Adds the tool, with its rules.
fn write_tool(alloc: Global, out: &mut JsonText, rules: &[Code]) -> Written {
    out.object("tool")?;
    out.object("driver")?;
    out.text("name", "multiscalar")?;
    out.text("version", "0.1.0")?;
    out.list("rules")?;
    for rule in rules {
        write_rule(alloc, out, *rule)?;
    }
    out.end_list()?;
    out.end()?;
    out.end()
}

/// Adds the one run of the tool: its exit code, and standard input, if it is read.
fn write_invocation(alloc: Global, out: &mut JsonText, status: u8, reads_input: bool) -> Written {
    out.list("invocations")?;
    out.begin()?;
    out.boolean("executionSuccessful", status < 2)?;
    out.number("exitCode", status as usize)?;
    if reads_input {
        out.key("stdin")?;
        write_artifact(alloc, out, STANDARD_INPUT)?;
    }
    out.end()?;
    out.end_list()
}

/// Adds what relative URIs are relative to, and the texts that have no URI: standard input, if it is read.
fn write_places(out: &mut JsonText, reads_input: bool) -> Written {
    out.object("originalUriBaseIds")?;
    out.object("PWD")?;
    out.message("description", "The folder in which the program was run")?;
    out.end()?;
    out.end()?;
    out.list("artifacts")?;
    if reads_input {
        out.begin()?;
        out.message("description", "Standard input")?;
        out.end()?;
    }
    out.end_list()?;
    out.text("columnKind", "unicodeCodePoints")
}

/// Whether two diagnostics have the same text, rule and sentence.
fn is_alike(said: &Diagnostic, other: &Diagnostic) -> bool {
    said.source == other.source
        && said.code == other.code
        && said.message.as_str() == other.message.as_str()
}

/// Adds a result for each diagnostic of a program, with its number among those that have its text, its rule and its
/// sentence.
fn write_results(
    alloc: Global,
    out: &mut JsonText,
    program: &Logged<'_>,
    rules: &[Code],
) -> Written {
    let mut results = Results {
        alloc,
        out,
        files: &program.files,
        rules,
        columns: Columns::new(alloc),
        source: Source::Program,
    };
    for (index, said) in program.diagnostics.iter().enumerate() {
        let before = program.diagnostics.iter().take(index);
        let alike = before.filter(|other| is_alike(other, said));
        results.add(said, alike.count().saturating_add(1))?;
    }
    Ok(())
}

/// Whether all that helps say to write makes the marks of all programs right.
fn are_mended(programs: &[Logged<'_>]) -> bool {
    let is_right = |said: &Diagnostic| said.severity != Severity::Error;
    programs.iter().any(|one| one.mends)
        && programs
            .iter()
            .all(|one| one.mends || one.diagnostics.iter().all(is_right))
}

/// The text of a SARIF log of what is reported about these programs, with this exit status: one line of JSON, with one run.
///
/// # Errors
///
/// `AllocError` where memory was refused.
pub fn log_text(alloc: Global, programs: &[Logged<'_>], status: u8) -> Result<Vec<u8>, AllocError> {
    let mut rules = Vec::new(alloc);
    for program in programs {
        add_rules(&mut rules, program.diagnostics)?;
    }
    let reads_input = programs
        .iter()
        .any(|program| read_standard_input(&program.files));
    let mut out = JsonText::new(alloc);
    out.begin()?;
    out.text("$schema", "https://json.schemastore.org/sarif-2.1.0.json")?;
    out.text("version", "2.1.0")?;
    out.list("runs")?;
    out.begin()?;
    write_tool(alloc, &mut out, &rules)?;
    write_invocation(alloc, &mut out, status, reads_input)?;
    write_places(&mut out, reads_input)?;
    out.list("results")?;
    for program in programs {
        write_results(alloc, &mut out, program, &rules)?;
    }
    out.end_list()?;
    if are_mended(programs) {
        out.object("properties")?;
        out.boolean("fixesMakeMarksRight", true)?;
        out.end()?;
    }
    out.end()?;
    out.end_list()?;
    out.end()?;
    out.into_line()
}
