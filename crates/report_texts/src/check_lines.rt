//! The report of `check` as lines of JSON, which are made from the lines of its text.
ghost use Rattle.std.specs.Prelude.{◌≡◌, IfOk};

use crate::listing::line_numbers;
use crate::report::JobReport;
use json_text::{JsonText, Written};
use std::alloc::{AllocError, Global};

/// A text report of `check` on a program of this name and text as lines of JSON, with the same status: an object for each
/// finding, and then one for the verdict.
///
/// # Errors
///
/// `AllocError` where memory was refused.
pub fn check_lines(
    alloc: Global,
    name: &str,
    program: &[u8],
    report: &JobReport,
) -> Result<JobReport, AllocError>
    ensures { IfOk result (λ lines. lines.status ≡ report.now.status) }
{
    let lines = line_numbers(alloc, program)?;
    let text = str::from_utf8(report.bytes()).unwrap_or("");
    let mut bytes = Vec::new(alloc);
    for row in text.split('\n') {
        if !row.is_empty() {
            let object = object_of(alloc, name, &lines, row)?;
            bytes.extend_from_slice(object.as_slice())?;
        }
    }
    Ok(JobReport::new(bytes, report.status()))
}

// The object for a line of the text. Of a finding these are its lines in the program.
fn object_of(alloc: Global, name: &str, lines: &[u32], row: &str) -> Result<Vec<u8>, AllocError> {
    let words: Vec<&str> = row.split(' ').collect(alloc)?;
    let mut out = JsonText::new(alloc);
    out.begin()?;
    out.number("version", 1)?;
    match words.as_slice() {
        [task, index, kind, rule, register] if *kind == "rule" => {
            begin(&mut out, "finding", name)?;
            out.text("task", *task)?;
            write_number(&mut out, "index", Some(*index))?;
            match line_at(lines, *index) {
                Some(line) => out.number("line", line as usize)?,
                None => out.null("line")?,
            }
            write_number(&mut out, "rule", Some(*rule))?;
            write_number(&mut out, "register", register.strip_prefix('$'))?;
        }
        [verdict, tasks, _, instructions, _] if *verdict == "accepted" => {
            begin(&mut out, "verdict", name)?;
            out.text("verdict", *verdict)?;
            write_number(&mut out, "tasks", Some(*tasks))?;
            write_number(&mut out, "instructions", Some(*instructions))?;
        }
        [verdict, count] => {
            begin(&mut out, "verdict", name)?;
            out.text("verdict", *verdict)?;
            write_number(&mut out, "findings", Some(*count))?;
        }
        _ => {
            begin(&mut out, "verdict", name)?;
            write_refusal(&mut out, row)?;
        }
    }
    out.end()?;
    out.into_line()
}

// The line of the instruction of this index.
fn line_at(lines: &[u32], index: &str) -> Option<u32> {
    match index.parse::<usize>() {
        Ok(index) => lines.get(index).copied(),
        Err(_) => None,
    }
}

// Adds what an object is, and the program's name.
fn begin(out: &mut JsonText, kind: &str, name: &str) -> Written {
    out.text("kind", kind)?;
    out.text("program", name)
}

// Adds a number, or that there is none.
fn write_number(out: &mut JsonText, key: &str, digits: Option<&str>) -> Written {
    match digits.unwrap_or("").parse::<usize>() {
        Ok(number) => out.number(key, number),
        Err(_) => out.null(key),
    }
}

// Adds which text is refused, the fault's number and name, and its line, if it has one.
fn write_refusal(out: &mut JsonText, row: &str) -> Written {
    let Some((refused, said)) = row.split_once(" refused: ") else {
        return Ok(());
    };
    let Some((number, fault)) = said.split_once(' ') else {
        return Ok(());
    };
    let (verdict, before) = match refused {
        "program" => ("program refused", " line "),
        _ => ("certificate refused", " "),
    };
    let (fault, line) = match fault.split_once(before) {
        Some((fault, line)) => (fault, Some(line)),
        None => (fault, None),
    };
    out.text("verdict", verdict)?;
    write_number(out, "number", Some(number))?;
    out.text("fault", fault)?;
    write_number(out, "line", line)
}
