//! The warning that proposes a release.

ghost use Rattle.std.specs.Prelude.{◌≡◌, IfOk};
ghost use Rattle.diagnostics.specs.declared.code.Code.TheVariants as code;
ghost use Rattle.diagnostics.specs.declared.diagnostic.Severity.TheVariants as severity;
ghost use Rattle.diagnostics.specs.declared.diagnostic.Source.TheVariants as source;

use crate::trial::{TRIAL_UNITS, Trial};
use crate::waited::Waited;
use diagnostics::code::Code;
use diagnostics::diagnostic::{Diagnostic, Help, Note, Severity, Source, Span};
use diagnostics::helps::by_text;
use diagnostics::listed::Listed;
use diagnostics::words;
use diagnostics::words::Words;
use machine_model::event::Spot;
use mark_subjects::mark_place::line_in;
use mark_subjects::parts::{registers_where, registers_words};
use mark_subjects::subject::{Made, Subject, has_number};
use mips_instructions::number::RegSet;
use unit_waits::waiting::Reason;

// As many blanks as are before an instruction in its line.
fn blanks_before(subject: &Subject, span: Span) -> Made<Words> {
    let mut text = String::new(subject.alloc());
    let line = line_in(subject.rows(), span.line);
    for byte in line.iter().take(span.column.saturating_sub(1)) {
        text.push(if *byte == b'\t' { '\t' } else { ' ' })?;
    }
    Ok(Words::new(text))
}

// The registers of a set as the text writes them.
fn set_words(subject: &Subject, set: RegSet) -> Made<Words> {
    let list = registers_where(subject.alloc(), |number| has_number(set, number))?;
    registers_words(subject, &list)
}

// The help that writes a release where all ways come, behind the label; or where only the way from above comes, before it.
fn help(subject: &Subject, waited: &Waited, registers: &Words) -> Made<Help> {
    let alloc = subject.alloc();
    let here = subject.span(waited.due.index);
    let above = subject.span(waited.due.index.saturating_sub(1));
    if waited.due.is_jumped_to {
        let blanks = blanks_before(subject, here)?;
        let message = words!(in alloc; "write release {registers} before this instruction")?;
        let text = words!(in alloc; "release {registers}\n{blanks}")?;
        by_text(alloc, message, Span { width: 0, ..here }, text)
    } else {
        let (line, blanks) = (above.line, blanks_before(subject, above)?);
        let message =
            words!(in alloc; "write release {registers} on a new line after line {line}")?;
        let text = words!(in alloc; "{blanks}release {registers}\n")?;
        let place = Span {
            line: line.saturating_add(1),
            column: 1,
            width: 0,
        };
        by_text(alloc, message, place, text)
    }
}

/// The warning that proposes a release at a place.
///
/// # Errors
///
/// `AllocError` where memory was refused.
pub(crate) fn proposed(subject: &Subject, waited: &Waited) -> Made<Diagnostic>
    ensures severity { IfOk result (λ d. d.severity ≡ severity.Warning) }
    ensures source { IfOk result (λ d. d.source ≡ source.Program) }
    ensures code { IfOk result (λ d. d.code ≡ code.NotForwarded) }
{
    let alloc = subject.alloc();
    let registers = set_words(subject, waited.due.registers)?;
    let help = help(subject, waited, &registers)?;
    let task = subject.task(waited.task);
    let is_one = waited.due.registers.bits().is_power_of_two();
    let them = if is_one { "it" } else { "them" };
    let message =
        words!(in alloc; "from here on task {task} writes {registers} no more, and sends {them} only where it ends")?;
    Ok(Diagnostic {
        severity: Severity::Warning,
        code: Code::NotForwarded,
        source: Source::Program,
        span: Some(subject.span(waited.due.index)),
        message,
        notes: Listed::new(Vec::new(alloc)),
        help: Some(help),
    })
}

// The register that is waited for.
fn awaited(reason: Reason) -> RegSet {
    match reason {
        Reason::NeedsRegister(register, _) | Reason::HasToPass(register, _) => {
            RegSet::empty().insert(register)
        }
        _ => RegSet::empty(),
    }
}

/// What is told of a release that pays: who waits how long without it, and how many steps a run takes without and with it.
///
/// # Errors
///
/// `AllocError` where memory was refused.
pub(crate) fn gain(
    subject: &Subject,
    waited: &Waited,
    before: &Trial,
    after: &Trial,
) -> Made<Listed<Note>> {
    let alloc = subject.alloc();
    let (first, waits) = (waited.waits.first, waited.waits.waits);
    let (span, place) = match first.place {
        Spot::Inside(index) => (subject.span(index), "here"),
        Spot::Stopped(_) => (subject.task_span(first.task), "at its end"),
    };
    let register = set_words(subject, awaited(first.reason))?;
    let task = subject.task(first.task);
    let (steps, fewer) = (before.steps, after.steps);
    let message =
        words!(in alloc; "{place} task {task} waits {waits} steps for {register}; a run on {TRIAL_UNITS} units takes {steps} steps, with the release {fewer}")?;
    let mut notes = Vec::new(alloc);
    notes.push(Note {
        span: Some(span),
        message,
        path: Listed::new(Vec::new(alloc)),
    })?;
    Ok(Listed::new(notes))
}
