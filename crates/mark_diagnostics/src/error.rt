//! The errors in a program's marks, as diagnostics.

ghost use Rattle.std.specs.Prelude.{◌≡◌, [], map as each, slice_get, Ok, IfOk};
ghost use Rattle.std.specs.List.{All, AllZip};
ghost use Rattle.annotated_asm.specs.ProgramText.{parse};
ghost use Rattle.annotator.specs.Least.{IsLeast};
ghost use Rattle.finding_paths.specs.Shown.{IsFinding, IsShown};
ghost use Rattle.mark_subjects.specs.Parts.{paths};
ghost use Rattle.mark_diagnostics.specs.Errors.{code_of, span_by, first_path, paths_by, short_step, paths_told, IsError, Says, AreMarkErrors};

use crate::mask::{mask_help, mask_notes, missing};
use crate::sending::{early_help, early_notes};
use crate::told::{about, first_told, is_first, register_in};
use annotated_asm::laws::map_fits;
use annotator::laws::least_decides;
use diagnostics::code::Code;
use diagnostics::diagnostic::{Diagnostic, Help, Note, Severity, Source, Span};
use diagnostics::listed::Listed;
use diagnostics::more::add_more;
use diagnostics::words;
use diagnostics::words::Words;
use exit_diagnostics::advice::Names;
use exit_diagnostics::call::return_help;
use exit_diagnostics::exit::{
    add_place_note, beyond, beyond_help, exit_help, exit_message, exit_notes, target_help,
    wrong_number, wrong_target,
};
use exit_diagnostics::meant::halt_or;
use finding_paths::shown::{ShownFinding, path_of};
use mark_checker::accept::accepts;
use mark_checker::finding::{Finding, Rule};
use mark_checker::survey::{Survey, Surveyed};
use mark_subjects::parts::{first_of, place_words, registers_words, way_notes};
use mark_subjects::step::{end_help, first_entered, is_end_first, path_in, stop_note, stop_or};
use mark_subjects::subject::{Made, Subject};
use mask_certificate::certificate::Cert;
use std::alloc::{AllocError, Global};
use task_descriptor::program::Program;

/// The most errors, and the most warnings, about the marks of a program that are shown; of the rest only the number is.
pub const MOST_SHOWN: usize = 1_000;

/// The code of a rule.
fn code_of(rule: Rule) -> Code
    ensures { result ≡ code_of rule }
{
    match rule {
        Rule::EntryWithoutMask => Code::EntryWithoutMask,
        Rule::NextWithoutMask => Code::NextWithoutMask,
        Rule::LacksDestination => Code::LacksDestination,
        Rule::LacksNext => Code::LacksNext,
        Rule::ExceedsCreate => Code::ExceedsCreate,
        Rule::ForwardedInNext => Code::ForwardedInNext,
        Rule::ReleasedInNext => Code::ReleasedInNext,
        Rule::SentNotCreated => Code::SentNotCreated,
        Rule::ExitNotListed => Code::ExitNotListed,
        Rule::FallsOff => Code::FallsOff,
        Rule::IndirectGoesOn => Code::IndirectGoesOn,
        Rule::TargetNotEntry => Code::TargetNotEntry,
    }
}

/// What is meant: where the remedy is, or the mark.
fn span_of(subject: &Subject, finding: &Finding) -> Span
    ensures { result ≡ span_by finding.now.rule subject.now finding.now }
{
    let task = finding.task;
    match finding.rule {
        Rule::ExceedsCreate | Rule::SentNotCreated => subject.create_span(task),
        Rule::TargetNotEntry => subject.target_span(task, wrong_number(subject, task)),
        _ => subject.span(finding.index),
    }
}

/// What is wrong.
fn message(subject: &Subject, finding: &Finding, about: &[Finding]) -> Made<Words> {
    let mut names = Names::of_task(subject, finding.task)?;
    names.add("register", subject.register(register_in(finding.reg)))?;
    let template = match finding.rule {
        Rule::ForwardedInNext => "task {task} forwards {register} here and may write it again",
        Rule::ReleasedInNext => "task {task} releases {register} here and may write it again",
        Rule::ExitNotListed => return exit_message(subject, finding),
        Rule::FallsOff => {
            let place = beyond(subject, finding.index);
            names.add("place", place_words(subject, place)?)?;
            "task {task} can continue from here to {place}, where there is no instruction"
        }
        Rule::IndirectGoesOn => "this jump to an address in a register has to end task {task}",
        Rule::TargetNotEntry => {
            let target = wrong_target(subject, finding.task);
            match subject.label(target) {
                Some(label) => names.add("place", label)?,
                None => names.add("place", words!(in subject.alloc(); "@{target}")?)?,
            }
            "task {task} lists the target {place}, where no task begins"
        }
        _ => {
            let missing = missing(subject.alloc(), about)?;
            names.add("registers", registers_words(subject, &missing)?)?;
            "the create mask of task {task} lacks {registers}"
        }
    };
    names.filled(template)
}

/// The note on the target where no task begins.
#[tactic(auto, using(mark_subjects::proofs::Paths::none_yet))]
fn target_notes(subject: &Subject, task: u32) -> Made<Vec<Note>>
    ensures { IfOk result (λ notes. paths notes.items ≡ []) }
{
    let mut notes = Vec::new(subject.alloc());
    add_place_note(subject, &mut notes, wrong_target(subject, task))?;
    Ok(notes)
}

/// What shows it.
fn notes_of(
    subject: &Subject,
    finding: &Finding,
    path: &[u32],
    about: &[Finding],
    shown: &[ShownFinding],
) -> Made<Vec<Note>>
    ensures { IfOk result (λ notes. paths notes.items ≡ paths_by finding.now.rule subject.now finding.now path.now shown.now) }
{
    match finding.rule {
        Rule::ForwardedInNext | Rule::ReleasedInNext => early_notes(subject, finding, path),
        Rule::ExitNotListed => exit_notes(subject, finding, path),
        Rule::FallsOff | Rule::IndirectGoesOn => way_notes(subject, finding.index, path),
        Rule::TargetNotEntry => target_notes(subject, finding.task),
        _ => mask_notes(subject, about, shown),
    }
}

/// What to do about it.
fn help(subject: &Subject, finding: &Finding, path: &[u32], about: &[Finding]) -> Made<Help> {
    match finding.rule {
        Rule::ForwardedInNext | Rule::ReleasedInNext => early_help(subject, finding, path),
        Rule::ExitNotListed => exit_help(subject, finding),
        Rule::FallsOff => beyond_help(subject, finding.index),
        Rule::IndirectGoesOn => return_help(subject, finding.task, finding.index, path),
        Rule::TargetNotEntry => target_help(subject, finding.task),
        _ => mask_help(subject, finding.task, about),
    }
}

/// The path that shows the first of some findings; empty where there is none.
fn first_path(shown: &[ShownFinding]) -> &[u32]
    ensures { result.now ≡ first_path (slice_get shown.now 0) }
{
    match shown.get(0) {
        Some(first) => path_in(first),
        None => &[],
    }
}

/// A step into a task on the path of a finding, if there is one, a stop there is the first thing to do, and another finding of
/// the task is told before this one.
#[tactic(auto, unfolding(crate::specs::Errors::ends_first, crate::specs::Errors::short_step))]
fn short_step(
    subject: &Subject,
    survey: &Survey<'_>,
    finding: &Finding,
    step: Option<(u32, u32)>,
) -> Made<Option<(u32, u32)>>
    requires { survey.now ≡ subject.now.program }
    ensures { IfOk result (λ found. found ≡ short_step subject.now finding.now step) }
{
    let Some(first) = step else {
        return Ok(None);
    };
    if !is_end_first(subject, finding.task, first) {
        return Ok(None);
    }
    if is_first(subject, survey, finding)? {
        Ok(None)
    } else {
        Ok(step)
    }
}

/// What shows a finding, first a stop that may be forgotten on its path; nothing where it is told in short, with this step of
/// its path.
#[tactic(auto, using(mark_subjects::proofs::Paths::none_yet, mark_subjects::proofs::Paths::none_before))]
fn told_notes(
    subject: &Subject,
    finding: &Finding,
    about: &[Finding],
    shown: &[ShownFinding],
    short: Option<(u32, u32)>,
) -> Made<Vec<Note>>
    ensures { IfOk result (λ notes. paths notes.items ≡ paths_told subject.now finding.now shown.now short) }
{
    if let Some(_) = short {
        return Ok(Vec::new(subject.alloc()));
    }
    let mut notes = stop_note(subject, finding.task, first_entered(subject, shown))?;
    let mut more = notes_of(subject, finding, first_path(shown), about, shown)?;
    notes.append(&mut more)?;
    Ok(notes)
}

/// What to do about a finding; where it is told in short, to put a stop on this step of its path. Before all a halt may be
/// forgotten there.
fn told_help(
    subject: &Subject,
    finding: &Finding,
    about: &[Finding],
    shown: &[ShownFinding],
    short: Option<(u32, u32)>,
) -> Made<Help> {
    let task = finding.task;
    let path = first_path(shown);
    let help = if let Some((index, into)) = short {
        end_help(subject, task, index, into)?
    } else {
        let help = help(subject, finding, path, about)?;
        stop_or(subject, task, first_entered(subject, shown), help)?
    };
    halt_or(subject, task, path, help)
}

/// What is said of a finding, with what is told with it.
fn error_diagnostic(
    subject: &Subject,
    survey: &Survey<'_>,
    finding: &Finding,
    about: &[Finding],
    shown: &[ShownFinding],
) -> Made<Diagnostic>
    requires { survey.now ≡ subject.now.program }
    ensures { IfOk result (λ said. IsError subject.now finding.now shown.now said) }
{
    let message = message(subject, finding, about)?;
    let short = short_step(subject, survey, finding, first_entered(subject, shown))?;
    let notes = told_notes(subject, finding, about, shown, short)?;
    let help = told_help(subject, finding, about, shown, short)?;
    Ok(Diagnostic {
        severity: Severity::Error,
        code: code_of(finding.rule),
        source: Source::Program,
        span: Some(span_of(subject, finding)),
        message,
        notes: Listed::new(notes),
        help: Some(help),
    })
}

/// Findings with the paths that show them.
fn shown_of(alloc: Global, program: &Program, findings: &[Finding]) -> Made<Vec<ShownFinding>>
    requires { All (IsFinding program.now) findings.now }
    ensures findings { IfOk result (λ list. each (λ shown. shown.finding) list.items ≡ findings.now) }
    ensures shown { IfOk result (λ list. All (λ shown. IsShown program.now shown.finding shown.path) list.items) }
{
    let mut list = Vec::new(alloc);
    for finding in findings {
        let path = path_of(alloc, program, finding)?;
        list.push(ShownFinding {
            finding: *finding,
            path,
        })?;
    }
    Ok(list)
}

/// The diagnostic for a finding that is reported.
fn told_diagnostic(subject: &Subject, survey: &Survey<'_>, finding: &Finding) -> Made<Diagnostic>
    requires survey { survey.now ≡ subject.now.program }
    requires least { IsLeast subject.now.program subject.now.least }
    requires found { IsFinding subject.now.program finding.now }
    ensures { IfOk result (λ said. Says subject.now finding.now said) }
{
    let about = about(subject, survey, finding)?;
    let first = first_of(&about, 5);
    let shown = shown_of(subject.alloc(), subject.program(), first)?;
    let said = error_diagnostic(subject, survey, finding, &about, &shown)?;
    Ok(said)
}

/// The diagnostics for some findings that are reported.
fn told_diagnostics(
    subject: &Subject,
    survey: &Survey<'_>,
    findings: &[Finding],
) -> Made<Vec<Diagnostic>>
    requires survey { survey.now ≡ subject.now.program }
    requires least { IsLeast subject.now.program subject.now.least }
    requires found { All (IsFinding subject.now.program) findings.now }
    ensures { IfOk result (λ list. AllZip (Says subject.now) findings.now list.items) }
{
    let mut list = Vec::new(subject.alloc());
    for finding in findings {
        let said = told_diagnostic(subject, survey, finding)?;
        list.push(said)?;
    }
    Ok(list)
}

/// The errors in the marks of the program that a text spells: one for each finding that is reported, at most `MOST_SHOWN`,
/// and a note with the number of the rest; none exactly where the marks are sound. `least` is the program's least
/// certificate.
///
/// # Errors
///
/// `AllocError` where memory was refused.
pub fn mark_errors(
    alloc: Global,
    text: &[u8],
    program: &Program,
    least: &Cert,
) -> Result<Vec<Diagnostic>, AllocError>
    requires spelled { parse text.now ≡ Ok program.now }
    requires least { IsLeast program.now least.now }
    ensures { IfOk result (λ list. AreMarkErrors text.now list.items) }
{
    // The text has a source map, which is made only where something is found; and a program is well-formed, as its
    // accessors say.
    map_fits();
    least_decides();
    let _ = program.tasks();
    if accepts(program, least) {
        return Ok(Vec::new(alloc));
    }
    let surveyed = Surveyed::new(alloc, program)?;
    let survey = surveyed.survey();
    let first = first_told(alloc, &survey, least, MOST_SHOWN)?;
    let subject = Subject::read(alloc, text, program, least)?;
    let mut list = told_diagnostics(&subject, &survey, &first.0)?;
    let more = first.1.saturating_sub(MOST_SHOWN);
    add_more(alloc, &mut list, Source::Program, more, "error", "errors")?;
    Ok(list)
}
