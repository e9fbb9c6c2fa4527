//! A step on a path into a task, where a stop may be forgotten: a note on it, and what to do.

ghost use Rattle.std.specs.Prelude.{◌≡◌, [], slice_get, IfOk};
ghost use Rattle.mark_subjects.specs.Parts.{paths};
ghost use Rattle.mark_subjects.specs.Steps.{first_task, entered, path_in, first_entered, is_end_first};

use crate::parts::{help, note_at, targets_words};
use crate::put_stop::{into, missing_stop, stop_put};
use crate::subject::{Made, Subject};
use crate::targets::{is_target, may_stop, new_targets, targets_with};
use diagnostics::diagnostic::{Help, Note, Replacement};
use diagnostics::words;
use diagnostics::words::Words;
use finding_paths::shown::ShownFinding;
use task_descriptor::descriptor::Stop;

/// The task that begins where a path does, if one begins there.
fn first_task(subject: &Subject, path: &[u32]) -> Option<u32>
    ensures { result ≡ first_task subject.now (slice_get path.now 0) }
{
    match path.get(0) {
        Some(to) => subject.task_at(*to),
        None => None,
    }
}

/// The first step of a path into a task's entry: the instruction that it leaves, and the number of the task.
#[tactic(auto, using(crate::proofs::PathSteps::step_found))]
fn entered(subject: &Subject, path: &[u32]) -> Option<(u32, u32)>
    ensures { result ≡ entered subject.now path.now }
{
    let mut rest = path;
    while let [from, behind @ ..] = rest {
        if let Some(task) = first_task(subject, behind) {
            return Some((*from, task));
        }
        rest = behind;
    }
    None
}

/// The path that shows a finding; empty where there is none.
pub fn path_in(shown: &ShownFinding) -> &[u32]
    ensures { result.now ≡ path_in shown.now.path }
{
    match &shown.path {
        Some(path) => path,
        None => &[],
    }
}

/// The first step into a task's entry on the paths that show some findings.
pub fn first_entered(subject: &Subject, list: &[ShownFinding]) -> Option<(u32, u32)>
    ensures { result ≡ first_entered subject.now list.now }
{
    for shown in list {
        if let Some(step) = entered(subject, path_in(shown)) {
            return Some(step);
        }
    }
    None
}

/// The note at a step into a task that a stop may be meant there; none where there is no such step. It shows no path.
///
/// # Errors
///
/// `AllocError` where memory was refused.
#[tactic(auto, using(crate::proofs::Paths::none_alone, crate::proofs::Paths::none_yet))]
pub fn stop_note(subject: &Subject, task: u32, step: Option<(u32, u32)>) -> Made<Vec<Note>>
    ensures { IfOk result (λ notes. paths notes.items ≡ []) }
{
    let mut notes = Vec::new(subject.alloc());
    let Some((from, into)) = step else {
        return Ok(notes);
    };
    let name = subject.task(task);
    let word = end_word(subject, from);
    let into = subject.task(into);
    let message =
        words!(in subject.alloc(); "task {name} continues into task {into} here, without a stop; was {word} meant?")?;
    let note = note_at(subject, from, message);
    notes.push(note)?;
    Ok(notes)
}

/// A stop as the text writes it; empty for none.
pub fn stop_name(stop: Stop) -> &'static str {
    match stop {
        Stop::None => "",
        Stop::Always => "!s",
        Stop::Taken => "!st",
        Stop::NotTaken => "!sn",
    }
}

/// Whether a branch ends the task on this edge, where no task begins, and goes on into a task by the other.
fn is_wrong_edge(subject: &Subject, index: u32, taken: bool) -> bool {
    let exit = subject.exit(index, taken);
    exit.is_some_and(|place| !subject.is_entry(place)) && into(subject, index, !taken).is_some()
}

/// The stop that ends a task before another; in place of one on the wrong edge of a branch, that of the other edge.
fn end_word(subject: &Subject, index: u32) -> &'static str {
    if is_wrong_edge(subject, index, false) {
        "!st"
    } else if is_wrong_edge(subject, index, true) {
        "!sn"
    } else {
        stop_name(missing_stop(subject, index))
    }
}

/// A help that lets a task end at an instruction, before it continues into the task `into`: by a stop and, where they are
/// missing, by targets.
///
/// # Errors
///
/// `AllocError` where memory was refused.
pub fn end_help(subject: &Subject, task: u32, index: u32, into: u32) -> Made<Help> {
    let alloc = subject.alloc();
    let word = end_word(subject, index);
    let line = subject.span(index).line;
    let stop = match subject.stop(index) {
        Stop::None => words!(in alloc; "put {word} on line {line}")?,
        stop => {
            let there = stop_name(stop);
            words!(in alloc; "write {word} in place of {there} on line {line}")?
        }
    };
    let mut changes = vec![in alloc; stop_put(subject, index, word)?]?;
    let new = new_targets(subject, task, index)?;
    let mut and_targets = Words::of(alloc, "")?;
    if !new.is_empty() {
        let targets = targets_with(subject, task, &new)?;
        let text = targets_words(subject, &targets)?;
        and_targets = words!(in alloc; " and write {text}")?;
        let span = subject.targets_span(task);
        changes.push(Replacement { span, text })?;
    }
    let name = subject.task(task);
    let other = subject.task(into);
    let is_listed = is_target(subject, task, into);
    let kind = if is_listed { "its target" } else { "task" };
    let message =
        words!(in alloc; "{stop}{and_targets}, where task {name} continues into {kind} {other}")?;
    Ok(help(message, changes))
}

/// Whether the first advice at a step into a task is to end the task there.
pub fn is_end_first(subject: &Subject, task: u32, step: (u32, u32)) -> bool
    ensures { result ≡ is_end_first subject.now task step }
{
    (is_target(subject, task, step.1) || step.1 != task) && may_stop(subject, task, step.0)
}

/// A help that first advises to end a task at a step into another, where `is_end_first`; else `rest`.
///
/// # Errors
///
/// `AllocError` where memory was refused.
pub fn stop_or(subject: &Subject, task: u32, step: Option<(u32, u32)>, rest: Help) -> Made<Help> {
    match step {
        Some(step) if is_end_first(subject, task, step) => {
            let end = end_help(subject, task, step.0, step.1)?;
            let (first, other) = (&end.message, &rest.message);
            Ok(Help {
                message: words!(in subject.alloc(); "{first}; if it is meant to continue, {other}")?,
                ..end
            })
        }
        _ => Ok(rest),
    }
}
