//! The changes that let a task continue at some places: a longer list of targets, and a `.task` for each place that needs
//! one.

use diagnostics::diagnostic::Replacement;
use diagnostics::words;
use diagnostics::words::Words;
use mark_subjects::mark_place::{line_end, part};
use mark_subjects::parts::with_commas;
use mark_subjects::subject::{Made, Subject};
use mark_subjects::targets::targets_with;
use task_descriptor::program::MOST_TARGETS;

/// The changes that let a task continue at some places.
#[derive(Drop)]
pub struct Going {
    /// The task's new list of targets, `targets=` and names.
    pub targets: Words,
    /// The replacements that write that list and the `.task` lines.
    pub changes: Vec<Replacement>,
}

/// A line that lets a task begin at a label, behind those that are there.
pub(crate) fn task_line(subject: &Subject, label: &str) -> Made<Replacement> {
    let lines = (0..subject.task_count()).map(|task| subject.task_span(task).line);
    Ok(Replacement {
        span: line_end(subject, lines.max().unwrap_or(1)),
        text: words!(in subject.alloc(); "\n.task {label} create=- targets=-")?,
    })
}

/// The name of a place in a list of targets; of one without a label, that of the label that it gets.
pub(crate) fn name_of(subject: &Subject, place: u32) -> Made<Words> {
    let alloc = subject.alloc();
    match subject.name(place) {
        Some(name) => Words::of(alloc, name),
        None => words!(in alloc; "begin_{}", subject.span(place).line),
    }
}

/// Whether an instruction stands alone in its line, so that a label before it is its own.
fn stands_alone(subject: &Subject, index: u32) -> bool {
    subject.op(index).is_some()
        && (index == 0 || subject.span(index).line != subject.span(index.saturating_sub(1)).line)
}

/// Adds the line that lets a task begin at a place, if none does, and a label, if it has none; whether that can be written.
fn add_line(subject: &Subject, changes: &mut Vec<Replacement>, place: u32) -> Made<bool> {
    if subject.is_entry(place) {
        return Ok(true);
    }
    let name = name_of(subject, place)?;
    if subject.label(place).is_none() {
        if !stands_alone(subject, place) {
            return Ok(false);
        }
        let span = part(subject.span(place), 0, 0);
        let text = words!(in subject.alloc(); "{name}: ")?;
        changes.push(Replacement { span, text })?;
    }
    changes.push(task_line(subject, name.as_str())?)?;
    Ok(true)
}

/// The changes that let a task continue at some places that it does not list; `None` where it would have more than 16
/// targets, or where a task has to begin at a place that can have no label.
///
/// # Errors
///
/// `AllocError` where memory was refused.
pub fn going_on(subject: &Subject, task: u32, places: &[u32]) -> Made<Option<Going>> {
    let alloc = subject.alloc();
    let list = targets_with(subject, task, places)?;
    if list.len() > MOST_TARGETS {
        return Ok(None);
    }
    let mut changes = Vec::new(alloc);
    for place in places {
        if !add_line(subject, &mut changes, *place)? {
            return Ok(None);
        }
    }
    let names = list.iter().map(|place| name_of(subject, *place));
    let names: Vec<Words> = names.try_collect(alloc)?;
    let targets = words!(in alloc; "targets={}", with_commas(alloc, &names)?)?;
    let text = Words::of(alloc, targets.as_str())?;
    let span = subject.targets_span(task);
    changes.push(Replacement { span, text })?;
    Ok(Some(Going { targets, changes }))
}
