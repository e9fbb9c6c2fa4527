//! Replacements that write or remove stops and forward bits, and the stop that may be forgotten.

ghost use Rattle.std.specs.Prelude.{◌≡◌};
ghost use Rattle.mark_subjects.specs.Targets.{into, stop_by, missing_stop};

use crate::mark_place::{bytes_of, mark_in, part};
use crate::subject::{Made, Subject};
use diagnostics::diagnostic::Replacement;
use diagnostics::words;
use diagnostics::words::Words;
use task_descriptor::descriptor::Stop;

/// How many bytes a stop has.
fn stop_width(stop: Stop) -> usize {
    match stop {
        Stop::Always => 2,
        _ => 3,
    }
}

/// The replacement that writes the stop `word` in place of an instruction's stop, or after the instruction if it has none.
///
/// # Errors
///
/// `AllocError` where memory was refused.
pub fn stop_put(subject: &Subject, index: u32, word: &str) -> Made<Replacement> {
    let stop = subject.stop(index);
    let place = subject.span(index);
    let blank = if let Stop::None = stop { " " } else { "" };
    let span = match (stop, mark_in(subject, index, b's')) {
        (Stop::None, _) | (_, None) => part(place, place.width, 0),
        (_, Some(before)) => part(place, before, stop_width(stop)),
    };
    let text = words!(in subject.alloc(); "{blank}{word}")?;
    Ok(Replacement { span, text })
}

/// The replacement that removes the stop of an instruction, or its forward bit, with the blank before it; none if it has none.
/// `letter` is the first of the mark, `s` or `f`.
///
/// # Errors
///
/// `AllocError` where memory was refused.
pub fn mark_out(subject: &Subject, index: u32, letter: u8) -> Made<Vec<Replacement>> {
    let mut changes = Vec::new(subject.alloc());
    let Some(before) = mark_in(subject, index, letter) else {
        return Ok(changes);
    };
    let width = if letter == b's' {
        stop_width(subject.stop(index))
    } else {
        2
    };
    let ahead = before.saturating_sub(1);
    let span = match bytes_of(subject, index).get(ahead) {
        Some(b' ' | b'\t') => part(subject.span(index), ahead, width.saturating_add(1)),
        _ => part(subject.span(index), before, width),
    };
    let text = Words::of(subject.alloc(), "")?;
    changes.push(Replacement { span, text })?;
    Ok(changes)
}

/// The replacement that writes a forward bit before the stop of an instruction, or after an instruction without one.
///
/// # Errors
///
/// `AllocError` where memory was refused.
pub fn bit_put(subject: &Subject, index: u32) -> Made<Replacement> {
    let place = subject.span(index);
    let (before, text) = match mark_in(subject, index, b's') {
        Some(before) => (before, "!f "),
        None => (place.width, " !f"),
    };
    Ok(Replacement {
        span: part(place, before, 0),
        text: Words::of(subject.alloc(), text)?,
    })
}

/// The task at whose entry an edge inside the task ends: the edge of a branch that is taken, or the one to the next
/// instruction; `None` where no task begins there.
pub fn into(subject: &Subject, index: u32, taken: bool) -> Option<u32>
    ensures { result ≡ into subject.now index taken }
{
    match subject.inner(index, taken) {
        Some(end) => subject.task_at(end),
        None => None,
    }
}

/// The stop that ends a task on the edges that lead into tasks, of an instruction with this stop.
fn stop_by(onward: Option<u32>, taken: Option<u32>, stop: Stop, branch: bool) -> Stop
    ensures { result ≡ stop_by onward taken stop branch }
{
    match (onward, taken, stop, branch) {
        (Some(_), None, Stop::None, true) => Stop::NotTaken,
        (None, Some(_), Stop::None, true) => Stop::Taken,
        _ => Stop::Always,
    }
}

/// The stop that ends the task where an instruction continues into tasks: `!st` or `!sn` for a branch without a stop that
/// does so by one edge alone, else `!s`.
pub fn missing_stop(subject: &Subject, index: u32) -> Stop
    ensures { result ≡ missing_stop subject.now index }
{
    let onward = into(subject, index, false);
    let taken = into(subject, index, true);
    stop_by(onward, taken, subject.stop(index), subject.is_branch(index))
}
