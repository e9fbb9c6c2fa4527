//! Calls, the tasks that return from them, and the places to which a jump to an address in a register may return.

use crate::advice::Names;
use crate::going::going_on;
use crate::jump::{add_missing, back_words, halt_help, held_by_jr, is_behind, jump_place, name_at};
use crate::stop::stops_always;
use call_returns::returns::{Jump, behind};
use diagnostics::diagnostic::Help;
use diagnostics::words;
use diagnostics::words::Words;
use mark_subjects::parts::{place_words, places_words};
use mark_subjects::put_stop::stop_put;
use mark_subjects::subject::{Made, Subject};

const LISTED: &str = "add !s: it leads to {places}{calls}";

const TO_LIST: &str = "add !s and write {targets}: it leads to {places}{calls}";

const TO_BEGIN: &str =
    "add !s, and let a task begin where it leads, at {places}, as a target of task {task}{calls}";

const UNSEEN: &str =
    "add !s, and let a task begin where the jump leads, as a target of task {task}{calls}";

const STALE: &str =
    "{register} still holds what the call on line {call} wrote: load the saved address before the {jump} on line {line}; else {rest}";

/// Where the last call on a path before its end comes back, in words.
fn last_back(subject: &Subject, index: u32, path: &[u32]) -> Made<Words> {
    let alloc = subject.alloc();
    let steps = path.iter().copied().filter(|step| *step != index);
    let places = steps.filter_map(|step| behind(subject.program(), step));
    match places.last() {
        Some(place) => {
            let line = subject.span(place.saturating_sub(1)).line;
            let place = place_words(subject, place)?;
            words!(in alloc; ": after the call on line {line} that is {place}")
        }
        None => Words::of(alloc, ""),
    }
}

/// What is said of the calls behind a jump: which return there, or where it returns itself, if it is a call.
fn calls_words(subject: &Subject, jump: &Jump) -> Made<Words> {
    match behind(subject.program(), jump.index) {
        Some(place) => {
            let place = place_words(subject, place)?;
            words!(in subject.alloc(); ", and returns to {place}")
        }
        None => back_words(subject, jump, &jump.places),
    }
}

/// What to do about a jump that has to end the task, where it is seen where it leads.
fn seen_help(subject: &Subject, jump: &Jump) -> Made<Help> {
    let alloc = subject.alloc();
    let mut names = Names::of_task(subject, jump.task)?;
    names.add("places", places_words(subject, &jump.places)?)?;
    names.add("calls", calls_words(subject, jump)?)?;
    let mut changes = vec![in alloc; stop_put(subject, jump.index, "!s")?]?;
    let mut missing = Vec::new(alloc);
    add_missing(subject, jump, &mut missing)?;
    if missing.is_empty() {
        return names.help(LISTED, changes);
    }
    let Some(mut going) = going_on(subject, jump.task, &missing)? else {
        return names.help(TO_BEGIN, changes);
    };
    changes.append(&mut going.changes)?;
    names.add("targets", going.targets)?;
    let begin = missing.iter().any(|place| !subject.is_entry(*place));
    names.help(if begin { TO_BEGIN } else { TO_LIST }, changes)
}

/// The help for a `jr` or `jalr` that has to end the task; `path` leads to it.
///
/// # Errors
///
/// `AllocError` where memory was refused.
pub fn return_help(subject: &Subject, task: u32, index: u32, path: &[u32]) -> Made<Help> {
    let mut names = Names::of_task(subject, task)?;
    let mut jumps = subject.returns().jumps().iter();
    match jumps.find(|jump| jump.task == task && jump.index == index) {
        Some(jump) if jump.is_uncalled => return halt_help(subject, index, &names),
        Some(jump) if !jump.places.is_empty() => return seen_help(subject, jump),
        _ => {}
    }
    names.add("calls", last_back(subject, index, path)?)?;
    let stop = stop_put(subject, index, "!s")?;
    names.help(UNSEEN, vec![in subject.alloc(); stop]?)
}

/// Whether a task leaves through jr.
fn leaves_by_jr(subject: &Subject, task: u32) -> bool {
    subject.entries(task).iter().any(|entry| {
        held_by_jr(subject, entry.0).is_some() && stops_always(subject.stop(entry.0))
    })
}

/// The task that returns from a call: if the call ends its task, the task that it enters, else a task that reaches the call;
/// `None` where that is not known, or that task does not leave through `jr`.
pub fn coming_back(subject: &Subject, call: u32) -> Option<u32> {
    if !stops_always(subject.stop(call)) {
        let mut tasks = 0..subject.task_count();
        return tasks.find(|task| {
            subject.mask(*task, call).is_some() && leaves_by_jr(subject, *task)
        });
    }
    match jump_place(subject, call) {
        Some((place, true)) => {
            let task = subject.task_at(place);
            task.filter(|task| leaves_by_jr(subject, *task))
        }
        _ => None,
    }
}

/// What to do about the places to which a task comes back: first about a return address that is not loaded again, where a
/// jump leads behind a call, whose address its register still holds, and does not come back.
pub(crate) fn stale_or(subject: &Subject, task: u32, help: Help) -> Made<Help> {
    let jumps = subject.returns().jumps().iter();
    let mut jumps = jumps.filter(|jump| jump.task == task);
    let held = jumps.find_map(|jump| {
        let mut places = jump.places.iter().copied();
        let held = places.find(|place| is_behind(subject, *place) && !jump.returns.contains(place));
        held.map(|place| (jump.index, place))
    });
    let Some((index, place)) = held else {
        return Ok(help);
    };
    let Some(register) = held_by_jr(subject, index) else {
        return Ok(help);
    };
    let mut names = Names::new(subject.alloc());
    names.add("register", subject.register(register))?;
    names.add("call", subject.span(place.saturating_sub(1)).line)?;
    names.add("jump", name_at(subject, index))?;
    names.add("line", subject.span(index).line)?;
    names.add("rest", help.message.as_str())?;
    names.advice(STALE)
}
