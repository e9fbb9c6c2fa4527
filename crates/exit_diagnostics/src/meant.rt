//! What may be meant where a task ends at a place where no task begins: another stop, or a delay slot, which programs here do
//! not have; and a halt that may be forgotten, where a task that lists no target and reaches no halt runs into code that
//! others reach, too.

use crate::advice::Names;
use crate::needless::is_needless;
use crate::stop::stops_always;
use diagnostics::diagnostic::{Help, Replacement};
use diagnostics::helps::in_words;
use diagnostics::words;
use diagnostics::words::Words;
use mark_checker::finding::Finding;
use mark_subjects::mark_place::line_end;
use mark_subjects::parts::place_words;
use mark_subjects::put_stop::{mark_out, stop_put};
use mark_subjects::step::stop_name;
use mark_subjects::subject::{Made, Subject};
use mark_subjects::targets::is_among;
use mips_instructions::instruction::Op;
use task_descriptor::descriptor::Stop;

const EDGE: &str =
    "write {word}: the task then ends only if the branch is {edge}, at {target}, which is a target; or {rest}";

const NEXT: &str = "move !s to line {line}, whose exits are all targets; or {rest}";

const JUMP: &str = "move !s to line {line}, where the task leaves by jr; or {rest}";

const AT_HALT: &str = "remove !s: the task then ends at the halt on line {line}; or {rest}";

const NEEDLESS: &str =
    "remove {word}: the task then continues, and ends only at targets or a halt; or {rest}";

const FORGOTTEN: &str = "write halt after line {line}, if the program ends there; else {rest}";

/// Whether the instruction at a code index is a `halt`.
pub fn halts(subject: &Subject, index: u32) -> bool {
    matches!(subject.op(index), Some(Op::Halt))
}

/// Whether a branch or a jump is at an index.
pub(crate) fn is_turning(subject: &Subject, index: u32) -> bool {
    subject.is_branch(index)
        || matches!(
            subject.op(index),
            Some(Op::Jump(_) | Op::JumpLink(_) | Op::JumpReg(_) | Op::JumpLinkReg(..))
        )
}

/// Whether an instruction may be meant as a delay slot: it is alone between a branch or a jump and the next label, task
/// entry or end of the code, and is no branch, jump, `halt` or release.
pub fn is_slot(subject: &Subject, index: u32) -> bool {
    let behind = index.saturating_add(1);
    0 < index
        && is_turning(subject, index.saturating_sub(1))
        && !is_turning(subject, index)
        && !matches!(subject.op(index), None | Some(Op::Halt | Op::Release(_)))
        && subject.label(index).is_none()
        && (subject.op(behind).is_none() || subject.name(behind).is_some())
}

/// What to do about an exit to a place where no task begins: first about a delay slot.
pub(crate) fn slot_or(subject: &Subject, index: u32, to: u32, help: Help) -> Made<Help> {
    if to.saturating_sub(1) != index || !is_slot(subject, to) {
        return Ok(help);
    }
    let alloc = subject.alloc();
    let line = subject.span(to).line;
    let before = subject.span(index).line;
    let rest = help.message.as_str();
    let message =
        words!(in alloc; "is line {line} a delay slot? there are none here: move it before line {before}; else {rest}")?;
    Ok(in_words(alloc, message))
}

/// Where an edge of an instruction leads, whatever its stop.
fn way(subject: &Subject, index: u32, taken: bool) -> Option<u32> {
    subject.exit(index, taken).or(subject.inner(index, taken))
}

/// Where an edge of an instruction leads, if that is a target of the task at which a task begins.
fn to_target(subject: &Subject, task: u32, index: u32, taken: bool) -> Option<u32> {
    let place = way(subject, index, taken)?;
    let is_open = subject.is_entry(place) && is_among(subject.targets(task), place);
    is_open.then_some(place)
}

/// Whether an instruction has no stop, and all its edges lead to targets.
fn leads_to_targets(subject: &Subject, task: u32, index: u32) -> bool {
    matches!(subject.stop(index), Stop::None)
        && to_target(subject, task, index, false).is_some()
        && (way(subject, index, true).is_none() || to_target(subject, task, index, true).is_some())
}

/// Whether an instruction has no stop, and is a jump to an address in a register, of a task that has targets.
fn jumps_away(subject: &Subject, task: u32, index: u32) -> bool {
    matches!(subject.op(index), Some(Op::JumpReg(_)))
        && matches!(subject.stop(index), Stop::None)
        && !subject.targets(task).is_empty()
}

/// Whether an instruction goes on to the next one alone, without a stop, and neither has a label.
fn goes_straight(subject: &Subject, index: u32) -> bool {
    !is_turning(subject, index)
        && !halts(subject, index)
        && matches!(subject.stop(index), Stop::None)
        && subject.label(index).is_none()
        && subject.label(index.saturating_add(1)).is_none()
        && !subject.is_entry(index.saturating_add(1))
}

/// The end of the straight line of at most 8 instructions more that begins at a place.
fn end_of_line(subject: &Subject, to: u32) -> u32 {
    let mut end = to;
    for _ in 0..8 {
        if goes_straight(subject, end) {
            end = end.saturating_add(1);
        }
    }
    end
}

/// What to do where another edge of the branch at `index` is meant: the one that alone leads to a target.
fn edge_help(subject: &Subject, task: u32, index: u32, names: &mut Names) -> Made<Option<Help>> {
    let onward = to_target(subject, task, index, false);
    let (word, edge, target) = match (onward, to_target(subject, task, index, true)) {
        (Some(target), None) => ("!sn", "not taken", target),
        (None, Some(target)) => ("!st", "taken", target),
        _ => return Ok(None),
    };
    names.add("word", word)?;
    names.add("edge", edge)?;
    names.add("target", place_words(subject, target)?)?;
    let stop = stop_put(subject, index, word)?;
    Ok(Some(names.help(EDGE, vec![in subject.alloc(); stop]?)?))
}

/// What to do where the `!s` at `index` is meant at the end of the straight line that begins at `to`: to move it there, or
/// to remove it, if the line ends at a halt.
fn move_help(
    subject: &Subject,
    task: u32,
    index: u32,
    to: u32,
    names: &mut Names,
) -> Made<Option<Help>> {
    let end = end_of_line(subject, to);
    let is_target = leads_to_targets(subject, task, end);
    names.add("line", subject.span(end).line)?;
    let mut changes = mark_out(subject, index, b's')?;
    if halts(subject, end) {
        return Ok(Some(names.help(AT_HALT, changes)?));
    }
    if !is_target && !jumps_away(subject, task, end) {
        return Ok(None);
    }
    changes.push(stop_put(subject, end, "!s")?)?;
    Ok(Some(names.help(if is_target { NEXT } else { JUMP }, changes)?))
}

/// What to do: to write the stop that may be meant, or to remove the one that is there, or else.
pub(crate) fn meant_help(subject: &Subject, finding: &Finding, to: u32, rest: Help) -> Made<Help> {
    let (task, index) = (finding.task, finding.index);
    let mut names = Names::new(subject.alloc());
    names.add("rest", rest.message.as_str())?;
    let meant = if subject.is_branch(index) && (to as usize) < subject.code().len() {
        edge_help(subject, task, index, &mut names)?
    } else if stops_always(subject.stop(index)) {
        move_help(subject, task, index, to, &mut names)?
    } else {
        None
    };
    if let Some(help) = meant {
        return Ok(help);
    }
    if !is_needless(subject, task, index)? {
        return Ok(rest);
    }
    names.add("word", stop_name(subject.stop(index)))?;
    names.help(NEEDLESS, mark_out(subject, index, b's')?)
}

/// Whether a task may be the program's last: it lists no target, and comes to no halt.
fn lacks_halt(subject: &Subject, task: u32) -> bool {
    let entries = subject.entries(task);
    subject.targets(task).is_empty() && !entries.iter().any(|entry| halts(subject, entry.0))
}

/// Whether it is seen that a halt is forgotten before a place: the program has none; or the task is declared as one that
/// only ends, by an empty create mask, and no task begins at the place.
fn is_forgotten(subject: &Subject, task: u32, place: u32) -> bool {
    let mut code = subject.code().iter();
    let has_halt = code.any(|marked| matches!(marked.op, Op::Halt));
    let descriptor = subject.tasks().get(task as usize);
    let creates_nothing = descriptor.is_some_and(|descriptor| descriptor.create.is_empty());
    !has_halt || (creates_nothing && !subject.is_entry(place))
}

/// The instruction after which a task may be meant to end the program, where this path leaves it: by its first step to an
/// instruction with a label.
fn last_before(subject: &Subject, task: u32, path: &[u32]) -> Option<u32> {
    let (from, to) = path.windows(2).find_map(|step| match step {
        [from, to] if subject.label(*to).is_some() => Some((*from, *to)),
        _ => None,
    })?;
    let mut others = (0..subject.task_count()).filter(|other| *other != task);
    let is_last = from.saturating_add(1) == to
        && !is_turning(subject, from)
        && lacks_halt(subject, task)
        && others.any(|other| subject.mask(other, to).is_some())
        && is_forgotten(subject, task, to);
    is_last.then_some(from)
}

/// A help that first advises a forgotten `halt`, where the path of a finding shows one; else `help`.
///
/// # Errors
///
/// `AllocError` where memory was refused.
pub fn halt_or(subject: &Subject, task: u32, path: &[u32], help: Help) -> Made<Help> {
    let alloc = subject.alloc();
    let Some(from) = last_before(subject, task, path) else {
        return Ok(help);
    };
    let span = line_end(subject, subject.span(from).line);
    let text = Words::of(alloc, "\n        halt")?;
    let mut names = Names::new(alloc);
    names.add("line", span.line)?;
    names.add("rest", help.message.as_str())?;
    names.help(FORGOTTEN, vec![in alloc; Replacement { span, text }]?)
}
