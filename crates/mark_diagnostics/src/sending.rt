//! A register that is sent too early: what to do, and where it is written again. And a release with fewer registers.

ghost use Rattle.std.specs.Prelude.{◌≡◌, ◌<◌, ◌&&◌, not, IfOk};
ghost use Rattle.mark_subjects.specs.Subjects.{releases};
ghost use Rattle.mark_diagnostics.specs.Fixes.{written_from, written_after, kept};
ghost use Rattle.mark_subjects.specs.Parts.{paths, shown_path, steps_of};

use crate::told::register_in;
use diagnostics::diagnostic::{Help, Note, Replacement};
use diagnostics::words;
use diagnostics::words::Words;
use exit_diagnostics::advice::Names;
use mark_checker::finding::{Finding, Rule};
use mark_subjects::mark_place::{first_mark, part};
use mark_subjects::parts::{last_or, path_note, registers_where, registers_words};
use mark_subjects::put_stop::{bit_put, mark_out};
use mark_subjects::subject::{Made, Subject, has_number, is_end};
use mips_instructions::number::RegSet;

const PUT: &str = "{first}, and put !f on line {line}{beside}";

const IS: &str = "{first}: line {line} forwards {register}{beside}";

const SENT: &str = "{first}: line {line} releases {register}{beside}";

const LEFT: &str =
    "{first}: {register} then leaves when the task ends; to send it earlier, {release}, after its last write";

const NOWHERE: &str = "{first}: {register} then leaves when the task ends";

/// Whether a register may be written by a task from the end of an edge on.
pub(crate) fn written_from(subject: &Subject, task: u32, end: Option<u32>, register: u8) -> bool
    requires { register < 34 }
    ensures { result ≡ written_from subject.now task end register }
{
    let Some(index) = end else {
        return false;
    };
    match subject.mask(task, index) {
        Some(mask) => has_number(mask, register),
        None => false,
    }
}

/// Whether a register may be written by a task after an instruction.
fn written_after(subject: &Subject, task: u32, index: u32, register: u8) -> bool
    requires { register < 34 }
    ensures { result ≡ written_after subject.now task index register }
{
    written_from(subject, task, subject.inner(index, false), register)
        || written_from(subject, task, subject.inner(index, true), register)
}

/// Whether an instruction writes a register.
pub(crate) fn writes(subject: &Subject, index: u32, register: u8) -> bool
    requires { register < 34 }
{
    let op = subject.op(index);
    op.is_some_and(|op| has_number(op.dests(), register))
}

/// Whether an instruction forwards a register.
fn forwards_it(subject: &Subject, index: u32, register: u8) -> bool
    requires { register < 34 }
{
    subject.forwards(index) && writes(subject, index, register)
}

/// Whether an instruction may have the forward bit in a task: what it writes is not written again.
fn may_forward(subject: &Subject, task: u32, index: u32) -> Made<bool> {
    let waiting = registers_where(subject.alloc(), |register| {
        writes(subject, index, register) && written_after(subject, task, index, register)
    })?;
    Ok(waiting.is_empty() && subject.op(index).is_some())
}

/// Whether an instruction releases a register, and the task does not write it after that.
fn releases_last(subject: &Subject, task: u32, register: u8, index: u32) -> bool
    requires { register < 34 }
    ensures { result ≡ (releases subject.now index register && not (written_after subject.now task index register)) }
{
    subject.releases(index, register) && !written_after(subject, task, index, register)
}

/// The registers of a release that the task does not write after it.
fn kept(subject: &Subject, task: u32, index: u32) -> Made<Vec<u8>>
    ensures { IfOk result (λ list. list.items ≡ kept subject.now task index) }
{
    registers_where(subject.alloc(), |register| {
        releases_last(subject, task, register, index)
    })
}

/// The first release of a register after which the task does not write it.
fn last_release(subject: &Subject, task: u32, register: u8) -> Option<u32>
    requires { register < 34 }
{
    let mut indices = subject.entries(task).iter().map(|entry| entry.0);
    indices.find(|index| releases_last(subject, task, register, *index))
}

/// The first instruction that forwards a register, and after which the task does not write it.
fn last_forward(subject: &Subject, task: u32, register: u8) -> Option<u32>
    requires { register < 34 }
{
    let mut indices = subject.entries(task).iter().map(|entry| entry.0);
    indices.find(|index| forwards_it(subject, *index, register)
        && !written_after(subject, task, *index, register))
}

/// The end of an edge, if it is an instruction from which on a task does not write a register any more; a task that begins
/// there would send it, too.
fn left_at(subject: &Subject, task: u32, end: Option<u32>, register: u8) -> Option<u32>
    requires { register < 34 }
{
    let index = end?;
    let is_left = subject.op(index).is_some()
        && !subject.is_entry(index)
        && !written_from(subject, task, end, register);
    is_left.then_some(index)
}

/// Where a task goes on to from an entry, from which on it may write a register and which does not forward it, and does not
/// write it any more.
fn left_by(subject: &Subject, task: u32, register: u8, entry: &(u32, RegSet)) -> Option<u32>
    requires { register < 34 }
{
    if !has_number(entry.1, register) || forwards_it(subject, entry.0, register) {
        return None;
    }
    let onward = left_at(subject, task, subject.inner(entry.0, false), register);
    onward.or(left_at(subject, task, subject.inner(entry.0, true), register))
}

/// What to do where the register is not sent at the end of the path, as a template and the instruction that it names: to leave
/// the last release; or to release it where it is not written any more; or to leave the last forward bit; `None` where it
/// may be written yet again from each place to which the task goes on.
fn elsewhere(subject: &Subject, task: u32, register: u8) -> Option<(&'static str, u32)>
    requires { register < 34 }
{
    let mut entries = subject.entries(task).iter();
    if let Some(index) = last_release(subject, task, register) {
        return Some((SENT, index));
    }
    if let Some(index) = entries.find_map(|entry| left_by(subject, task, register, entry)) {
        return Some((LEFT, index));
    }
    Some((IS, last_forward(subject, task, register)?))
}

/// What to do where a register is written again, at the end of the path, as a template and the instruction that it names; a
/// forward bit to put there is added to the changes.
fn resend_at(
    subject: &Subject,
    finding: &Finding,
    path: &[u32],
    changes: &mut Vec<Replacement>,
) -> Made<(&'static str, u32)> {
    let at = last_or(finding.index, path);
    let task = finding.task;
    let register = register_in(finding.reg);
    if at == finding.index || !may_forward(subject, task, at)? {
        return Ok(elsewhere(subject, task, register).unwrap_or((NOWHERE, at)));
    }
    if subject.forwards(at) {
        return Ok((IS, at));
    }
    match subject.inner(at, false) {
        Some(next) if subject.releases(next, register) => Ok((SENT, next)),
        _ => {
            changes.push(bit_put(subject, at)?)?;
            Ok((PUT, at))
        }
    }
}

/// The place on another path, from the mark on, from which on the register of a finding is not written any more; none if it
/// is released somewhere.
fn side(subject: &Subject, finding: &Finding) -> Option<u32> {
    let task = finding.task;
    let register = register_in(finding.reg);
    if last_release(subject, task, register).is_some() {
        return None;
    }
    let entries = subject.entries(task).iter();
    let mut entries = entries.filter(|entry| finding.index <= entry.0
        && !writes(subject, entry.0, register));
    entries.find_map(|entry| left_by(subject, task, register, entry))
}

/// Whether a task may come to a place after its last write of a register, too.
fn follows_write(subject: &Subject, task: u32, place: u32, register: u8) -> bool
    requires { register < 34 }
{
    let leads = |index, taken| is_end(subject.inner(index, taken), place);
    subject.entries(task).iter().any(|entry| {
        (leads(entry.0, false) || leads(entry.0, true))
            && (!has_number(entry.1, register) || writes(subject, entry.0, register))
    })
}

/// To release a register before an instruction, and after its label.
fn put_release(subject: &Subject, index: u32, register: u8) -> Made<Words> {
    let alloc = subject.alloc();
    let name = subject.register(register);
    let line = subject.span(index).line;
    match subject.label(index) {
        Some(label) => words!(in alloc; "put release {name} at {label} (line {line})"),
        None => words!(in alloc; "put release {name} before line {line}"),
    }
}

/// What to do at the mark that sends a register too early, in words and as changes.
fn first_help(subject: &Subject, finding: &Finding) -> Made<(Words, Vec<Replacement>)> {
    let alloc = subject.alloc();
    let index = finding.index;
    if let Rule::ForwardedInNext = finding.rule {
        return Ok((
            Words::of(alloc, "remove !f here")?,
            mark_out(subject, index, b'f')?,
        ));
    }
    let kept = kept(subject, finding.task, index)?;
    let (text, change) = release_of(subject, index, &kept)?;
    let first = if text.as_str().is_empty() {
        Words::of(alloc, "remove it")?
    } else {
        words!(in alloc; "write {text} here")?
    };
    Ok((first, vec![in alloc; change]?))
}

/// What to do on another path, which does not write the register; nothing where there is none.
fn beside_words(subject: &Subject, finding: &Finding) -> Made<Words> {
    let alloc = subject.alloc();
    let register = register_in(finding.reg);
    let Some(place) = side(subject, finding) else {
        return Words::of(alloc, "");
    };
    let release = put_release(subject, place, register)?;
    if follows_write(subject, finding.task, place, register) {
        words!(in alloc; "; {release}")
    } else {
        words!(in alloc; "; {release}, on the path that does not write it")
    }
}

/// What to do about a register that is sent too early: first at the mark itself, then where the register is written again,
/// and on another path, which does not write it.
pub(crate) fn early_help(subject: &Subject, finding: &Finding, path: &[u32]) -> Made<Help> {
    let register = register_in(finding.reg);
    let (first, mut changes) = first_help(subject, finding)?;
    let (template, at) = resend_at(subject, finding, path, &mut changes)?;
    let mut names = Names::new(subject.alloc());
    names.add("register", subject.register(register))?;
    names.add("first", first)?;
    names.add("beside", beside_words(subject, finding)?)?;
    names.add("line", subject.span(at).line)?;
    names.add("release", put_release(subject, at, register)?)?;
    names.help(template, changes)
}

/// The note on a register that is sent too early: where it is written again.
#[tactic(auto, using(mark_subjects::proofs::Paths::alone))]
pub(crate) fn early_notes(subject: &Subject, finding: &Finding, path: &[u32]) -> Made<Vec<Note>>
    ensures { IfOk result (λ notes. paths notes.items ≡ shown_path (steps_of subject.now path.now)) }
{
    let name = subject.register(register_in(finding.reg));
    let message = words!(in subject.alloc(); "{name} is written again here")?;
    let note = path_note(subject, last_or(finding.index, path), message, path)?;
    let mut notes = Vec::new(subject.alloc());
    notes.push(note)?;
    Ok(notes)
}

/// What stands in place of a release of which these registers are left, and the replacement that writes it before the marks
/// that it has; without any register it is taken out, or is a nop.
pub(crate) fn release_of(subject: &Subject, index: u32, left: &[u8]) -> Made<(Words, Replacement)> {
    let alloc = subject.alloc();
    let place = subject.span(index);
    let marks = first_mark(subject, index);
    let is_removable = marks.is_none() && !subject.is_entry(index) && subject.names_no_index();
    let words = if !left.is_empty() {
        let list = registers_words(subject, left)?;
        words!(in alloc; "release {list}")?
    } else {
        Words::of(alloc, if is_removable { "" } else { "nop" })?
    };
    let blank = if marks.is_some() { " " } else { "" };
    let text = words!(in alloc; "{words}{blank}")?;
    let span = part(place, 0, marks.unwrap_or(place.width));
    Ok((words, Replacement { span, text }))
}
