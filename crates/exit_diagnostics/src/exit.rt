//! Where a task continues: exits that are not listed, edges that lead to no instruction, and targets where no task begins.

ghost use Rattle.std.specs.Prelude.{◌≡◌, not, position, IfOk, OnOk};
ghost use Rattle.mark_subjects.specs.Subjects.{targets_of, is_entry};
ghost use Rattle.mark_subjects.specs.Parts.{paths, way_paths};
ghost use Rattle.exit_diagnostics.specs.Exits.{unlisted, lacking, is_taken, wrong_number};

use crate::advice::Names;
use crate::going::{going_on, task_line};
use crate::jump::may_go_on;
use crate::meant::{is_turning, meant_help, slot_or};
use call_returns::returns::behind;
use diagnostics::diagnostic::{Help, Note};
use diagnostics::helps::{by_text, in_words};
use diagnostics::words;
use diagnostics::words::Words;
use mark_checker::finding::Finding;
use mark_subjects::parts::{help, note_at, place_words, targets_words, way_notes, written};
use mark_subjects::subject::{Made, Subject, is_end};
use mark_subjects::targets::{both, entries_listed, is_among, targets_with};
use task_descriptor::program::MOST_TARGETS;

const EXIT: &str =
    "{edge}task {task} ends here and leads to {place}, which is not one of its targets";

const EXIT_ASTRAY: &str = "{edge}task {task} ends here and leads to {place}, where no task begins";

const EXITS: &str =
    "task {task} ends here and leads to {place}, or to {second} if the branch is taken; neither is one of its targets";

const BEYOND_MOST: &str = "a task has at most 16 targets: let task {task} lead to fewer places";

const LISTED: &str = "write {fix}; or is {meant} meant on line {line}?";

const CALLS_BEHIND: &str =
    "is {meant} meant on line {line}, which calls the place to which it comes back? else write {fix}";

/// What begins at a place.
fn beginning_words(subject: &Subject, index: u32) -> Made<Words> {
    match subject.task_at(index) {
        Some(task) => {
            let name = subject.task(task);
            words!(in subject.alloc(); "task {name} begins here")
        }
        None => Words::of(subject.alloc(), "no task begins here"),
    }
}

/// Adds a note on a place, if an instruction is there.
///
/// # Errors
///
/// `AllocError` where memory was refused; what `notes` then has is not stated.
#[tactic(auto, using(mark_subjects::proofs::Paths::none_added))]
pub fn add_place_note(subject: &Subject, notes: &mut Vec<Note>, index: u32) -> Made<()>
    ensures { OnOk result (paths notes.new.items ≡ paths notes.old.items) }
{
    if index as usize >= subject.code().len() {
        return Ok(());
    }
    let message = beginning_words(subject, index)?;
    let note = note_at(subject, index, message);
    notes.push(note)?;
    Ok(())
}

/// Where the program's last instruction is.
fn last_words(subject: &Subject) -> Made<Words> {
    let last = subject.code().len().saturating_sub(1);
    words!(in subject.alloc(); "let it lead to an instruction of the program, the last of which is @{last}")
}

/// What would let a task begin at a place, and what else is to be done.
fn task_to_begin(subject: &Subject, index: u32, besides: &str) -> Made<Words> {
    let alloc = subject.alloc();
    let end = subject.code().len();
    if index as usize > end {
        return last_words(subject);
    }
    if index as usize == end {
        return words!(in alloc; "let a task begin there: add a line LABEL: halt at the end of the code and a line .task LABEL create=- targets=-{besides}");
    }
    let Some(label) = subject.label(index) else {
        let line = subject.span(index).line;
        return words!(in alloc; "let a task begin on line {line}: give it a label and a line .task LABEL create=- targets=-{besides}");
    };
    words!(in alloc; "let a task begin at {label}: add a line .task {label} create=- targets=-{besides}")
}

/// Where the exit of a finding leads, a branch being taken or not, if that is no target.
fn unlisted(subject: &Subject, finding: &Finding, taken: bool) -> Option<u32>
    ensures { result ≡ unlisted subject.now finding.now taken }
{
    let end = subject.exit(finding.index, taken);
    match end {
        Some(index) if is_among(subject.targets(finding.task), index) => None,
        _ => end,
    }
}

/// The message about a finding's exits to places that the task does not list.
///
/// # Errors
///
/// `AllocError` where memory was refused.
pub fn exit_message(subject: &Subject, finding: &Finding) -> Made<Words> {
    let branch = subject.is_branch(finding.index);
    let onward = unlisted(subject, finding, false);
    let taken = unlisted(subject, finding, true);
    let mut names = Names::of_task(subject, finding.task)?;
    let (edge, place) = match (onward, taken) {
        (Some(place), Some(second)) if place != second => {
            names.add("place", place_words(subject, place)?)?;
            names.add("second", place_words(subject, second)?)?;
            return names.filled(EXITS);
        }
        (Some(place), None) if branch => ("if the branch is not taken, ", place),
        (None, Some(place)) if branch => ("if the branch is taken, ", place),
        (Some(place), _) | (None, Some(place)) => ("", place),
        (None, None) => return Words::of(subject.alloc(), ""),
    };
    names.add("edge", edge)?;
    names.add("place", place_words(subject, place)?)?;
    names.filled(if subject.is_entry(place) {
        EXIT
    } else {
        EXIT_ASTRAY
    })
}

/// The places that the targets of a finding's task lack.
fn lacking(subject: &Subject, finding: &Finding) -> Made<Vec<u32>>
    ensures { IfOk result (λ places. places.items ≡ lacking subject.now finding.now) }
{
    let onward = unlisted(subject, finding, false);
    let taken = unlisted(subject, finding, true);
    both(subject.alloc(), onward, taken)
}

/// The notes that show the path to an exit and the places to which it leads.
///
/// # Errors
///
/// `AllocError` where memory was refused.
pub fn exit_notes(subject: &Subject, finding: &Finding, path: &[u32]) -> Made<Vec<Note>>
    ensures { IfOk result (λ notes. paths notes.items ≡ way_paths subject.now finding.now.index path.now) }
{
    let mut notes = way_notes(subject, finding.index, path)?;
    let places = lacking(subject, finding)?;
    for index in &places {
        add_place_note(subject, &mut notes, *index)?;
    }
    Ok(notes)
}

/// Whether a task comes to a place, as far as it is seen: inside of it, or by an exit.
fn comes_to(subject: &Subject, task: u32, place: u32) -> bool {
    subject.mask(task, place).is_some() || may_go_on(subject, task, place)
}

/// The target that may be meant where an instruction goes on to this place: the one alone to which the task does not come,
/// unless it is the next instruction.
fn meant_target(subject: &Subject, task: u32, index: u32, place: u32) -> Made<Option<u32>> {
    let next = index.saturating_add(1);
    let is_onward = place == next && behind(subject.program(), index).is_none();
    let listed = entries_listed(subject, task)?;
    let listed = listed.iter().copied();
    let unused = listed.filter(|target| !comes_to(subject, task, *target));
    let unused: Vec<u32> = unused.collect(subject.alloc())?;
    Ok(match unused.as_slice() {
        [meant] if !is_onward && is_turning(subject, index) && *meant != next => Some(*meant),
        _ => None,
    })
}

/// What to do: to write these targets; or another one is meant where the instruction leads.
fn list_or_meant(subject: &Subject, finding: &Finding, place: u32, text: Words) -> Made<Help> {
    let alloc = subject.alloc();
    let index = finding.index;
    let span = subject.targets_span(finding.task);
    let Some(meant) = meant_target(subject, finding.task, index, place)? else {
        return written(alloc, span, text);
    };
    let mut names = Names::new(alloc);
    names.add("fix", text.as_str())?;
    names.add("meant", place_words(subject, meant)?)?;
    names.add("line", subject.span(index).line)?;
    if is_end(behind(subject.program(), index), place) {
        return names.advice(CALLS_BEHIND);
    }
    by_text(alloc, names.filled(LISTED)?, span, text)
}

/// What to do: the targets to write, with these places and without those to which the task does not come, if they are not too
/// many.
fn listing_help(subject: &Subject, finding: &Finding, places: &[u32]) -> Made<Help> {
    let alloc = subject.alloc();
    let task = finding.task;
    let targets = targets_with(subject, task, places)?;
    let targets = targets.iter().copied();
    let targets = targets.filter(|to| places.contains(to) || comes_to(subject, task, *to));
    let targets: Vec<u32> = targets.collect(alloc)?;
    if targets.len() > MOST_TARGETS {
        return Names::of_task(subject, task)?.advice(BEYOND_MOST);
    }
    let text = targets_words(subject, &targets)?;
    match places {
        [place] => list_or_meant(subject, finding, *place, text),
        _ => written(alloc, subject.targets_span(task), text),
    }
}

/// The help for exits to places that the task does not list: to list them, or to let a task begin at the first of them where
/// none does. At such a place it first says that a delay slot, another stop or no stop may be meant.
///
/// # Errors
///
/// `AllocError` where memory was refused.
pub fn exit_help(subject: &Subject, finding: &Finding) -> Made<Help> {
    let places = lacking(subject, finding)?;
    let mut astray = places.iter().copied();
    let Some(to) = astray.find(|place| !subject.is_entry(*place)) else {
        return listing_help(subject, finding, &places);
    };
    let begin = begin_help(subject, finding.task, to, &places)?;
    let help = meant_help(subject, finding, to, begin)?;
    slot_or(subject, finding.index, to, help)
}

/// What to do where a task continues to these places, and none begins at this one of them: to let one begin, as a target.
fn begin_help(subject: &Subject, task: u32, to: u32, places: &[u32]) -> Made<Help> {
    let alloc = subject.alloc();
    let name = subject.task(task);
    let besides = words!(in alloc; ", and make it a target of task {name}")?;
    let message = task_to_begin(subject, to, besides.as_str())?;
    let changes = match going_on(subject, task, places)? {
        Some(going) => going.changes,
        None => Vec::new(alloc),
    };
    Ok(help(message, changes))
}

/// The code index, past the last instruction, to which an instruction leads inside the task.
pub fn beyond(subject: &Subject, index: u32) -> u32 {
    let onward = subject.inner(index, false);
    let past = onward.filter(|place| *place as usize >= subject.code().len());
    past.or(subject.inner(index, true)).unwrap_or(0)
}

/// The help for an edge that leads past the last instruction.
///
/// # Errors
///
/// `AllocError` where memory was refused.
pub fn beyond_help(subject: &Subject, index: u32) -> Made<Help> {
    let alloc = subject.alloc();
    let message = if beyond(subject, index) as usize == subject.code().len() {
        Words::of(alloc, "add halt at the end of the code")?
    } else {
        last_words(subject)?
    };
    Ok(in_words(alloc, message))
}

/// Whether an exit of an instruction that a task reaches leads to this code index; exits through a register do not count.
pub fn is_taken(subject: &Subject, task: u32, to: u32) -> bool
    ensures { result ≡ is_taken subject.now task to }
{
    subject.entries(task).iter().any(|entry| {
        is_end(subject.exit(entry.0, false), to) || is_end(subject.exit(entry.0, true), to)
    })
}

/// The number of a task's first target where no task begins, if there is one.
fn first_wrong(subject: &Subject, task: u32) -> Option<usize>
    ensures { result ≡ position (λ j. not (is_entry subject.now j)) (targets_of subject.now task) }
{
    let targets = subject.targets(task);
    targets
        .iter()
        .position(|target| !subject.is_entry(target.get()))
}

/// The number, from 0, of a task's first target where no task begins; 0 where there is none.
pub fn wrong_number(subject: &Subject, task: u32) -> usize
    ensures { result ≡ wrong_number subject.now task }
{
    first_wrong(subject, task).unwrap_or(0)
}

/// The code index of a task's first target where no task begins; of its first target where there is none.
pub fn wrong_target(subject: &Subject, task: u32) -> u32 {
    let target = subject.targets(task).get(wrong_number(subject, task));
    target.map_or(0, |target| target.get())
}

/// The help for targets where no task begins: to let one begin where the task may continue there, or else not to list them.
///
/// # Errors
///
/// `AllocError` where memory was refused.
pub fn target_help(subject: &Subject, task: u32) -> Made<Help> {
    let alloc = subject.alloc();
    let mut targets = subject.targets(task).iter().map(|target| target.get());
    let wrong = targets.find(|place| {
        !subject.is_entry(*place) && may_go_on(subject, task, *place)
    });
    if let Some(place) = wrong {
        let mut changes = Vec::new(alloc);
        if let Some(label) = subject.label(place) {
            changes.push(task_line(subject, label)?)?;
        }
        return Ok(help(task_to_begin(subject, place, "")?, changes));
    }
    let targets = entries_listed(subject, task)?;
    let text = targets_words(subject, &targets)?;
    let message = words!(in alloc; "no exit leads there: write {text}")?;
    by_text(alloc, message, subject.targets_span(task), text)
}
