//! The diagnostic for a create mask that lacks registers.

ghost use Rattle.std.specs.Prelude.{◌≡◌, ◌||◌, ◌<◌, ◌==◌, map as each, IfOk, OnOk};
ghost use Rattle.std.specs.List.{flat_map, list_any};
ghost use Rattle.std.specs.Option.{option_copied};
ghost use Rattle.mips_instructions.specs.Words.{has};
ghost use Rattle.mark_diagnostics.specs.Fixes.{widened};
ghost use Rattle.mark_subjects.specs.Parts.{paths, shown_path};
ghost use Rattle.mark_diagnostics.specs.Told.{register_in as register_of};
ghost use Rattle.mark_diagnostics.specs.Errors.{path_shown};

use crate::sending::{release_of, written_from};
use crate::told::register_in;
use crate::warning::still_released;
use diagnostics::diagnostic::{Help, Note, Replacement};
use diagnostics::listed::Listed;
use diagnostics::words;
use diagnostics::words::Words;
use exit_diagnostics::advice::Names;
use exit_diagnostics::stop::entry_of;
use finding_paths::shown::ShownFinding;
use mark_checker::finding::{Finding, Rule};
use mark_subjects::parts::{
    last_or, path_note, registers_where, registers_words, rest_after, written,
};
use mark_subjects::step::path_in;
use mark_subjects::subject::{Made, Subject, has_number};
use mips_instructions::number::RegSet;
use std::alloc::Global;
use task_descriptor::descriptor::Descriptor;

const OUT: &str =
    "take {registers} out of {places}, since no instruction of task {task} writes {them}{more}; or write {create}";

/// The registers of some findings.
pub(crate) fn missing(alloc: Global, findings: &[Finding]) -> Made<Vec<u8>>
    ensures { IfOk result (λ list. list.items ≡ each (λ f. register_of f.reg) findings.now) }
{
    findings
        .iter()
        .map(|finding| register_in(finding.reg))
        .collect(alloc)
}

/// The note on a register that is missing: the end of the path writes it, or sends it.
fn register_note(subject: &Subject, shown: &ShownFinding) -> Made<Note>
    ensures { IfOk result (λ note. shown_path note.path ≡ path_shown subject.now shown.now) }
{
    let finding = &shown.finding;
    let path = path_in(shown);
    let register = subject.register(register_in(finding.reg));
    let how = match finding.rule {
        Rule::ExceedsCreate => "written",
        _ => "sent",
    };
    let message = words!(in subject.alloc(); "{register} is {how} here")?;
    path_note(subject, last_or(finding.index, path), message, path)
}

/// The notes on registers that are missing.
#[tactic(auto, using(mark_subjects::proofs::Paths::none_yet))]
fn register_notes(subject: &Subject, shown: &[ShownFinding]) -> Made<Vec<Note>>
    ensures { IfOk result (λ notes. paths notes.items ≡ flat_map (path_shown subject.now) shown.now) }
{
    let mut notes = Vec::new(subject.alloc());
    for one in shown {
        let note = register_note(subject, one)?;
        notes.push(note)?;
    }
    Ok(notes)
}

/// Adds the note on the registers for which there is none of their own.
#[tactic(auto, using(mark_subjects::proofs::Paths::none_added))]
fn add_further_note(subject: &Subject, notes: &mut Vec<Note>, further: &[u8]) -> Made<()>
    ensures { OnOk result (paths notes.new.items ≡ paths notes.old.items) }
{
    let [_, ..] = further else {
        return Ok(());
    };
    let list = registers_words(subject, further)?;
    let message = words!(in subject.alloc(); "it writes or sends these, too: {list}")?;
    let note = Note {
        span: None,
        message,
        path: Listed::new(Vec::new(subject.alloc())),
    };
    notes.push(note)?;
    Ok(())
}

/// How the registers are known to be missing.
pub(crate) fn mask_notes(
    subject: &Subject,
    about: &[Finding],
    shown: &[ShownFinding],
) -> Made<Vec<Note>>
    ensures { IfOk result (λ notes. paths notes.items ≡ flat_map (path_shown subject.now) shown.now) }
{
    let mut notes = register_notes(subject, shown)?;
    let further = missing(subject.alloc(), rest_after(about, 5))?;
    add_further_note(subject, &mut notes, &further)?;
    Ok(notes)
}

/// Whether a register is among some.
pub(crate) fn is_among(registers: &[u8], number: u8) -> bool
    ensures { result ≡ list_any (λ q. q == number) registers.now }
{
    registers.iter().any(|other| *other == number)
}

/// Whether a register is in a set or among some more.
fn is_in(create: RegSet, missing: &[u8], number: u8) -> bool
    requires { number < 34 }
    ensures { result ≡ (has create number || list_any (λ q. q == number) missing.now) }
{
    has_number(create, number) || is_among(missing, number)
}

/// The create mask of a task with some more registers.
fn widened(alloc: Global, descriptor: Option<&Descriptor>, missing: &[u8]) -> Made<Vec<u8>>
    ensures { IfOk result (λ list. list.items ≡ widened (option_copied descriptor.entry) missing.now) }
{
    match descriptor {
        Some(task) => registers_where(alloc, |number| is_in(task.create, missing, number)),
        None => missing.to_vec(alloc),
    }
}

/// `create=` of a task with the registers of some findings, too.
fn create_words(subject: &Subject, task: u32, about: &[Finding]) -> Made<Words> {
    let alloc = subject.alloc();
    let missing = missing(alloc, about)?;
    let registers = widened(alloc, subject.tasks().get(task as usize), &missing)?;
    let list = registers_words(subject, &registers)?;
    words!(in alloc; "create={list}")
}

/// Whether an instruction releases the register of one of these findings.
fn releases_any(subject: &Subject, findings: &[Finding], index: u32) -> bool {
    findings.iter().any(|finding| subject.releases(index, register_in(finding.reg)))
}

/// That some registers are taken out of each release of a task.
fn out_of_releases(subject: &Subject, task: u32, gone: &[u8]) -> Made<Vec<Replacement>> {
    let mut changes = Vec::new(subject.alloc());
    for (index, _) in subject.entries(task) {
        let kept = still_released(subject, *index, gone)?;
        let all = still_released(subject, *index, &[])?;
        if kept.len() < all.len() {
            let (_, change) = release_of(subject, *index, &kept)?;
            changes.push(change)?;
        }
    }
    Ok(changes)
}

/// What to do about a create mask that lacks the registers of some findings: the one that mends all; or, of those that are
/// only released, to take them out of the release.
pub(crate) fn mask_help(subject: &Subject, task: u32, about: &[Finding]) -> Made<Help> {
    let alloc = subject.alloc();
    let span = subject.create_span(task);
    let create = create_words(subject, task, about)?;
    let entry = Some(entry_of(subject, task));
    let with = |is_sought: bool| -> Made<Vec<Finding>> {
        let findings = about.iter().copied();
        let sought = findings.filter(|finding| {
            written_from(subject, task, entry, register_in(finding.reg)) == is_sought
        });
        sought.collect(alloc)
    };
    let unwritten = with(false)?;
    let Some(first) = unwritten.first() else {
        return written(alloc, span, create);
    };
    let mut names = Names::of_task(subject, task)?;
    names.add("create", create)?;
    let registers = missing(alloc, &unwritten)?;
    names.add("registers", registers_words(subject, &registers)?)?;
    names.add("them", if registers.len() == 1 { "it" } else { "them" })?;
    let mut changes = out_of_releases(subject, task, &registers)?;
    let entries = subject.entries(task).iter();
    let mut elsewhere = entries.filter(|entry| entry.0 != first.index);
    if elsewhere.any(|entry| releases_any(subject, &unwritten, entry.0)) {
        names.add("places", "each release")?;
    } else {
        let line = subject.span(first.index).line;
        names.add("places", words!(in alloc; "the release on line {line}")?)?;
    }
    if unwritten.len() < about.len() {
        let written = with(true)?;
        let text = create_words(subject, task, &written)?;
        names.add("more", words!(in alloc; ", and write {text}")?)?;
        changes.push(Replacement { span, text })?;
    }
    names.help(OUT, changes)
}
