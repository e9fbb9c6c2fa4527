//! The warnings about a program's marks, as diagnostics.

ghost use Rattle.std.specs.Prelude.{◌≡◌, ◌<◌, ◌++◌, ◌&&◌, ◌==◌, true, [], not, slice_get, map as each, Ok, IfOk, OnOk};
ghost use Rattle.std.specs.List.{AllZip, list_any};
ghost use Rattle.mark_diagnostics.specs.Fixes.{created_in, produced, still_released};
ghost use Rattle.annotated_asm.specs.ProgramText.{parse};
ghost use Rattle.annotator.specs.Least.{IsLeast};
ghost use Rattle.exit_diagnostics.specs.Remarks.{of_step, of_targets, of_start, of_task, stop_remarks};
ghost use Rattle.mark_subjects.specs.Subjects.{targets_of, releases};
ghost use Rattle.mark_diagnostics.specs.Together.{told_marks};
ghost use Rattle.mark_diagnostics.specs.Warnings.{code_of, span_of, Warns, AreMarkWarnings};

use crate::error::MOST_SHOWN;
use crate::mask::is_among;
use crate::sending::{release_of, writes};
use crate::strayed::{name_label, slot_is_lacked, strayed};
use crate::together::add_marks;
use annotated_asm::laws::map_fits;
use call_returns::returns::{Jump, has_indirect};
use diagnostics::code::Code;
use diagnostics::diagnostic::{Diagnostic, Help, Replacement, Severity, Source, Span};
use diagnostics::listed::Listed;
use diagnostics::more::add_more;
use diagnostics::words;
use diagnostics::words::Words;
use exit_diagnostics::advice::{Advice, Names, Row};
use exit_diagnostics::call::coming_back;
use exit_diagnostics::exit::is_taken;
use exit_diagnostics::going::{Going, going_on};
use exit_diagnostics::jump::{
    is_behind, jump_warnings, leading_anywhere, leading_nowhere, missing_at, missing_of, name_at,
    targets_without,
};
use exit_diagnostics::meant::is_slot;
use exit_diagnostics::remark::{Remark, StopRemark};
use exit_diagnostics::stop::{
    entry_of, first_end, first_untaken, has_exit, has_indirect_exit, has_untaken, never_runs,
    step_into, target_at,
};
use finding_paths::mark::CostlyMark;
use finding_paths::search::costly_marks;
use mark_subjects::parts::{first_of, place_words, places_words, registers_where, registers_words};
use mark_subjects::put_stop::{bit_put, missing_stop};
use mark_subjects::step::{end_help, stop_name};
use mark_subjects::subject::{Made, Subject, has_number};
use mask_certificate::certificate::Cert;
use std::alloc::{AllocError, Global};
use task_descriptor::program::Program;

const NEVER_PRODUCED: Row = Row {
    says: "the create mask of task {task} has {registers}, which no instruction of the task writes or releases",
    help: "write {fix}",
};

const STRAYED: Row = Row {
    help: "does line {line}, which no task reaches, belong to task {task}? else write {create}",
    ..NEVER_PRODUCED
};

const NOT_FORWARDED: Row = Row {
    says: "this is a last update without !f: later tasks wait for what it writes",
    help: "add !f here",
};

const SENT_BY_NEXT: Row = Row {
    says: "this is a last update without !f: {registers} is sent only by the release on line {line}",
    help: "add !f here, and take {registers} out of the release on line {line}, if no other way leads to it",
};

const SENT_BEFORE: &str = "{registers} {was} sent before on each path to this release";

const UNREACHED: Row = Row {
    says: "no task reaches the code from here on",
    help: "{meant}{rest}{moved}",
};

const SLOT_UNREACHED: Row = Row {
    help: "{meant}is it a delay slot? there are none here: move it before line {line}{moved}; else {rest}",
    ..UNREACHED
};

const MAY_LEAD_TO: &str =
    "the {jump} on line {from} may lead here: let a task begin at {label}, as a target of task {returns}; or {rest}";

const NEVER_RUNS: &str =
    "task {task} never runs: no other task has it as a target, and the program starts at {start}";

const TO_LIST: &str =
    "make it a target of another task; or write .start {task}, in place of another .start";

const STARTS_ELSEWHERE: &str =
    "write .start {task}, in place of another .start, or make it a target of another task";

const MAY_LEAD: &str =
    "the {jump} on line {from} may lead here: list {task} in task {returns}; or make it a target of another task";

const RETURNED_TO: &str =
    "the call on line {line} returns here, by the {jump} on line {from}: task {returns}, which ends there, has to list it: write {fix}";

const JUMPED_TO: &str =
    "the {jump} on line {from} leads here: task {returns}, which ends there, has to list it: write {fix}";

const MAY_RETURN: &str =
    "the call on line {line} may return here: if it does, the task that ends in its jr has to list {task}";

const LISTS_NONE: &str =
    "task {returns} ends in the {jump} on line {from}, and lists no target: list {task} there, if the jump leads here; or make it a target of another task";

const NO_EXIT: Row = Row {
    says: "task {task} has targets, but never reaches a stop",
    help: "put !s, !st or !sn where it is to end",
};

const NOT_TAKEN: Row = Row {
    says: "no exit of task {task} leads to {places}, so predicting {places} is always wrong",
    help: "is a stop missing? else write {fix}",
};

const GOES_INTO: &str =
    "task {task} continues into task {into} without a stop; was {word} meant here?";

/// What a remark is an instance of.
fn code_of(remark: &Remark) -> Code
    ensures { result ≡ code_of remark.now }
{
    match remark {
        Remark::Costly { mark, .. } => match mark {
            CostlyMark::NeverProduced { .. } => Code::NeverProduced,
            CostlyMark::NotForwarded { .. } => Code::NotForwarded,
            CostlyMark::SentBefore { .. } => Code::SentBefore,
            CostlyMark::Unreached { .. } => Code::Unreached,
        },
        Remark::Stop(StopRemark::NeverRuns(_)) => Code::Unreached,
        Remark::Stop(StopRemark::NoExit(_)) => Code::NoExit,
        Remark::Stop(StopRemark::NotTaken(_)) => Code::TargetNotTaken,
        Remark::Stop(StopRemark::GoesInto { .. }) => Code::GoesIntoTask,
    }
}

/// What is meant.
fn span_of(subject: &Subject, remark: &Remark) -> Span
    ensures { result ≡ span_of subject.now remark.now }
{
    match remark {
        Remark::Costly { mark, .. } => match mark {
            CostlyMark::NeverProduced { task, .. } => subject.create_span(*task),
            CostlyMark::NotForwarded { index }
            | CostlyMark::SentBefore { index, .. }
            | CostlyMark::Unreached { index } => subject.span(*index),
        },
        Remark::Stop(StopRemark::GoesInto { index, .. }) => subject.span(*index),
        Remark::Stop(StopRemark::NeverRuns(task)) => subject.task_span(*task),
        Remark::Stop(StopRemark::NoExit(task)) => subject.targets_span(*task),
        Remark::Stop(StopRemark::NotTaken(task)) => {
            subject.target_span(*task, first_untaken(subject, *task))
        },
    }
}

/// Whether the create mask of a task has a register.
pub(crate) fn is_created(subject: &Subject, task: u32, number: u8) -> bool
    requires { number < 34 }
    ensures { result ≡ created_in (slice_get subject.now.program.tasks task) number }
{
    match subject.tasks().get(task as usize) {
        Some(descriptor) => has_number(descriptor.create, number),
        None => false,
    }
}

/// Whether the create mask of a task has a register that is not among some.
fn is_produced(subject: &Subject, task: u32, gone: &[u8], number: u8) -> bool
    requires { number < 34 }
    ensures { result ≡ (created_in (slice_get subject.now.program.tasks task) number && not (list_any (λ q. q == number) gone.now)) }
{
    is_created(subject, task, number) && !is_among(gone, number)
}

/// The create mask of a task without some registers.
fn produced(subject: &Subject, task: u32, gone: &[u8]) -> Made<Vec<u8>>
    ensures { IfOk result (λ list. list.items ≡ produced subject.now task gone.now) }
{
    let alloc = subject.alloc();
    registers_where(alloc, |number| is_produced(subject, task, gone, number))
}

/// What is said of these registers of a create mask, which are never produced.
fn mask_advice(subject: &Subject, task: u32, gone: &[u8]) -> Made<Advice> {
    let alloc = subject.alloc();
    let kept = produced(subject, task, gone)?;
    let kept = registers_words(subject, &kept)?;
    let create = words!(in alloc; "create={kept}")?;
    let mut names = Names::of_task(subject, task)?;
    names.add("registers", registers_words(subject, gone)?)?;
    let Some(index) = strayed(subject, task, gone) else {
        return names.fixed(NEVER_PRODUCED, subject.create_span(task), create);
    };
    names.add("line", subject.span(index).line)?;
    names.add("create", create)?;
    names.said(STRAYED, Vec::new(alloc))
}

/// What is said of a last update without a forward bit.
fn update_advice(subject: &Subject, index: u32) -> Made<Advice> {
    let alloc = subject.alloc();
    let changes = vec![in alloc; bit_put(subject, index)?]?;
    let mut names = Names::new(alloc);
    let Some(next) = subject.inner(index, false) else {
        return names.said(NOT_FORWARDED, changes);
    };
    let kept = registers_where(alloc, |register| {
        writes(subject, index, register) && !subject.releases(next, register)
    })?;
    if !kept.is_empty() {
        return names.said(NOT_FORWARDED, changes);
    }
    let written = registers_where(alloc, |register| writes(subject, index, register))?;
    names.add("registers", registers_words(subject, &written)?)?;
    names.add("line", subject.span(next).line)?;
    names.said(SENT_BY_NEXT, changes)
}

/// Whether an instruction releases a register that is not among some.
fn is_still_released(subject: &Subject, index: u32, gone: &[u8], number: u8) -> bool
    requires { number < 34 }
    ensures { result ≡ (releases subject.now index number && not (list_any (λ q. q == number) gone.now)) }
{
    subject.releases(index, number) && !is_among(gone, number)
}

/// The registers of a release without some.
pub(crate) fn still_released(subject: &Subject, index: u32, gone: &[u8]) -> Made<Vec<u8>>
    ensures { IfOk result (λ list. list.items ≡ still_released subject.now index gone.now) }
{
    let alloc = subject.alloc();
    registers_where(
        alloc,
        |number| is_still_released(subject, index, gone, number),
    )
}

/// What is said of these registers of a release, which were sent before it.
fn release_advice(subject: &Subject, index: u32, gone: &[u8]) -> Made<Advice> {
    let alloc = subject.alloc();
    let kept = still_released(subject, index, gone)?;
    let (kept, change) = release_of(subject, index, &kept)?;
    let is_empty = kept.as_str().is_empty();
    let mut names = Names::new(alloc);
    names.add("registers", registers_words(subject, gone)?)?;
    names.add("was", if gone.len() == 1 { "was" } else { "were" })?;
    names.add("kept", kept)?;
    let help = if is_empty {
        "remove it"
    } else {
        "write {kept}"
    };
    let help = names.help(help, vec![in alloc; change]?)?;
    Ok((names.filled(SENT_BEFORE)?, help))
}

/// What to do about code behind a call that may come back to it, with the words that this needs: the changes that let a task
/// begin there, if it is seen which task comes back.
fn coming_changes(subject: &Subject, index: u32, names: &mut Names) -> Made<Vec<Replacement>> {
    let alloc = subject.alloc();
    let seen = missing_at(subject, index).map(|jump| jump.task);
    match seen.or(coming_back(subject, index.saturating_sub(1))) {
        Some(task) => {
            let name = subject.task(task);
            names.add("coming", words!(in alloc; "task {name}")?)?;
        }
        None => names.add("coming", "the task that comes back")?,
    }
    if let Some(task) = seen {
        if let Some(Going { changes, .. }) = going_on(subject, task, &[index])? {
            return Ok(changes);
        }
    }
    Ok(Vec::new(alloc))
}

/// What is said of code that no task reaches: a call before it may come back to it, and one instruction may be meant as
/// a delay slot. What would be removed may be counted by a place that is given as @n.
fn unreached_advice(subject: &Subject, index: u32) -> Made<Advice> {
    let alloc = subject.alloc();
    let mut names = Names::new(alloc);
    let is_alone = is_slot(subject, index);
    names.add("line", subject.span(index.saturating_sub(1)).line)?;
    let mut changes = Vec::new(alloc);
    let rest = if is_behind(subject, index) {
        changes = coming_changes(subject, index, &mut names)?;
        "let a task begin here, as a target of {coming}: the call on line {line} may come back to it"
    } else if !subject.names_no_index() {
        "let a task continue to it"
    } else if is_alone {
        "let a task continue to it, or remove it"
    } else {
        "let a task continue to it; or remove it, up to the next instruction that a task reaches, if no label there is used"
    };
    let rest = names.filled(rest)?;
    names.add("rest", led_or(subject, index, rest)?)?;
    let is_lacked = is_alone && slot_is_lacked(subject, index)?;
    if is_lacked || name_label(subject, index, &mut names)? {
        changes = Vec::new(alloc);
    }
    names.said(if is_alone { SLOT_UNREACHED } else { UNREACHED }, changes)
}

/// Adds the words of a jump by which a task leaves.
fn name_jump(subject: &Subject, names: &mut Names, jump: &Jump) -> Made<()> {
    names.add("returns", subject.task(jump.task))?;
    names.add("jump", name_at(subject, jump.index))?;
    names.add("from", subject.span(jump.index).line)
}

/// What to do about code with a label that no task reaches: first about a jump that may lead to it, which is no return.
fn led_or(subject: &Subject, index: u32, rest: Words) -> Made<Words> {
    match (subject.label(index), leading_anywhere(subject)) {
        (Some(label), Some(jump)) if !is_behind(subject, index) => {
            let mut names = Names::new(subject.alloc());
            name_jump(subject, &mut names, jump)?;
            names.add("label", label)?;
            names.add("rest", rest)?;
            names.filled(MAY_LEAD_TO)
        }
        _ => Ok(rest),
    }
}

/// What to do about a task that never runs, to which a jump leads whose task does not list it: behind a call, which returns,
/// or not.
fn jumped_help(subject: &Subject, jump: &Jump, entry: u32, names: &mut Names) -> Made<Help> {
    let missing = missing_of(subject, jump.task)?;
    let Some(Going { targets, changes }) = going_on(subject, jump.task, &missing)? else {
        return names.advice(MAY_RETURN);
    };
    name_jump(subject, names, jump)?;
    names.add("fix", targets)?;
    let is_returned = is_behind(subject, entry);
    names.help(if is_returned { RETURNED_TO } else { JUMPED_TO }, changes)
}

/// What to do about a task that never runs: first at one that goes on into it without a stop, or returns to it. Where it is
/// not seen what leads to it, the first of the text may be the program's start; to another a jump may lead, which is no
/// return; and the start may not be said.
fn running_help(subject: &Subject, task: u32, names: &mut Names) -> Made<Help> {
    if let Some((other, index)) = step_into(subject, task)? {
        return end_help(subject, other, index, task);
    }
    let entry = entry_of(subject, task);
    names.add("line", subject.span(entry.saturating_sub(1)).line)?;
    if let Some(jump) = missing_at(subject, entry) {
        return jumped_help(subject, jump, entry, names);
    }
    if is_behind(subject, entry) {
        return names.advice(MAY_RETURN);
    }
    if let Some(jump) = leading_nowhere(subject) {
        name_jump(subject, names, jump)?;
        return names.advice(LISTS_NONE);
    }
    match leading_anywhere(subject) {
        Some(jump) if entry != 0 => {
            name_jump(subject, names, jump)?;
            names.advice(MAY_LEAD)
        }
        None if entry != 0 && says_start(subject) => names.advice(TO_LIST),
        _ => names.advice(STARTS_ELSEWHERE),
    }
}

/// What is said of a task that never runs.
fn never_running(subject: &Subject, task: u32) -> Made<Advice> {
    let mut names = Names::of_task(subject, task)?;
    let start = subject.program().start().get();
    names.add("start", place_words(subject, start)?)?;
    let help = running_help(subject, task, &mut names)?;
    Ok((names.filled(NEVER_RUNS)?, help))
}

/// Whether the text says where the program starts.
fn says_start(subject: &Subject) -> bool {
    subject.rows().iter().any(|row| {
        row.windows(6).any(|bytes| matches!(bytes, [b'.', b's', b't', b'a', b'r', b't']))
    })
}

/// Where a task goes on into a target, and may end before it: the first instruction that does so, and the target.
fn step_out(subject: &Subject, task: u32) -> Option<(u32, u32)> {
    let index = first_end(subject, task)?;
    Some((index, target_at(subject, task, index)?))
}

/// What is said of targets that no exit takes: first of a stop before one of them.
fn targets_advice(subject: &Subject, task: u32) -> Made<Advice> {
    let places = subject.targets(task).iter().map(|target| target.get());
    let untaken: Vec<u32> = places
        .filter(|place| !is_taken(subject, task, *place))
        .collect(subject.alloc())?;
    match step_out(subject, task) {
        Some((index, into)) if untaken.contains(&entry_of(subject, into)) => {
            let mut names = Names::of_task(subject, task)?;
            names.add("places", places_words(subject, &untaken)?)?;
            let help = end_help(subject, task, index, into)?;
            Ok((names.filled(NOT_TAKEN.says)?, help))
        }
        _ => targets_without(subject, task, NOT_TAKEN, &untaken),
    }
}

/// What is said of a task with targets that never reaches a stop.
fn exit_advice(subject: &Subject, task: u32) -> Made<Advice> {
    let names = Names::of_task(subject, task)?;
    let help = match step_out(subject, task) {
        Some((index, into)) => end_help(subject, task, index, into)?,
        None => names.advice(NO_EXIT.help)?,
    };
    Ok((names.filled(NO_EXIT.says)?, help))
}

/// What is said of an instruction that goes on into a target without a stop.
fn step_advice(subject: &Subject, task: u32, index: u32, into: u32) -> Made<Advice> {
    let mut names = Names::of_task(subject, task)?;
    names.add("into", subject.task(into))?;
    names.add("word", stop_name(missing_stop(subject, index)))?;
    let help = end_help(subject, task, index, into)?;
    Ok((names.filled(GOES_INTO)?, help))
}

/// What is said of a remark, and what to do: of a mark that costs speed with the registers of all that it stands for.
fn advice(subject: &Subject, remark: &Remark) -> Made<Advice> {
    match remark {
        Remark::Costly { mark, registers } => match mark {
            CostlyMark::NeverProduced { task, .. } => {
                mask_advice(subject, *task, registers.as_slice())
            }
            CostlyMark::NotForwarded { index } => update_advice(subject, *index),
            CostlyMark::SentBefore { index, .. } => {
                release_advice(subject, *index, registers.as_slice())
            }
            CostlyMark::Unreached { index } => unreached_advice(subject, *index),
        },
        Remark::Stop(StopRemark::NeverRuns(task)) => never_running(subject, *task),
        Remark::Stop(StopRemark::NotTaken(task)) => targets_advice(subject, *task),
        Remark::Stop(StopRemark::NoExit(task)) => exit_advice(subject, *task),
        Remark::Stop(StopRemark::GoesInto { task, index, into }) => {
            step_advice(subject, *task, *index, *into)
        }
    }
}

/// The warning for a remark.
fn warning(subject: &Subject, remark: &Remark) -> Made<Diagnostic>
    ensures { IfOk result (λ said. Warns subject.now remark.now said) }
{
    let (message, help) = advice(subject, remark)?;
    Ok(Diagnostic {
        severity: Severity::Warning,
        code: code_of(remark),
        source: Source::Program,
        span: Some(span_of(subject, remark)),
        message,
        notes: Listed::new(Vec::new(subject.alloc())),
        help: Some(help),
    })
}

/// The warnings for some remarks.
fn warnings(subject: &Subject, remarks: &[Remark]) -> Made<Vec<Diagnostic>>
    ensures { IfOk result (λ said. AllZip (Warns subject.now) remarks.now said.items) }
{
    let mut said = Vec::new(subject.alloc());
    for remark in remarks {
        let one = warning(subject, remark)?;
        said.push(one)?;
    }
    Ok(said)
}

/// Adds what is remarked of a task's first instruction that goes on into a target.
fn add_of_step(subject: &Subject, list: &mut Vec<StopRemark>, task: u32) -> Made<()>
    ensures { OnOk result (list.new.items ≡ list.old.items ++ of_step subject.now task) }
{
    let Some(index) = first_end(subject, task) else {
        return Ok(());
    };
    let Some(into) = target_at(subject, task, index) else {
        return Ok(());
    };
    list.push(StopRemark::GoesInto { task, index, into })?;
    Ok(())
}

/// Adds what is remarked of the exits of a task, if it has targets.
fn add_of_exits(subject: &Subject, list: &mut Vec<StopRemark>, task: u32) -> Made<()>
    ensures { OnOk result (list.new.items ≡ list.old.items ++ of_targets (targets_of subject.now task) subject.now task) }
{
    let [_, ..] = subject.targets(task) else {
        return Ok(());
    };
    if !has_exit(subject, task) {
        list.push(StopRemark::NoExit(task))?;
        return Ok(());
    }
    if has_indirect_exit(subject, task) || !has_untaken(subject, task) {
        return add_of_step(subject, list, task);
    }
    list.push(StopRemark::NotTaken(task))?;
    Ok(())
}

/// Adds that a task never runs, if it does not.
fn add_of_start(subject: &Subject, list: &mut Vec<StopRemark>, task: u32) -> Made<()>
    ensures { OnOk result (list.new.items ≡ list.old.items ++ of_start subject.now task) }
{
    if never_runs(subject, task) {
        list.push(StopRemark::NeverRuns(task))?;
    }
    Ok(())
}

/// Adds what is remarked of a task.
fn add_of_task(subject: &Subject, list: &mut Vec<StopRemark>, task: u32) -> Made<()>
    ensures { OnOk result (list.new.items ≡ list.old.items ++ of_task subject.now task) }
{
    add_of_start(subject, list, task)?;
    add_of_exits(subject, list, task)
}

/// What is remarked of a program, one task after another; of each at most two things.
fn stop_remarks(subject: &Subject) -> Made<Vec<StopRemark>>
    ensures { IfOk result (λ list. list.items ≡ stop_remarks subject.now) }
{
    let mut list = Vec::new(subject.alloc());
    let program = subject.program();
    for task in 0..program.tasks().len() {
        add_of_task(subject, &mut list, task as u32)?;
    }
    Ok(list)
}

/// All remarks: what may be forgotten, and then the marks that cost speed, of one create mask or one release all at once.
fn all_remarks(alloc: Global, stops: &[StopRemark], list: &[CostlyMark]) -> Made<Vec<Remark>>
    ensures { IfOk result (λ remarks. remarks.items ≡ each (λ stop. Remark.Stop stop) stops.now ++ told_marks list.now) }
{
    let mut remarks = Vec::new(alloc);
    for stop in stops {
        remarks.push(Remark::Stop(*stop))?;
    }
    add_marks(alloc, &mut remarks, list)?;
    Ok(remarks)
}

/// Both lists, one after the other.
fn joined(mut first: Vec<Diagnostic>, mut second: Vec<Diagnostic>) -> Made<Vec<Diagnostic>>
    ensures { IfOk result (λ all. all.items ≡ first.items ++ second.items) }
{
    first.append(&mut second)?;
    Ok(first)
}

/// Whether there is nothing to warn of.
fn is_silent(list: &[CostlyMark], stops: &[StopRemark], program: &Program) -> bool
    ensures { result ≡ true → (list.now ≡ []) × (stops.now ≡ []) }
{
    match (list, stops) {
        ([], []) => !has_indirect(program),
        _ => false,
    }
}

/// The warnings about the marks of the program that a text spells. `least` is the program's least certificate.
///
/// First come those where a stop or a way to a task may be forgotten, and those of marks that cost speed, of one create mask
/// or one release all at once: together at most `MOST_SHOWN`. Then come those about jumps to addresses in registers that
/// lead where the task lists no target, and last a note with how many of the former are not shown.
///
/// # Errors
///
/// `AllocError` where memory was refused.
pub fn mark_warnings(
    alloc: Global,
    text: &[u8],
    program: &Program,
    least: &Cert,
) -> Result<Vec<Diagnostic>, AllocError>
    requires spelled { parse text.now ≡ Ok program.now }
    requires least { IsLeast program.now least.now }
    ensures { IfOk result (λ said. AreMarkWarnings text.now program.now least.now said.items) }
{
    // The text has a source map, which is made only where there is something to warn of.
    map_fits();
    let list = costly_marks(alloc, program, least)?;
    let bare = Subject::without_text(alloc, program, least);
    let stops = stop_remarks(&bare)?;
    if is_silent(&list, &stops, program) {
        return Ok(Vec::new(alloc));
    }
    let subject = Subject::read(alloc, text, program, least)?;
    let remarks = all_remarks(alloc, &stops, &list)?;
    let shown = first_of(&remarks, MOST_SHOWN);
    let warned = warnings(&subject, shown)?;
    let jumps = jump_warnings(&subject)?;
    let mut said = joined(warned, jumps)?;
    let count = remarks.len();
    let more = count.saturating_sub(MOST_SHOWN);
    add_more(
        alloc,
        &mut said,
        Source::Program,
        more,
        "warning",
        "warnings",
    )?;
    Ok(said)
}
