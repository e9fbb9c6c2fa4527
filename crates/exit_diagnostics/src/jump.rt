//! Diagnostics about jumps to addresses in registers: where they lead that is no target, and targets to which no call
//! returns.

ghost use Rattle.std.specs.Prelude.{◌≡◌, true, IfOk, IfSome, OnOk};
ghost use Rattle.std.specs.List.{All};
ghost use Rattle.exit_diagnostics.specs.Jumps.{IsOfJump, is_jump_code};

use crate::advice::{Advice, Names, Row};
use crate::call::{coming_back, stale_or};
use crate::exit::is_taken;
use crate::going::{Going, going_on, name_of};
use crate::meant::is_slot;
use crate::stop::{entry_of, never_runs};
use call_returns::returns::{Jump, behind};
use diagnostics::code::Code;
use diagnostics::diagnostic::{Diagnostic, Help, Replacement, Severity, Source};
use diagnostics::listed::Listed;
use diagnostics::words;
use diagnostics::words::Words;
use mark_subjects::parts::{place_words, places_words, targets_words};
use mark_subjects::subject::{Made, Subject, is_end};
use mark_subjects::targets::{entries_listed, is_among};
use mips_instructions::instruction::Op;

const NOT_LISTED: Row = Row {
    says: "task {task} does not list {places}, where its {jump} on line {line} leads{back}",
    help: "write {fix}{tasks}",
};

const BEYOND_LISTS: &str =
    "a task has at most 16 targets, and begins at a label: give each of these places one, or let fewer calls return here";

const NO_TARGET: Row = Row {
    says: "task {task} ends in the {jump} on line {line}, and lists no target",
    help: "list the places to which it leads",
};

const UNCALLED: &str =
    "task {task} ends in the {jump} on line {line}, though no call came here: the register holds what it held at the start";

const HALT_MEANT: &str = "if the program ends here, write halt";

const CALL_MEANT: &str =
    "is jal meant on line {from}, as on line {call}? else, if the program ends here, write halt";

const START_MEANT: &str =
    "is the program to start at {first}? else, if the program ends here, write halt";

const SWAPPED: Row = Row {
    says: "the jalr on line {line} jumps through {through}, and puts the return address into {register}",
    help: "are its operands swapped? write jalr {through},{register}",
};

const NO_RETURN: Row = Row {
    says: "no call returns to {places} from task {task}, which lists it",
    help: "write {fix}",
};

/// The kind of a warning about a jump.
#[derive(Clone, Copy)]
enum JumpKind {
    /// It is seen to lead to a place that its task does not list.
    NotListed,
    /// Its task lists a target to which no call is seen to return.
    NoReturn,
}

/// The mnemonic of the instruction at a code index; empty where there is none.
pub fn name_at(subject: &Subject, index: u32) -> &'static str {
    subject.op(index).map_or("", |op| op.name())
}

/// Whether a place is the return point of a call.
pub fn is_behind(subject: &Subject, place: u32) -> bool {
    is_end(behind(subject.program(), place.saturating_sub(1)), place)
}

/// Whether a jump is seen to lead to a place which its task does not list, and the task does not begin there itself.
fn misses(subject: &Subject, jump: &Jump, place: u32) -> bool {
    jump.places.contains(&place)
        && !is_among(subject.targets(jump.task), place)
        && entry_of(subject, jump.task) != place
}

/// The first jump that is seen to lead to a place which its task does not list, of a task that does not begin there itself.
/// If the place is the return point of a call, the jump of the task that returns from the call comes first.
pub fn missing_at<'a>(subject: &'a Subject, place: u32) -> Option<&'a Jump> {
    let jumps = subject.returns().jumps();
    let coming = if is_behind(subject, place) {
        coming_back(subject, place.saturating_sub(1))
    } else {
        None
    };
    let first = jumps.iter().find(|jump| is_end(coming, jump.task) && misses(subject, jump, place));
    first.or(jumps.iter().find(|jump| misses(subject, jump, place)))
}

/// The first jump of a task without targets of which it is not seen where it leads.
pub fn leading_nowhere<'a>(subject: &'a Subject) -> Option<&'a Jump> {
    let mut jumps = subject.returns().jumps().iter();
    jumps.find(|jump| subject.targets(jump.task).is_empty() && !jump.is_whole)
}

/// The register whose address a `jr` jumps to; `None` where no `jr` is at the code index.
pub(crate) fn held_by_jr(subject: &Subject, index: u32) -> Option<u8> {
    match subject.code().get(index as usize)?.op {
        Op::JumpReg(register) => Some(register.get()),
        _ => None,
    }
}

/// The first jump other than `jr $31` of which not all places are seen to which it leads.
pub fn leading_anywhere<'a>(subject: &'a Subject) -> Option<&'a Jump> {
    let mut jumps = subject.returns().jumps().iter();
    jumps.find(|jump| !jump.is_whole && held_by_jr(subject, jump.index) != Some(31))
}

/// Adds the places of a jump that its task does not list and `missing` does not have.
pub(crate) fn add_missing(subject: &Subject, jump: &Jump, missing: &mut Vec<u32>) -> Made<()> {
    for place in &jump.places {
        if !is_among(subject.targets(jump.task), *place) && !missing.contains(place) {
            missing.push(*place)?;
        }
    }
    Ok(())
}

/// The places to which the jumps of a task are seen to lead and which it does not list, each once.
///
/// # Errors
///
/// `AllocError` where memory was refused.
pub fn missing_of(subject: &Subject, task: u32) -> Made<Vec<u32>> {
    let mut missing = Vec::new(subject.alloc());
    for jump in subject.returns().jumps() {
        if jump.task == task {
            add_missing(subject, jump, &mut missing)?;
        }
    }
    Ok(missing)
}

/// Whether some task reaches an instruction.
pub fn is_reached(subject: &Subject, index: u32) -> bool {
    (0..subject.task_count()).any(|task| subject.mask(task, index).is_some())
}

/// Whether it is said of a place that no task comes to it: of the task that begins there, which never runs, or of the code
/// behind a call; and so that this task does not list it. Of a delay slot nothing else is said.
fn is_told(subject: &Subject, task: u32, place: u32) -> bool {
    if is_slot(subject, place) && !is_reached(subject, place) {
        return true;
    }
    let is_lost = match subject.task_at(place) {
        Some(other) => never_runs(subject, other),
        None => is_behind(subject, place) && !is_reached(subject, place),
    };
    is_lost && missing_at(subject, place).is_some_and(|jump| jump.task == task)
}

/// The calls that return to some places, in words: their lines.
pub(crate) fn back_words(subject: &Subject, jump: &Jump, places: &[u32]) -> Made<Words> {
    let alloc = subject.alloc();
    let calls = places.iter().filter(|place| jump.returns.contains(*place));
    let lines = calls.map(|place| subject.span(place.saturating_sub(1)).line);
    let lines = lines.map(|line| format!(in alloc; "{line}"));
    let lines: Vec<String> = lines.try_collect(alloc)?;
    let list = lines.join(alloc, ",")?;
    match lines.len() {
        0 => Words::of(alloc, ""),
        1 => words!(in alloc; ": the call on line {list} returns there"),
        _ => words!(in alloc; ": the calls on lines {list} return there"),
    }
}

/// The words of what is said of a jump.
fn names_of(subject: &Subject, jump: &Jump) -> Made<Names> {
    let mut names = Names::of_task(subject, jump.task)?;
    names.add("line", subject.span(jump.index).line)?;
    names.add("jump", name_at(subject, jump.index))?;
    Ok(names)
}

/// In words, that tasks have to begin at some places.
fn tasks_words(subject: &Subject, places: &[u32]) -> Made<Words> {
    let alloc = subject.alloc();
    let mut text = String::new(alloc);
    for place in places {
        if !subject.is_entry(*place) {
            let name = name_of(subject, *place)?;
            write!(text, ", and add a line .task {name} create=- targets=-")?;
        }
    }
    Ok(Words::new(text))
}

/// What is said of places that a task does not list, to which this jump of it leads among others.
fn missing_said(subject: &Subject, jump: &Jump, missing: &[u32]) -> Made<Advice> {
    let mut names = names_of(subject, jump)?;
    names.add("places", places_words(subject, missing)?)?;
    names.add("back", back_words(subject, jump, missing)?)?;
    names.add("tasks", tasks_words(subject, missing)?)?;
    let help = match going_on(subject, jump.task, missing)? {
        Some(Going { targets, changes }) => {
            names.add("fix", targets)?;
            names.help(NOT_LISTED.help, changes)?
        }
        None => names.advice(BEYOND_LISTS)?,
    };
    let help = stale_or(subject, jump.task, help)?;
    Ok((names.filled(NOT_LISTED.says)?, help))
}

/// The help that writes `halt` in place of a jump.
pub(crate) fn halt_help(subject: &Subject, index: u32, names: &Names) -> Made<Help> {
    let span = subject.span(index);
    let text = Words::of(subject.alloc(), "halt")?;
    names.help(
        HALT_MEANT,
        vec![in subject.alloc(); Replacement { span, text }]?,
    )
}

/// The place to which an instruction jumps, and whether it calls; `None` where no `j` or `jal` is at the code index.
pub(crate) fn jump_place(subject: &Subject, index: u32) -> Option<(u32, bool)> {
    match subject.code().get(index as usize)?.op {
        Op::Jump(to) => Some((to.get(), false)),
        Op::JumpLink(to) => Some((to.get(), true)),
        _ => None,
    }
}

/// The first instruction that jumps to a place: as a call, or not.
fn leading_to(subject: &Subject, place: u32, is_call: bool) -> Option<u32> {
    let mut indices = 0..subject.code_count();
    indices.find(|index| jump_place(subject, *index) == Some((place, is_call)))
}

/// What to do about a jump to which no call came: a call may be meant where a jump leads to its task, or the program may be
/// meant to start elsewhere; else it may end there.
fn uncalled_help(subject: &Subject, jump: &Jump, names: &mut Names) -> Made<Help> {
    let entry = entry_of(subject, jump.task);
    let leading = |is_call| leading_to(subject, entry, is_call);
    if let (Some(call), Some(from)) = (leading(true), leading(false)) {
        names.add("call", subject.span(call).line)?;
        names.add("from", subject.span(from).line)?;
        return names.advice(CALL_MEANT);
    }
    match subject.task_at(0) {
        Some(first) if never_runs(subject, first) => {
            names.add("first", place_words(subject, 0)?)?;
            names.advice(START_MEANT)
        }
        _ => halt_help(subject, jump.index, names),
    }
}

/// What is said of a jump by which a task leaves that lists no target, or to which no call came.
fn ending_said(subject: &Subject, jump: &Jump) -> Made<Advice> {
    let mut names = names_of(subject, jump)?;
    if !jump.is_uncalled {
        return names.said(NO_TARGET, Vec::new(subject.alloc()));
    }
    let help = uncalled_help(subject, jump, &mut names)?;
    Ok((names.filled(UNCALLED)?, help))
}

/// Whether a jump of a task may lead to a place, as far as it is seen: it does, or not all is seen.
fn may_lead(subject: &Subject, jump: &Jump, place: u32) -> bool {
    let call = place.saturating_sub(1);
    !jump.is_whole
        || jump.places.contains(&place)
        || (is_behind(subject, place) && !subject.returns().has_seen_call(call))
}

/// Whether a task may go on to a place, as far as it is seen: by an exit, or by a jump to an address in a register.
pub(crate) fn may_go_on(subject: &Subject, task: u32, place: u32) -> bool {
    let mut jumps = subject.returns().jumps().iter();
    is_taken(subject, task, place)
        || jumps.any(|jump| jump.task == task && may_lead(subject, jump, place))
}

/// The message of a row about targets that a task should not list, and its help, which writes the other targets.
///
/// # Errors
///
/// `AllocError` where memory was refused.
pub fn targets_without(subject: &Subject, task: u32, row: Row, places: &[u32]) -> Made<Advice> {
    let listed = entries_listed(subject, task)?;
    let kept = listed
        .iter()
        .copied()
        .filter(|place| !places.contains(place));
    let kept: Vec<u32> = kept.collect(subject.alloc())?;
    let mut names = Names::of_task(subject, task)?;
    names.add("places", places_words(subject, places)?)?;
    names.fixed(
        row,
        subject.targets_span(task),
        targets_words(subject, &kept)?,
    )
}

/// What is said of targets of a task to which no call returns, if there are such.
fn unused_said(subject: &Subject, task: u32) -> Made<Option<Advice>> {
    let listed = entries_listed(subject, task)?;
    let listed = listed.iter().copied();
    let unused = listed.filter(|place| !may_go_on(subject, task, *place));
    let unused: Vec<u32> = unused.collect(subject.alloc())?;
    if unused.is_empty() {
        return Ok(None);
    }
    let (message, help) = targets_without(subject, task, NO_RETURN, &unused)?;
    Ok(Some((message, stale_or(subject, task, help)?)))
}

/// The register into which a jalr through $31 puts the return address, where that is another one.
fn swapped_link(subject: &Subject, index: u32) -> Option<u8> {
    match subject.code().get(index as usize)?.op {
        Op::JumpLinkReg(link, through) if through.get() == 31 && link.get() != 31 => {
            Some(link.get())
        }
        _ => None,
    }
}

/// What is said of a jalr through $31 that puts the return address into another register: its operands may be swapped.
fn swapped_said(subject: &Subject, jump: &Jump) -> Made<Option<Advice>> {
    match swapped_link(subject, jump.index) {
        Some(link) => {
            let mut names = names_of(subject, jump)?;
            names.add("register", subject.register(link))?;
            names.add("through", subject.register(31))?;
            Ok(Some(names.said(SWAPPED, Vec::new(subject.alloc()))?))
        }
        None => Ok(None),
    }
}

/// What is said of the jumps of a task, of which this is the first, to places that it does not list, if that is not said of
/// tasks that never run.
fn untold_said(subject: &Subject, first: &Jump, missing: &[u32]) -> Made<Option<Advice>> {
    let task = first.task;
    if missing.iter().all(|place| is_told(subject, task, *place)) {
        return Ok(None);
    }
    let jumps = subject.returns().jumps().iter();
    let mut jumps = jumps.filter(|jump| jump.task == task);
    let leading = jumps.find(|jump| missing.iter().any(|place| jump.places.contains(place)));
    Ok(Some(missing_said(subject, leading.unwrap_or(first), missing)?))
}

/// What is said of the jumps of a task, of which this is the first, if there is something to say.
fn jump_said(subject: &Subject, first: &Jump) -> Made<Option<(JumpKind, Advice)>> {
    let missing = missing_of(subject, first.task)?;
    let is_empty = subject.targets(first.task).is_empty();
    let (kind, said) = if let Some(said) = swapped_said(subject, first)? {
        (JumpKind::NotListed, Some(said))
    } else if !missing.is_empty() {
        (JumpKind::NotListed, untold_said(subject, first, &missing)?)
    } else if first.is_uncalled || (is_empty && !first.is_whole) {
        (JumpKind::NotListed, Some(ending_said(subject, first)?))
    } else {
        (JumpKind::NoReturn, unused_said(subject, first.task)?)
    };
    Ok(said.map(|said| (kind, said)))
}

/// The code of a warning.
fn code_of_jump(kind: JumpKind) -> Code
    ensures { is_jump_code result ≡ true }
{
    match kind {
        JumpKind::NotListed => Code::JumpNotListed,
        JumpKind::NoReturn => Code::NoReturn,
    }
}

/// The warning about the jumps of a task.
fn jump_warning(subject: &Subject, first: &Jump) -> Made<Option<Diagnostic>>
    ensures { IfOk result (λ said. IfSome said IsOfJump) }
{
    let Some((kind, (message, help))) = jump_said(subject, first)? else {
        return Ok(None);
    };
    Ok(Some(Diagnostic {
        severity: Severity::Warning,
        code: code_of_jump(kind),
        source: Source::Program,
        span: Some(subject.targets_span(first.task)),
        message,
        notes: Listed::new(Vec::new(subject.alloc())),
        help: Some(help),
    }))
}

/// Adds the warning about the jumps of a task, of which this is the first, if there is one.
fn add_warning(subject: &Subject, first: &Jump, list: &mut Vec<Diagnostic>) -> Made<()>
    requires { All IsOfJump list.old.items }
    ensures { OnOk result (All IsOfJump list.new.items) }
{
    if let Some(said) = jump_warning(subject, first)? {
        list.push(said)?;
    }
    Ok(())
}

/// The warnings about jumps to addresses in registers, as far as it is seen where they lead: at most one for each task.
///
/// # Errors
///
/// `AllocError` where memory was refused.
pub fn jump_warnings(subject: &Subject) -> Made<Vec<Diagnostic>>
    ensures { IfOk result (λ list. All IsOfJump list.items) }
{
    let mut list = Vec::new(subject.alloc());
    let mut before = None;
    for jump in subject.returns().jumps() {
        if !is_end(before, jump.task) {
            add_warning(subject, jump, &mut list)?;
        }
        before = Some(jump.task);
    }
    Ok(list)
}
