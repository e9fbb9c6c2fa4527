//! The judgement of a list of events: whether it shows the harm of a wrong mark. What was read is compared with what the
//! sequential machine reads, and the end of the run with where the sequential machine continues.

ghost use Rattle.std.specs.Prelude.{◌≡◌, ℕ, ◌<◌, ◌≤◌, ◌↔◌, IfSome, IfNone, IfOk, IfErr, IsTrue, length, unwrap_or, option_to_list};
ghost use Rattle.mips_plain.specs.PlainMachine.{reads_when};
ghost use Rattle.mips_plain.specs.PlainView.{machine_state, IsAfter};
ghost use Rattle.task_descriptor.specs.Listing.{input};
ghost use Rattle.task_graph.specs.Edges.{is_indirect as is_indirect_of};
ghost use Rattle.machine_model.specs.Answer.{most_events};
ghost use Rattle.open_machine.specs.Machines.{state};
ghost use Rattle.demonstration.specs.Shown.{AreRight, IsFirstStale, IsCutAt, HoldsWrong, NamesItsPlace, ReadsRight, Shows, IsRefusedAt, IsRight, IsShown, WordsRight, reading_task, reads_agree, seen as seen_in, wrong_word as wrong_word_of};
ghost use Rattle.demonstration.specs.declared.judge.Evidence.{Evidence};
ghost use Rattle.demonstration.specs.declared.judge.Judgement.TheVariants as judged;

use crate::driven::Driven;
use machine_model::event::{Commit, Event, Standing};
use machine_model::laws::{answer_is_next, next_is_after};
use mips_instructions::instruction::Op;
use mips_instructions::number::Reg;
use mips_plain::outcome::{OutOfMemory, Outcome, Read};
use mips_plain::plain::Plain;
use open_machine::machine::OpenMachine;
use std::alloc::Global;
use task_descriptor::program::Program;

/// The first read of a run that is not what the sequential machine reads there.
#[derive(Clone, Copy, Debug, PartialEq, Eq)]
pub struct Stale {
    /// The number of the instruction, from 0, in the order of the sequential run.
    pub number: usize,
    /// What was read.
    pub read: Read,
    /// What the sequential machine reads there; `None` where it has ended before.
    pub right: Option<Read>,
}

/// The end of a run at an exit that the program names and its task does not list. Addresses are in bytes.
#[derive(Clone, Copy, Debug, PartialEq, Eq)]
pub struct CutOff {
    /// The address of the instruction with the exit.
    pub from: u32,
    /// The address at which the task has stopped, and where the sequential machine continues.
    pub at: u32,
}

/// A word of a register that differs from the sequential machine's after as many instructions.
#[derive(Clone, Copy, Debug, PartialEq, Eq)]
pub struct WrongWord {
    /// How many instructions were executed before.
    pub number: usize,
    /// The register.
    pub register: Reg,
    /// Its word.
    pub word: u32,
    /// The word that the sequential machine has.
    pub right: u32,
}

/// What a list of events shows that the sequential program never does.
#[derive(Clone, Copy, Debug, PartialEq, Eq)]
pub enum Harm {
    /// An instruction reads another value.
    Stale(Stale),
    /// The run ends where the sequential program continues.
    CutOff(CutOff),
    /// A task has a wrong word in a register, which none of its instructions has read yet.
    Held(WrongWord),
}

/// A harm, and the task in which it shows.
#[derive(Clone, Copy, Debug, PartialEq, Eq)]
pub struct Evidence {
    /// The harm.
    pub harm: Harm,
    /// The number, from 0, of the task whose instruction reads, which ends there, or which has the word.
    pub task: u32,
}

/// The judgement of a list of events.
#[derive(Clone, Copy, Debug, PartialEq, Eq)]
pub enum Judgement {
    /// The event at this index, from 0, is not allowed.
    Refused(usize),
    /// All events are allowed. What was read is what the sequential machine reads, the run is not cut off, and no register
    /// of the head has a wrong word.
    Right,
    /// All events are allowed, and they show this.
    Shown(Evidence),
}

/// The word of the operand in a register of the plain machine; 0 where there is no operand.
fn operand(plain: &Plain, source: Option<Reg>) -> u32
    ensures { result ≡ (machine_state plain.now).regs (unwrap_or source 0) }
{
    match source.or(Reg::new(0)) {
        Some(register) => plain.reg(register),
        None => unreachable!(),
    }
}

/// Whether a read is the right one.
fn agrees(right: Option<Read>, read: Read) -> bool
    ensures { result ≡ reads_agree right read }
{
    match right {
        Some(right) => right.pc == read.pc && right.a == read.a && right.b == read.b,
        None => false,
    }
}

/// What the plain machine's next step reads; `None` where it has ended.
fn next_read(program: &Program, plain: &Plain) -> Option<Read>
    ensures { option_to_list result ≡ reads_when (machine_state plain.now).outcome (input program.now) (machine_state plain.now) }
{
    let Outcome::Running = plain.outcome() else {
        return None;
    };
    let pc = plain.pc();
    let Some(index) = program.index(pc) else {
        return Some(Read { pc, a: 0, b: 0 });
    };
    let (first, second) = program.code()[index as usize].op.sources();
    Some(Read {
        pc,
        a: operand(plain, first),
        b: operand(plain, second),
    })
}

/// What the retired tasks read, and after it what the head has read.
fn seen(alloc: Global, machine: &OpenMachine<'_>) -> Result<Vec<Read>, OutOfMemory>
    ensures { IfOk result (λ reads. reads.items ≡ seen_in (state machine.now)) }
{
    let mut reads = Vec::new(alloc);
    machine.reads().copy_to(&mut reads)?;
    if let Some(head) = machine.unit(0) {
        head.reads().copy_to(&mut reads)?;
    }
    Ok(reads)
}

/// The plain machine after as many steps as there are reads, if they are its own reads; else the first read that is
/// not.
fn compare(
    alloc: Global,
    program: &Program,
    reads: &[Read],
) -> Result<Result<Plain, Stale>, OutOfMemory>
    ensures right { IfOk result (λ compared. IfOk compared (λ plain. IsAfter (input program.now) (length reads.now) plain × AreRight program.now reads.now)) }
    ensures stale { IfOk result (λ compared. IfErr compared (λ s. IsFirstStale program.now reads.now s.number s.read s.right)) }
{
    let mut plain = program.plain(alloc)?;
    for number in 0..reads.len() {
        let read = reads[number];
        let right = next_read(program, &plain);
        if !agrees(right, read) {
            return Ok(Err(Stale {
                number,
                read,
                right,
            }));
        }
        plain.step()?;
    }
    Ok(Ok(plain))
}

/// Whether an instruction jumps to an address in a register.
fn is_indirect(op: &Op) -> bool
    ensures { result ≡ is_indirect_of op.now }
{
    matches!(op, Op::JumpReg(_) | Op::JumpLinkReg(_, _))
}

/// Whether the instruction at an address names the place to which it goes.
fn names_its_place(program: &Program, pc: u32) -> bool
    ensures { IsTrue result ↔ NamesItsPlace program.now pc }
{
    match program.index(pc) {
        Some(index) => !is_indirect(&program.code()[index as usize].op),
        None => false,
    }
}

/// Whether the run ended too early, given what was seen and the plain machine after as many steps.
#[tactic(auto, using(crate::proofs::Harmless::cut_so, crate::proofs::Harmless::not_cut))]
fn cut_off(
    program: &Program,
    machine: &OpenMachine<'_>,
    reads: &[Read],
    plain: &Plain,
) -> Option<CutOff>
    requires reads { reads.now ≡ seen_in (state machine.now) }
    requires plain { IsAfter (input program.now) (length reads.now) plain.now }
    ensures some { IfSome result (λ cut. IsCutAt program.now (state machine.now) cut.from cut.at) }
    ensures none { IfNone result ((from at : ℕ) → IsCutAt program.now (state machine.now) from at → ⊥) }
{
    let Standing::Unlisted(at) = machine.outcome() else {
        return None;
    };
    let from = reads.last()?.pc;
    let goes_on = matches!(plain.outcome(), Outcome::Running) && plain.pc() == at;
    if goes_on && names_its_place(program, from) {
        return Some(CutOff { from, at });
    }
    None
}

/// The word, if there is one and it is not the right one.
fn unless_right(right: u32, word: Option<u32>) -> Option<u32>
    ensures { result ≡ wrong_word_of right word }
{
    match word {
        Some(word) if word != right => Some(word),
        _ => None,
    }
}

/// The least register in which the head has not the word of the plain machine after `made` steps.
#[tactic(auto, using(crate::proofs::Harmless::no_head, crate::proofs::Harmless::holds_so))]
pub(crate) fn wrong_word(machine: &OpenMachine<'_>, plain: &Plain, made: usize) -> Option<WrongWord>
    ensures number { IfSome result (λ held. held.number ≡ made) }
    ensures wrong { IfSome result (λ held. HoldsWrong (state machine.now) (machine_state plain.now) held.register held.word held.right) }
    ensures register { IfSome result (λ held. held.register < 34) }
    ensures none { IfNone result ((r word right : ℕ) → r < 34 → HoldsWrong (state machine.now) (machine_state plain.now) r word right → ⊥) }
{
    let head = machine.unit(0)?;
    for number in 0..34u8 {
        let Some(register) = Reg::new(number) else {
            unreachable!();
        };
        let right = plain.reg(register);
        if let Some(word) = unless_right(right, head.value(register)) {
            return Some(WrongWord {
                number: made,
                register,
                word,
                right,
            });
        }
    }
    None
}

/// The number of the task that made the read of this number: a retired one, else the head's.
fn task_of_read(commits: &[Commit], head: u32, number: usize) -> u32
    ensures { result ≡ reading_task commits.now head number }
{
    let mut left = number;
    for commit in commits {
        if left < commit.count as usize {
            return commit.task;
        }
        left -= commit.count as usize;
    }
    head
}

/// What the machine shows of a program, and to which task; `None` where it shows no departure. Where `words` is false, a
/// wrong word that no instruction has read is none.
pub(crate) fn shows(
    alloc: Global,
    program: &Program,
    machine: &OpenMachine<'_>,
    words: bool,
) -> Result<Option<Evidence>, OutOfMemory>
    ensures some { IfOk result (λ found. IfSome found (λ it. Shows program.now (state machine.now) it)) }
    ensures reads { IfOk result (λ found. IfNone found (ReadsRight program.now (state machine.now))) }
    ensures words { IfOk result (λ found. IfNone found (IsTrue words → WordsRight program.now (state machine.now))) }
{
    let task = match machine.unit(0) {
        Some(head) => head.task(),
        None => 0,
    };
    let reads = seen(alloc, machine)?;
    let plain = match compare(alloc, program, &reads)? {
        Ok(plain) => plain,
        Err(stale) => {
            let task = task_of_read(machine.commits(), task, stale.number);
            let harm = Harm::Stale(stale);
            return Ok(Some(Evidence { harm, task }));
        }
    };
    if let Some(cut) = cut_off(program, machine, &reads, &plain) {
        let harm = Harm::CutOff(cut);
        return Ok(Some(Evidence { harm, task }));
    }
    if !words {
        return Ok(None);
    }
    match wrong_word(machine, &plain, reads.len()) {
        Some(held) => {
            let harm = Harm::Held(held);
            Ok(Some(Evidence { harm, task }))
        }
        None => Ok(None),
    }
}

/// Judges what a list of events shows of a program on `units` units, at most 16. Of more than 1,000,000 events the first
/// one above this number is not allowed.
///
/// # Errors
///
/// `OutOfMemory` where memory was refused.
pub fn judge(
    alloc: Global,
    program: &Program,
    units: u32,
    events: &[Event],
) -> Result<Judgement, OutOfMemory>
    requires { units ≤ 16 }
    ensures refused { IfOk result (λ judgement. (index : ℕ) → judgement ≡ judged.Refused index → IsRefusedAt program.now units events.now index) }
    ensures right { IfOk result (λ judgement. judgement ≡ judged.Right → IsRight program.now units events.now) }
    ensures shown { IfOk result (λ judgement. (it : Evidence) → judgement ≡ judged.Shown it → IsShown program.now units events.now it) }
    ensures few { IfOk result (λ judgement. (it : Evidence) → judgement ≡ judged.Shown it → length events.now ≤ most_events) }
{
    answer_is_next();
    next_is_after();
    // A program says that it is well formed, which the laws ask for, where its start is read; and a driven machine says that
    // its events are allowed where it is lent.
    let _ = program.start();
    let mut driven = Driven::new(alloc, program, units)?;
    for index in 0..events.len() {
        let _ = driven.machine();
        if !driven.try_event(events[index])? {
            return Ok(Judgement::Refused(index));
        }
    }
    match shows(alloc, program, driven.machine(), true)? {
        Some(evidence) => Ok(Judgement::Shown(evidence)),
        None => Ok(Judgement::Right),
    }
}
