//! A search for a list of events that shows the harm of a wrong mark. What it finds does show it: the judge says so. Where
//! it finds none, each of its runs was judged right.

ghost use Rattle.std.specs.Prelude.{◌≡◌, ◌<◌, ◌≤◌, ℕ, [], min, take, IfSome, IfNone, IfOk, IsTrue, OnOk, length};
ghost use Rattle.mips_plain.specs.PlainView.{IsAfter};
ghost use Rattle.task_descriptor.specs.Listing.{input};
ghost use Rattle.demonstration.specs.Found.{IsDemonstration, IsRightAlone, IsSearched};
ghost use Rattle.demonstration.specs.Rounds.{each_tried, run_of, state_after};
ghost use Rattle.demonstration.specs.Shown.{ReadsRight, WordsRight};

use crate::driven::Driven;
use crate::judge::{Evidence, Harm, Judgement, judge, shows, wrong_word};
use crate::rounds::{drive, known_tasks};
use machine_model::event::Event;
use mips_plain::outcome::OutOfMemory;
use mips_plain::plain::Plain;
use open_machine::machine::OpenMachine;
use std::alloc::Global;
use task_descriptor::program::Program;

/// A list of events on a machine with `units` units, and what it shows.
#[derive(Debug, Drop)]
pub struct Demonstration {
    /// How many units there are.
    pub units: u32,
    /// The events, the first one first.
    pub events: Vec<Event>,
    /// The harm that they show.
    pub evidence: Evidence,
}

/// At most so many groups of events of one size are left out one after another, which takes a run for each.
const MOST_TRIED: usize = 2_000;

/// And as many as have at most so many events in their runs together.
const MOST_REPLAYED: usize = 16_000_000;

/// A list of more events than these is first made shorter by larger groups.
const LONG: usize = 16_384;

/// A list of events that shows the harm of a wrong mark, sought in runs of about `steps` events on 2 to `most_units`
/// units, and on one unit for a wrong word that no instruction reads. It has at most 1,000,000 events. `None` where all
/// these runs are right.
///
/// # Errors
///
/// `OutOfMemory` where memory was refused.
#[tactic(auto, using(crate::proofs::Searching::none_found))]
pub fn demonstrate(
    alloc: Global,
    program: &Program,
    most_units: u32,
    steps: u32,
) -> Result<Option<Demonstration>, OutOfMemory>
    requires some { 0 < most_units }
    requires few { most_units ≤ 16 }
    ensures { IfOk result (IsSearched program.now most_units steps) }
{
    let tasks = known_tasks(alloc, program, steps)?;
    if let Some(found) = read_shown(alloc, program, most_units, &tasks, steps)? {
        return Ok(Some(shortened(alloc, program, found)?));
    }
    match word_shown(alloc, program, steps)? {
        Some(found) => Ok(Some(shortened(alloc, program, found)?)),
        None => Ok(None),
    }
}

/// A wrong read or end, on 2 units, on 3, and so on, with these guesses. Where a unit was free each time that a task was to
/// begin, the run is the same on more units.
fn read_shown(
    alloc: Global,
    program: &Program,
    most_units: u32,
    guesses: &[u32],
    steps: u32,
) -> Result<Option<Demonstration>, OutOfMemory>
    requires some { 0 < most_units }
    requires few { most_units ≤ 16 }
    ensures some { IfOk result (λ found. IfSome found (λ d. IsDemonstration program.now d × d.units ≤ most_units)) }
    ensures none { IfOk result (λ found. IfNone found ((units : ℕ) → min most_units 2 ≤ units → units ≤ most_units
        → ReadsRight program.now (state_after program.now (run_of program.now units guesses.now steps)))) }
{
    for units in most_units.min(2)..most_units + 1 {
        let (driven, is_free) = drive(alloc, program, units, guesses, steps)?;
        if let Some(found) = shown_by(alloc, program, driven, false)? {
            return Ok(Some(found));
        }
        if is_free {
            return Ok(None);
        }
    }
    Ok(None)
}

/// A wrong word with which a task begins, on one unit: where no unit executes ahead, no task can have put the right
/// word over it before it is the head. Where there is none, a wrong read or end.
fn word_shown(
    alloc: Global,
    program: &Program,
    steps: u32,
) -> Result<Option<Demonstration>, OutOfMemory>
    ensures some { IfOk result (λ found. IfSome found (λ d. IsDemonstration program.now d × d.units ≡ 1)) }
    ensures none { IfOk result (λ found. IfNone found (IsRightAlone program.now (run_of program.now 1 [] steps))) }
{
    let (driven, _) = drive(alloc, program, 1, &[], steps)?;
    match until_held(alloc, program, driven.events())? {
        Some(few) => shown_by(alloc, program, few, true),
        None => shown_by(alloc, program, driven, true),
    }
}

/// What a run shows, if anything; a wrong word that no instruction has read only where `words` says so.
#[tactic(auto, using(crate::proofs::Searching::shown_of))]
fn shown_by(
    alloc: Global,
    program: &Program,
    driven: Driven<'_>,
    words: bool,
) -> Result<Option<Demonstration>, OutOfMemory>
    requires program { driven.program ≡ program.now }
    requires some { 0 < driven.units }
    ensures some { IfOk result (λ found. IfSome found (λ d. IsDemonstration program.now d × d.units ≡ driven.entry.units)) }
    ensures reads { IfOk result (λ found. IfNone found (ReadsRight program.now (state_after program.now driven.entry.run))) }
    ensures words { IfOk result (λ found. IfNone found (IsTrue words → WordsRight program.now (state_after program.now driven.entry.run))) }
{
    let units = driven.machine().capacity();
    let Some(evidence) = shows(alloc, program, driven.machine(), words)? else {
        return Ok(None);
    };
    let events = driven.into_events();
    Ok(Some(Demonstration {
        units,
        events,
        evidence,
    }))
}

/// A demonstration without the events that it does not need, as far as they are found.
fn shortened(
    alloc: Global,
    program: &Program,
    found: Demonstration,
) -> Result<Demonstration, OutOfMemory>
    requires { IsDemonstration program.now found }
    ensures { IfOk result (λ d. IsDemonstration program.now d × d.units ≡ found.units) }
{
    let found = without_rest(alloc, program, found)?;
    let found = shortened_if_long(alloc, program, found)?;
    let found = without_each(alloc, program, found, 64)?;
    let found = without_each(alloc, program, found, 8)?;
    without_each(alloc, program, found, 1)
}

/// A long demonstration without the larger groups of events that it does not need.
fn shortened_if_long(
    alloc: Global,
    program: &Program,
    found: Demonstration,
) -> Result<Demonstration, OutOfMemory>
    requires { IsDemonstration program.now found }
    ensures { IfOk result (λ d. IsDemonstration program.now d × d.units ≡ found.units) }
{
    if found.events.len() <= LONG {
        return Ok(found);
    }
    let found = without_each(alloc, program, found, 65_536)?;
    let found = without_each(alloc, program, found, 4_096)?;
    without_each(alloc, program, found, 512)
}

/// A demonstration with these events, where they show something: a wrong word that no instruction has read only where
/// `words` says so.
fn of_events(
    alloc: Global,
    program: &Program,
    units: u32,
    events: Vec<Event>,
    words: bool,
) -> Result<Option<Demonstration>, OutOfMemory>
    requires some { 0 < units }
    requires few { units ≤ 16 }
    ensures { IfOk result (λ found. IfSome found (λ d. IsDemonstration program.now d × d.units ≡ units)) }
{
    match judge(alloc, program, units, &events)? {
        Judgement::Shown(evidence) if words || !is_held(evidence.harm) => Ok(Some(Demonstration {
            units,
            events,
            evidence,
        })),
        _ => Ok(None),
    }
}

/// Whether a demonstration shows only a wrong word that no instruction has read.
fn shows_word_alone(found: &Demonstration) -> bool {
    is_held(found.evidence.harm)
}

/// Whether a harm is a wrong word that no instruction has read.
fn is_held(harm: Harm) -> bool {
    matches!(harm, Harm::Held(_))
}

/// A demonstration without the events after its harm.
fn without_rest(
    alloc: Global,
    program: &Program,
    found: Demonstration,
) -> Result<Demonstration, OutOfMemory>
    requires { IsDemonstration program.now found }
    ensures { IfOk result (λ d. IsDemonstration program.now d × d.units ≡ found.units) }
{
    let few = until_harm(alloc, program, &found)?;
    let words = shows_word_alone(&found);
    match of_events(alloc, program, found.units, few, words)? {
        Some(shorter) => Ok(shorter),
        None => Ok(found),
    }
}

/// A demonstration without each group of `size` events that can be left out, the last groups first.
fn without_each(
    alloc: Global,
    program: &Program,
    found: Demonstration,
    size: usize,
) -> Result<Demonstration, OutOfMemory>
    requires size { 0 < size }
    requires shown { IsDemonstration program.now found }
    ensures { IfOk result (λ d. IsDemonstration program.now d × d.units ≡ found.units) }
{
    let length = found.events.len();
    let groups = length / size;
    let mut found = found;
    if groups > MOST_TRIED || groups.saturating_mul(length) > MOST_REPLAYED {
        return Ok(found);
    }
    for done in 0..groups + 1 {
        let few = without(alloc, &found.events, (groups - done) * size, size)?;
        let words = shows_word_alone(&found);
        if let Some(shorter) = of_events(alloc, program, found.units, few, words)? {
            found = shorter;
        }
    }
    Ok(found)
}

/// These events without `size` of them, from an index on.
fn without(
    alloc: Global,
    events: &[Event],
    index: usize,
    size: usize,
) -> Result<Vec<Event>, OutOfMemory> {
    let mut few = Vec::new(alloc);
    for place in 0..events.len() {
        if place < index || place - index >= size {
            few.push(events[place])?;
        }
    }
    Ok(few)
}

/// The first of a demonstration's events, up to the one after which its harm is there.
fn until_harm(
    alloc: Global,
    program: &Program,
    found: &Demonstration,
) -> Result<Vec<Event>, OutOfMemory>
    requires { found.now.units ≤ 16 }
{
    let mut few = Driven::new(alloc, program, found.units)?;
    for event in &found.events {
        few.try_event(*event)?;
        if is_read(few.machine(), found.evidence.harm) {
            break;
        }
    }
    Ok(few.into_events())
}

/// Whether the stale read of a harm has been made.
fn is_read(machine: &OpenMachine<'_>, harm: Harm) -> bool {
    match harm {
        Harm::Stale(stale) => machine.executed() > stale.number,
        _ => false,
    }
}

/// A machine with one unit after the first of these events after which the head has a wrong word.
fn until_held<'a>(
    alloc: Global,
    program: &'a Program,
    events: &[Event],
) -> Result<Option<Driven<'a>>, OutOfMemory>
    ensures some { IfOk result (λ few. IfSome few (λ few. (few.program ≡ program.now) × (few.units ≡ 1) × (WordsRight program.now (state_after program.now few.run) → ⊥))) }
    ensures none { IfOk result (λ few. IfNone few ((count : ℕ) → count ≤ length events.now
        → WordsRight program.now (state_after program.now (each_tried program.now 1 [] (take count events.now))))) }
{
    let mut few = Driven::new(alloc, program, 1)?;
    let mut plain = program.plain(alloc)?;
    let mut made = 0;
    for event in events {
        few.try_event(*event)?;
        let count = few.machine().executed();
        catch_up(alloc, program, &mut plain, made, count)?;
        made = count;
        if wrong_word(few.machine(), &plain, made).is_some() {
            return Ok(Some(few));
        }
    }
    Ok(None)
}

/// Makes steps of the plain machine, which has made `made`, until it has made `count`.
#[tactic(auto, using(crate::proofs::Searching::caught_up))]
fn catch_up(
    alloc: Global,
    program: &Program,
    plain: &mut Plain,
    made: usize,
    count: usize,
) -> Result<(), OutOfMemory>
    requires { IsAfter (input program.now) made plain.old }
    ensures { OnOk result (IsAfter (input program.now) count plain.new) }
{
    match count.checked_sub(made) {
        Some(missing) => plain.run(missing as u64),
        None => {
            *plain = program.plain(alloc)?;
            plain.run(count as u64)
        }
    }
}
