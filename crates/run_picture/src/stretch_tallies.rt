//! What happens in the stretches of a long run: how many instructions are executed in each, and how many tasks retire,
//! are squashed or are dropped.

ghost use Rattle.std.specs.Prelude.{◌≡◌, ℕ, ◌+◌, ◌<◌, ◌≤◌, ◌++◌, IfOk, OnOk, length, map};
ghost use Rattle.std.specs.List.{range_with_len};
ghost use Rattle.machine_model.specs.Answer.{most_events};
ghost use Rattle.run_picture.specs.Adding.{HasSums, HaveRoom, with_one_more};
ghost use Rattle.run_picture.specs.Stretches.{end_part as end_part_of, executed_from, occurrences, part_of as part_of_ending};

use crate::marks::column_of;
use machine_model::event::Event;
use std::alloc::{AllocError, Global};
use task_lives::life::{Ending, Life};

/// The number of an ending's part in a stretch.
pub(crate) fn part_of(ending: Ending) -> usize
    ensures { result ≡ part_of_ending ending }
{
    match ending {
        Ending::Retired => 0,
        Ending::Squashed => 1,
        Ending::Dropped => 2,
        Ending::Unfinished => 3,
    }
}

/// How many instructions are executed in each of the stretches of a picture, and how many lives end in each part of them.
#[derive(Drop)]
pub(crate) struct StretchSums {
    /// The instructions, a number for each stretch.
    pub(crate) executed: Vec<u64>,
    /// The lives, a number for each part.
    pub(crate) ended: Vec<u64>,
}

/// The sums of stretches of this length, by the events in their columns, and by the lives.
pub(crate) fn sums_of(
    alloc: Global,
    span: u32,
    columns: &[u32],
    events: &[Event],
    lives: &[Life],
) -> Result<StretchSums, AllocError>
    requires some { 0 < span }
    requires few_events { length events.now ≤ most_events }
    requires few { length lives.now ≤ most_events }
    ensures { IfOk result (HasSums span columns.now events.now lives.now) }
{
    let stretches = executed_stretches(alloc, span, columns, events)?;
    let parts = end_parts(alloc, span, lives)?;
    let executed = counts_of(alloc, 290, &stretches)?;
    let ended = counts_of(alloc, 1_160, &parts)?;
    Ok(StretchSums { executed, ended })
}

/// The stretches in which instructions are executed.
fn executed_stretches(
    alloc: Global,
    span: u32,
    columns: &[u32],
    events: &[Event],
) -> Result<Vec<usize>, AllocError>
    requires { 0 < span }
    ensures stretches { IfOk result (λ stretches. stretches.items ≡ executed_from span columns.now 0 events.now) }
    ensures few { IfOk result (λ stretches. length stretches.items ≤ length events.now) }
{
    let mut stretches = Vec::new(alloc);
    for (index, event) in events.iter().enumerate() {
        if let Event::Exec(_) = *event {
            let column = column_of(columns, index).saturating_sub(1);
            stretches.push((column / span) as usize)?;
        }
    }
    Ok(stretches)
}

/// The parts in which lives end.
fn end_parts(alloc: Global, span: u32, lives: &[Life]) -> Result<Vec<usize>, AllocError>
    requires { 0 < span }
    ensures parts { IfOk result (λ parts. parts.items ≡ map (end_part_of span) lives.now) }
    ensures as_many { IfOk result (λ parts. length parts.items ≡ length lives.now) }
{
    let mut parts = Vec::new(alloc);
    for life in lives {
        let stretch = (life.last / span) as usize;
        parts.push(stretch * 4 + part_of(life.ending))?;
    }
    Ok(parts)
}

/// How often each number below a limit occurs.
#[tactic(auto, using(crate::proofs::Occurrences::no_counts))]
fn counts_of(alloc: Global, limit: usize, numbers: &[usize]) -> Result<Vec<u64>, AllocError>
    requires { length numbers.now ≤ most_events }
    ensures { IfOk result (λ counts. counts.items ≡ map (occurrences numbers.now) (range_with_len 0 limit)) }
{
    let mut counts = vec![in alloc; 0; limit]?;
    for number in numbers {
        add_one(&mut counts, *number);
    }
    Ok(counts)
}

/// Counts a number once more, if it has a count.
fn add_one(counts: &mut Vec<u64>, number: usize)
    requires { HaveRoom 1 counts.old.items }
    ensures { counts.new.items ≡ with_one_more number counts.old.items }
{
    if number < counts.len() {
        let count = counts[number];
        counts[number] = count + 1;
    }
}
