//! Waits counted.

ghost use Rattle.std.specs.Prelude.{◌≡◌, ◌+◌, ◌^◌, ◌<◌, ◌≤◌, length, position as position_by, IfOk, OnOk};
ghost use Rattle.std.specs.List.{fold};
ghost use Rattle.machine_model.specs.Machine.{State};
ghost use Rattle.machine_model.specs.Answer.{most_events};
ghost use Rattle.machine_model.specs.Replay.{Replays};
ghost use Rattle.unit_waits.specs.Counts.{all_waits, counted, counts_of, is_alike as is_alike_to};
ghost use Rattle.unit_waits.specs.Waits.{waits as waits_of};

use crate::acting::{behind, step_of};
use crate::alike::is_alike;
use crate::count::Count;
use crate::one_step::waits_in_step;
use crate::steps::apply_all;
use crate::waiting::Waiting;
use crate::waits::machine_at_start;
use machine_model::event::Event;
use machine_model::laws::next_is_after;
use mark_checker::accept::Accepted;
use std::alloc::{AllocError, Global};

/// The index of the count of waits like this one; `None` where there is none yet.
fn index_alike(counts: &[Count], waiting: &Waiting) -> Option<usize>
    ensures { result ≡ position_by (λ c. is_alike_to c.first waiting.now) counts.now }
{
    counts
        .iter()
        .position(|count| is_alike(&count.first, waiting))
}

/// Counts a wait.
fn add(counts: &mut Vec<Count>, waiting: &Waiting) -> Result<(), AllocError>
    requires { all_waits counts.old.items + 1 < 2 ^ 32 }
    ensures { OnOk result (counts.new.items ≡ counted counts.old.items waiting.now) }
{
    let Some(index) = index_alike(counts, waiting) else {
        counts.push(Count {
            first: *waiting,
            waits: 1,
        })?;
        return Ok(());
    };
    let count = counts[index];
    counts[index] = Count {
        waits: count.waits + 1,
        ..count
    };
    Ok(())
}

/// Counts the waits of a step.
fn add_all(counts: &mut Vec<Count>, waits: &[Waiting]) -> Result<(), AllocError>
    requires { all_waits counts.old.items + length waits.now < 2 ^ 32 }
    ensures { OnOk result (counts.new.items ≡ fold counted counts.old.items waits.now) }
{
    for waiting in waits {
        add(counts, waiting)?;
    }
    Ok(())
}

/// The waits in the steps of a history of `units` units, 1 to 16, at the start of an accepted program, counted: those of
/// one task, at one place and for one reason together, ordered by the first of each. Each event of the history is allowed
/// when it occurs, and there are at most 1,000,000.
///
/// # Errors
///
/// `AllocError` where memory was refused.
pub fn count_waits(
    alloc: Global,
    accepted: &Accepted,
    units: u32,
    history: &[Event],
) -> Result<Vec<Count>, AllocError>
    requires some { 0 < units }
    requires few { units ≤ 16 }
    requires replay { (s : State) × Replays accepted.now.program units history.now s }
    requires room { length history.now ≤ most_events }
    ensures few { IfOk result (λ counts. all_waits counts.items ≤ 16000000) }
    ensures exact { IfOk result (λ counts. counts.items ≡ counts_of (waits_of accepted.now.program units history.now)) }
{
    next_is_after();
    let mut machine = machine_at_start(alloc, accepted, units)?;
    let mut counts = Vec::new(alloc);
    let mut start = 0;
    let mut number = 1;
    while start < history.len() {
        let left = behind(history, start);
        let Some(events) = step_of(machine.active(), left) else {
            return Ok(counts);
        };
        let in_step = waits_in_step(alloc, accepted, &machine, units, number, events)?;
        apply_all(&mut machine, events)?;
        add_all(&mut counts, in_step.as_slice())?;
        start += events.len();
        number += 1;
    }
    Ok(counts)
}
