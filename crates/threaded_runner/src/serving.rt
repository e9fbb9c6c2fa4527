//! The rounds of a worker: turns under the lock, and then what they left to do without it.

ghost use Rattle.std.specs.Prelude.{IfErr, IfOk};
ghost use Rattle.threaded_runner.specs.Away.{IsInPlace, IsMadeAway};
ghost use Rattle.threaded_runner.specs.Serving.{Ends, IsRound, Serves};

use crate::away::{Bench, Watcher, make_away, make_in_place};
use crate::next::Then;
use std::sync::Wait;
use unit_core::burst::Burst;

/// Takes the lock, and serves the worker's units, round after round, until the run is over. Each round begins with what
/// the one before left.
pub(crate) fn serve_rounds<'a, B: Bench<'a>, W: Watcher, R: Wait>(
    rt: &R,
    bench: &mut B,
    watcher: &mut W,
    away: B::Away,
) -> B::End
    ensures { Serves B.holds
        (IsMadeAway B.number B.lends B.lacks B.hands_in W.is_before W.is_after B.was_made)
        (IsInPlace B.number B.runs W.is_before W.is_after) bench.old watcher.old bench.new watcher.new }
{
    let mut slot = None;
    let mut held = bench.take(away);
    for _ in rt.forever() {
        match serve_round(bench, watcher, held, &mut slot) {
            Ok(found) => held = found,
            Err(end) => return end,
        }
    }
    unreachable!()
}

/// A round of a worker that holds the lock; answers what it holds afterwards.
///
/// # Errors
///
/// What the worker leaves, where the run is over.
fn serve_round<'a, B: Bench<'a>, W: Watcher>(
    bench: &mut B,
    watcher: &mut W,
    held: B::Held,
    slot: &mut Option<Burst<'a>>,
) -> Result<B::Held, B::End>
    ensures round { IfOk result (λ found. IsRound B.holds
        (IsMadeAway B.number B.lends B.lacks B.hands_in W.is_before W.is_after B.was_made)
        (IsInPlace B.number B.runs W.is_before W.is_after) bench.old watcher.old held bench.new watcher.new found) }
    ensures end { IfErr result (λ end. Ends B.holds bench.old watcher.old held bench.new watcher.new) }
{
    let (held, then) = bench.hold(held);
    match then {
        Then::Burst(next) => Ok(make_away(bench, watcher, held, &next, slot)),
        Then::BurstInPlace(next) => Ok(make_in_place(bench, watcher, held, &next)),
        Then::Wait(idle) => Ok(bench.wait(held, idle)),
        Then::GoOn => {
            let away = bench.let_go(held);
            Ok(bench.take(away))
        }
        Then::End => Err(bench.end(held)),
    }
}
