//! One turn of a worker that lets go of the lock: a burst away from it, or one in place with the gate around it.

ghost use Rattle.std.specs.Prelude.{◌≡◌, ℕ, ◌≤◌, IsSomeAnd, IsTrue, false};
ghost use Rattle.mark_checker.specs.Places.{Checked};
ghost use Rattle.unit_core.specs.Bursts.{BurstView, IsBurstToSend, lent};
ghost use Rattle.threaded_runner.specs.declared.next.NextBurst.{NextBurst};
ghost use Rattle.threaded_runner.specs.declared.next.Then.{Then};
ghost use Rattle.threaded_runner.specs.Away.{IsInPlace, IsMadeAway};

use crate::next::{Idle, NextBurst, Then};
use unit_core::burst::Burst;

/// A worker at its place: it takes turns under the lock, lends a unit, and hands in the burst that it made on it. Its
/// relations are between the worker, and what is held under the lock, before a call and after it.
pub(crate) trait Bench<'a> {
    /// What lies under the lock, while the worker holds it.
    type Held;

    /// That the worker does not hold the lock: it is given up to take the lock, and comes back as the lock is let go.
    type Away;

    /// What a worker leaves that ended.
    type End;

    /// The number of the worker.
    ghost number: { Self → ℕ };

    /// A worker takes turns under the lock; it goes on as this worker, holds this, and has this to do.
    ghost holds: { Self → Self.Held → Self → Self.Held → Then → Type 0 };

    /// A worker that holds this has this to do.
    ghost has_to: { Self → Self.Held → Then → Type 0 };

    /// A burst of this program and certificate may be handed in.
    ghost is_own: { Checked → Type 0 };

    /// The unit with this number is lent of what is held, as this burst without a step.
    ghost lends: { Self.Held → (unit : ℕ) → BurstView → Type 0 };

    /// No unit with this number is at work.
    ghost lacks: { Self.Held → (unit : ℕ) → Type 0 };

    /// At most this many instructions were executed on a burst without a step, which became this one.
    ghost was_made: { BurstView → (most : ℕ) → BurstView → Type 0 };

    /// A worker hands in this burst, as it was to be made; it goes on as this worker, which holds this.
    ghost hands_in: { Self → NextBurst → BurstView → Self → Self.Held → Type 0 };

    /// A worker continues with the head in place, as it was to; these were the instructions, and it goes on as this
    /// worker.
    ghost runs: { Self → NextBurst → (steps : ℕ) → Self → Type 0 };

    /// The number of the worker.
    fn number(&self) -> u32
        ensures { result ≡ number self.now };

    /// Takes turns; answers what is held then, and what the worker does without the lock.
    fn hold(&mut self, held: Self::Held) -> (Self::Held, Then)
        ensures holds { holds self.old held self.new result.0 result.1 }
        ensures next { has_to self.new result.0 result.1 };

    /// Lends a unit into the slot and lets go of the lock; answers whether it did lend it.
    fn lend(&self, held: Self::Held, unit: u32, slot: &mut Option<Burst<'a>>) -> (Self::Away, bool)
        ensures lent { IsTrue result.1 → IsSomeAnd slot.new (λ burst. (burst.steps ≡ 0) × is_own burst.accepted × lends held unit burst) }
        ensures none { result.1 ≡ false → lacks held unit };

    /// Executes instructions on the unit that was lent, without the lock.
    fn make(&self, away: &Self::Away, burst: &mut Burst<'a>, most: u32)
        requires few { most ≤ 65536 }
        requires none { burst.old.steps ≡ 0 }
        ensures burst { IsBurstToSend (lent burst.old) most burst.new }
        ensures made { was_made burst.old most burst.new };

    /// Takes the lock, and hands in a burst.
    fn hand_in(&mut self, away: Self::Away, next: &NextBurst, burst: &mut Burst<'a>) -> Self::Held
        requires { is_own burst.old.accepted }
        ensures { hands_in self.old next.now burst.old self.new result };

    /// Takes the lock, continues with the head in place, and lets go of the lock; answers how many instructions that
    /// was.
    fn run_in_place(&mut self, away: Self::Away, next: &NextBurst) -> (Self::Away, u32)
        requires { (held : Self.Held) × has_to self.old held (Then.BurstInPlace next.now) }
        ensures { runs self.old next.now result.1 self.new };

    /// Lets go of the lock, waits, and takes the lock again.
    fn wait(&self, held: Self::Held, idle: Idle) -> Self::Held
        requires { has_to self.now held (Then.Wait idle) };

    /// Lets go of the lock for the last time.
    fn end(&self, held: Self::Held) -> Self::End
        requires { has_to self.now held Then.End };

    /// Lets go of the lock.
    fn let_go(&self, held: Self::Held) -> Self::Away;

    /// Takes the lock.
    fn take(&self, away: Self::Away) -> Self::Held;
}

/// The gate of a run, as a turn of a worker sees it.
pub(crate) trait Watcher {
    /// It was called before a burst of this worker.
    ghost is_before: { Self → (worker : ℕ) → Self → Type 0 };

    /// It was called after a burst of this worker, which had this many instructions.
    ghost is_after: { Self → (worker steps : ℕ) → Self → Type 0 };

    /// A worker is about to make a burst.
    fn before(&mut self, worker: u32)
        ensures { is_before self.old worker self.new };

    /// A worker has made a burst of the given number of instructions.
    fn after(&mut self, worker: u32, steps: u32)
        ensures { is_after self.old worker steps self.new };
}

/// Lends the unit and lets go of the lock; makes the burst, with the gate around it; takes the lock and hands it in.
pub(crate) fn make_away<'a, B: Bench<'a>, W: Watcher>(
    bench: &mut B,
    watcher: &mut W,
    held: B::Held,
    next: &NextBurst,
    slot: &mut Option<Burst<'a>>,
) -> B::Held
    ensures { IsMadeAway B.number B.lends B.lacks B.hands_in W.is_before W.is_after B.was_made bench.old watcher.old held next.now bench.new watcher.new result }
{
    let (away, is_lent) = bench.lend(held, next.unit, slot);
    if !is_lent {
        return bench.take(away);
    }
    let Some(burst) = slot else { unreachable!() };
    let worker = bench.number();
    watcher.before(worker);
    bench.make(&away, burst, next.most);
    watcher.after(worker, burst.steps());
    bench.hand_in(away, next, burst)
}

/// Lets go of the lock, and continues with the head in place, with the gate around it; takes the lock again.
pub(crate) fn make_in_place<'a, B: Bench<'a>, W: Watcher>(
    bench: &mut B,
    gate: &mut W,
    held: B::Held,
    next: &NextBurst,
) -> B::Held
    requires { B.has_to bench.old held (Then.BurstInPlace next.now) }
    ensures { IsInPlace B.number B.runs W.is_before W.is_after bench.old gate.old next.now bench.new gate.new }
{
    let away = bench.let_go(held);
    let worker = bench.number();
    gate.before(worker);
    let (away, steps) = bench.run_in_place(away, next);
    gate.after(worker, steps);
    bench.take(away)
}
