//! The lock, while a worker holds it.

ghost use Rattle.std.specs.Prelude.{◌≡◌, ◌≤◌, Some, length, true, slice_get};
ghost use Rattle.std.specs.Sync.Mutex.{mutex_guard_value};
ghost use Rattle.unit_turns.specs.Bells.{RingsFor};
ghost use Rattle.threaded_runner.specs.Calls.{AreCalled, AreRungFor, IsAsleep};
ghost use Rattle.threaded_runner.specs.Desks.{IsDone};
ghost use Rattle.threaded_runner.specs.Shares.{IsShareOf};
ghost use Rattle.threaded_runner.specs.Workers.{HasNothing};

use crate::deeds::Deeds;
use crate::desk::Desk;
use crate::hold::{Idle, Worker};
use crate::naming::Naming;
use crate::patience::Patience;
use crate::share::Share;
use std::sync::{Mutex, MutexGuard, Wait};
use std::{hint, thread};
use unit_turns::bell::{Bell, Ring};
use unit_turns::called::Called;

/// How often a patient worker tries for the lock before it leaves its core to another thread for a moment.
const TRIES: u32 = 50;

/// How often it does so before it waits asleep.
const ROUNDS: u32 = 10;

/// The lock, while a worker holds it. It has no `Drop`: so a worker lets go of it by the functions of this file
/// alone, which ring for those that have something to do, or sleep.
pub(crate) struct Held<'l, 'a, P: Drop, J: Naming + Deeds> {
    pub(crate) desk: MutexGuard<'l, Desk<'a, P, J>>,
}

/// Takes the lock. A hold is short and waking a thread is slow, so a patient worker tries for a while before it
/// sleeps.
pub(crate) fn take<'l, 'a, P: Drop, J: Naming + Deeds, R: Wait>(
    rt: &R,
    shared: &'l Mutex<Desk<'a, P, J>>,
    patience: Patience,
) -> Held<'l, 'a, P, J> {
    if patience.looks() {
        if let Some(desk) = try_often(shared) {
            return Held { desk };
        }
    }
    Held {
        desk: shared.lock(rt),
    }
}

/// The lock, if it is free within many looks.
fn try_often<T>(shared: &Mutex<T>) -> Option<MutexGuard<'_, T>> {
    for _ in 0..ROUNDS {
        if let Some(guard) = try_soon(shared) {
            return Some(guard);
        }
        thread::yield_now();
    }
    None
}

/// The lock, if it is free within a few looks.
fn try_soon<T>(shared: &Mutex<T>) -> Option<MutexGuard<'_, T>> {
    for _ in 0..TRIES {
        if let Some(guard) = shared.try_lock() {
            return Some(guard);
        }
        hint::spin_loop();
    }
    None
}

/// Lets go of the lock, and rings for the workers that now have something to do.
pub(crate) fn let_go<P: Drop, J: Naming + Deeds, B: Ring>(
    mut held: Held<'_, '_, P, J>,
    bells: &[B],
    share: Share,
    budget: u32,
)
    requires share { IsShareOf J.units J.workers share }
    requires budget { budget ≡ J.budget }
    requires bells { J.workers ≤ length bells.now }
    ensures { AreRungFor B.is_rung J.budget share (mutex_guard_value held.entry.desk) bells.now }
{
    let called = held.desk.call(share, budget);
    let_go_called(held, called, bells, share);
}

/// Lets go of the lock as `let_go` does, for a worker that has nothing to do: it is marked as waiting.
pub(crate) fn let_go_to_wait<P: Drop, J: Naming + Deeds, B: Ring>(
    mut held: Held<'_, '_, P, J>,
    idle: Idle,
    bells: &[B],
    worker: &Worker<J>,
)
    requires own { idle.worker ≡ worker.now.share.worker }
    requires nothing { HasNothing worker.now (mutex_guard_value held.desk).machine }
    requires bells { J.workers ≤ length bells.now }
    ensures { AreRungFor B.is_rung J.budget worker.now.share (mutex_guard_value held.entry.desk) bells.now }
{
    let share = worker.share();
    let called = held.desk.call(share, worker.budget());
    held.desk.fall_asleep(share.worker);
    let_go_marked(held, idle, called, bells, worker);
}

/// That a worker ended where the run was over: `let_go_at_end` alone makes it.
#[derive(Drop)]
pub(crate) struct Ended {
    worker: u32,
}

/// Lets go of the lock as `let_go` does, for a worker that ends: the run is over.
pub(crate) fn let_go_at_end<P: Drop, J: Naming + Deeds, B: Ring>(
    held: Held<'_, '_, P, J>,
    bells: &[B],
    worker: &Worker<J>,
) -> Ended
    requires over { IsDone worker.now.budget (mutex_guard_value held.desk) }
    requires bells { J.workers ≤ length bells.now }
    ensures { AreRungFor B.is_rung J.budget worker.now.share (mutex_guard_value held.entry.desk) bells.now }
{
    let share = worker.share();
    let_go(held, bells, share, worker.budget());
    Ended {
        worker: share.worker,
    }
}

/// That a run was stopped: `let_go_stopped` alone makes it.
#[derive(Drop)]
pub(crate) struct Stopped {
    worker: u32,
}

/// Lets go of the lock as `let_go` does, where the run must stop.
pub(crate) fn let_go_stopped<P: Drop, J: Naming + Deeds, B: Ring>(
    held: Held<'_, '_, P, J>,
    bells: &[B],
    share: Share,
    budget: u32,
) -> Stopped
    requires share { IsShareOf J.units J.workers share }
    requires budget { budget ≡ J.budget }
    requires stopped { (mutex_guard_value held.desk).is_stopped ≡ true }
    requires bells { J.workers ≤ length bells.now }
    ensures { AreRungFor B.is_rung J.budget share (mutex_guard_value held.entry.desk) bells.now }
{
    let_go(held, bells, share, budget);
    Stopped {
        worker: share.worker,
    }
}

/// Lets go of the lock, and rings for those that were called: of all workers but this one, none stays asleep that has
/// a turn, or whose run is over.
fn let_go_called<P: Drop, J: Naming + Deeds, B: Ring>(
    held: Held<'_, '_, P, J>,
    called: Called,
    bells: &[B],
    share: Share,
)
    requires { AreCalled J.budget share (mutex_guard_value held.desk) }
    ensures { RingsFor B.is_rung called bells.now }
{
    let Held { desk } = held;
    drop(desk);
    called.ring(bells);
}

/// Lets go of the lock as `let_go_called` does, for a worker that has nothing to do: it is marked as waiting, so that
/// it is rung for once it has something.
fn let_go_marked<P: Drop, J: Naming + Deeds, B: Ring>(
    held: Held<'_, '_, P, J>,
    idle: Idle,
    called: Called,
    bells: &[B],
    worker: &Worker<J>,
)
    requires called { AreCalled J.budget worker.now.share (mutex_guard_value held.desk) }
    requires nothing { HasNothing worker.now (mutex_guard_value held.desk).machine }
    requires own { idle.worker ≡ worker.now.share.worker }
    requires marked { IsAsleep (mutex_guard_value held.desk).asleep idle.worker }
    ensures { RingsFor B.is_rung called bells.now }
{
    let Idle { worker: _ } = idle;
    let_go_called(held, called, bells, worker.share());
}

/// Sleeps until the worker's bell rings, or wakes earlier for no reason; the lock is free meanwhile. A worker
/// that was called before it sleeps would not hear its bell.
pub(crate) fn sleep<'l, 'a, P: Drop, J: Naming + Deeds, R: Wait>(
    rt: &R,
    held: Held<'l, 'a, P, J>,
    bell: &Bell,
    worker: u32,
) -> Held<'l, 'a, P, J>
    requires { slice_get (mutex_guard_value held.desk).asleep worker ≡ Some true }
{
    let Held { desk } = held;
    Held {
        desk: bell.sleep(rt, desk),
    }
}
