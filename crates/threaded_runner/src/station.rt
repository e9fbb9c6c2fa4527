//! A worker at its place: what it lends units from under the lock, and the gate of the run.

ghost use Rattle.std.specs.Prelude.{◌≡◌, ℕ, ◌≤◌, length};
ghost use Rattle.std.specs.Sync.Mutex.{mutex_guard_value};
ghost use Rattle.machine_model.specs.Machine.{Active};
ghost use Rattle.sequencer.specs.Bursts.{IsAtWork};
ghost use Rattle.unit_core.specs.Bursts.{BurstView};
ghost use Rattle.threaded_runner.specs.Lending.{IsLent};
ghost use Rattle.threaded_runner.specs.Stations.{ChecksIn, RunsInPlace, TakesHold};
ghost use Rattle.threaded_runner.specs.Workers.{HasNothing, IsNext};

use crate::away::{Bench, Watcher};
use crate::choosing::Choose;
use crate::deeds::Deeds;
use crate::desk::Desk;
use crate::gate::RunGate;
use crate::held::{Ended, Held, let_go, let_go_at_end, let_go_to_wait, sleep, take};
use crate::hold::Worker;
use crate::naming::Naming;
use crate::next::{Idle, NextBurst, Then};
use crate::patience::Patience;
use std::sync::{Mutex, Wait};
use unit_core::burst::Burst;
use unit_turns::bell::Bell;

/// That a worker does not hold the lock. It has no `Drop`: the worker gives it up to take the lock.
pub(crate) struct Away {
    worker: u32,
}

/// A worker, with the lock, the bells of all workers and its own.
#[derive(Drop)]
pub(crate) struct Station<'t, 'a, P: Drop, J: Naming + Deeds, R: Wait> {
    pub(crate) rt: &'t R,
    pub(crate) shared: &'t Mutex<Desk<'a, P, J>>,
    pub(crate) bells: &'t [Bell],
    pub(crate) bell: &'t Bell,
    pub(crate) patience: Patience,
    pub(crate) worker: Worker<J>,
    ghost enough: { J.workers ≤ length bells.now },
}

impl<'t, 'a, P: Drop, J: Naming + Deeds, R: Wait> Station<'t, 'a, P, J, R> {
    /// A worker at its place, which does not hold the lock.
    pub(crate) fn new(
        rt: &'t R,
        shared: &'t Mutex<Desk<'a, P, J>>,
        bells: &'t [Bell],
        bell: &'t Bell,
        patience: Patience,
        worker: Worker<J>,
    ) -> (Station<'t, 'a, P, J, R>, Away)
        requires { J.workers ≤ length bells.now }
        ensures worker { result.0.worker ≡ worker }
        ensures bells { result.0.bells.now ≡ bells.now }
    {
        let number = worker.share().worker;
        let station = Station {
            rt,
            shared,
            bells,
            bell,
            patience,
            worker,
        };
        (station, Away { worker: number })
    }
}

impl<'t, 'a, P: Choose, J: Naming + Deeds, R: Wait> Bench<'a> for Station<'t, 'a, P, J, R> {
    type Held = Held<'t, 'a, P, J>;

    type Away = Away;

    type End = Ended;

    ghost number = { λ s. s.worker.share.worker };

    ghost holds = { λ s held s' held' then. TakesHold J.was_asked s.worker (mutex_guard_value held.desk) s'.worker (mutex_guard_value held'.desk) then };

    ghost has_to = { λ s held then. IsNext s.worker (mutex_guard_value held.desk) then };

    ghost is_own = { λ checked. checked ≡ J.accepted };

    ghost lends = { λ held unit burst. IsLent (mutex_guard_value held.desk).machine unit burst × J.was_lent (mutex_guard_value held.desk).machine unit burst };

    ghost lacks = { λ held unit. (u : Active) → IsAtWork (mutex_guard_value held.desk).machine unit u → ⊥ };

    ghost hands_in = { λ s next burst s' held. ChecksIn J.was_handed_in s.worker next burst s'.worker (mutex_guard_value held.desk) };

    ghost was_made = { λ begun most burst. J.was_made begun most burst };

    ghost runs = { λ s next steps s'. RunsInPlace J.was_asked s.worker next steps s'.worker };

    fn number(&self) -> u32 {
        self.worker.share().worker
    }

    fn hold(&mut self, held: Held<'t, 'a, P, J>) -> (Held<'t, 'a, P, J>, Then) {
        let mut held = held;
        let then = self.worker.hold(&mut *held.desk);
        (held, then)
    }

    fn lend(
        &self,
        held: Held<'t, 'a, P, J>,
        unit: u32,
        slot: &mut Option<Burst<'a>>,
    ) -> (Away, bool) {
        let is_lent = J::lend(held.desk.machine(), unit, slot);
        (self.let_go(held), is_lent)
    }

    fn make(&self, _away: &Away, burst: &mut Burst<'a>, most: u32) {
        J::make(burst, most);
    }

    fn hand_in(
        &mut self,
        away: Away,
        next: &NextBurst,
        burst: &mut Burst<'a>,
    ) -> Held<'t, 'a, P, J> {
        let mut held = self.take(away);
        self.worker.check_in(&mut *held.desk, next, burst);
        held
    }

    fn run_in_place(&mut self, away: Away, next: &NextBurst) -> (Away, u32) {
        let mut held = self.take(away);
        let steps = self.worker.run_in_place(&mut *held.desk, next);
        (self.let_go(held), steps)
    }

    fn wait(&self, held: Held<'t, 'a, P, J>, idle: Idle) -> Held<'t, 'a, P, J> {
        wait_for(self, held, idle)
    }

    fn end(&self, held: Held<'t, 'a, P, J>) -> Ended {
        let_go_at_end(held, self.bells, &self.worker)
    }

    fn let_go(&self, held: Held<'t, 'a, P, J>) -> Away {
        let share = self.worker.share();
        let_go(held, self.bells, share, self.worker.budget());
        Away {
            worker: share.worker,
        }
    }

    fn take(&self, away: Away) -> Held<'t, 'a, P, J> {
        let Away { worker: _ } = away;
        take(self.rt, self.shared, self.patience)
    }
}

/// Lets go of the lock, waits until the worker's bell has rung since, and takes the lock again.
fn wait_for<'t, 'a, P: Drop, J: Naming + Deeds, R: Wait>(
    station: &Station<'t, 'a, P, J, R>,
    held: Held<'t, 'a, P, J>,
    idle: Idle,
) -> Held<'t, 'a, P, J>
    requires own { idle.worker ≡ station.now.worker.share.worker }
    requires nothing { HasNothing station.now.worker (mutex_guard_value held.desk).machine }
{
    let number = station.worker.share().worker;
    let heard = station.bell.rings();
    let_go_to_wait(held, idle, station.bells, &station.worker);
    if station.patience.looks() {
        station.bell.listen(heard);
    }
    let mut held = take(station.rt, station.shared, station.patience);
    if held.desk.is_asleep(number) {
        held = sleep(station.rt, held, station.bell, number);
        held.desk.awake(number);
    }
    held
}

/// The gate of a run, as one worker calls it.
#[derive(Drop)]
pub(crate) struct Watch<'t, G: RunGate> {
    pub(crate) gate: &'t G,
}

impl<'t, G: RunGate> Watcher for Watch<'t, G> {
    ghost is_before = { λ w worker w'. (w'.gate ≡ w.gate) × G.was_before w.gate.now worker };

    ghost is_after = { λ w worker steps w'. (w'.gate ≡ w.gate) × G.was_after w.gate.now worker steps };

    fn before(&mut self, worker: u32) {
        self.gate.before(worker);
    }

    fn after(&mut self, worker: u32, steps: u32) {
        self.gate.after(worker, steps);
    }
}
