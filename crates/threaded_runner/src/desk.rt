//! What the lock holds: the machine, the predictor, how many events each worker applied, and the note that
//! the run must stop for want of memory.

use crate::choosing::Choose;
use crate::counts::{add, zeros};
use crate::deeds::Deeds;
use crate::machine_laws::law_replay;
use crate::naming::Naming;
use crate::report::{How, Report};
use crate::share::Share;
use crate::slots::put;
use machine_model::event::{Event, Refused, Standing};
use sequencer::machine::Machine;
use std::alloc::{AllocError, Global};
use std::marker::{Model, PhantomData};
use unit_core::burst::Burst;
use unit_turns::called::Called;
use unit_turns::laws::law_head_unit;

/// What the lock holds: the machine of the run, and what else its workers share.
#[derive(Drop)]
pub(crate) struct Desk<'a, P: Drop, J: Naming + Deeds> {
    machine: Machine<'a>,
    predictor: P,
    counts: Vec<u64>,
    is_stopped: bool,
    asleep: [bool; 16],
    run: PhantomData<J>,
}

impl<'a, P: Drop, J: Naming + Deeds> Model for Desk<'a, P, J> {
    ghost use Rattle.threaded_runner.specs.Desks.{DeskView, IsDesk, IsOfRun};

    ghost Value = { DeskView };

    ghost view = { λ d. record { machine = d.machine; counts = d.counts.items; is_stopped = d.is_stopped; asleep = d.asleep } };

    ghost invariant = { λ d. IsDesk (record { machine = d.machine; counts = d.counts.items; is_stopped = d.is_stopped; asleep = d.asleep })
        × IsOfRun J.accepted J.units J.workers J.budget (record { machine = d.machine; counts = d.counts.items; is_stopped = d.is_stopped; asleep = d.asleep }) };
}

impl<'a, P: Drop, J: Naming + Deeds> Desk<'a, P, J> {
    ghost use Rattle.std.specs.Prelude.{◌≡◌, ℕ, ◌+◌, ◌<◌, ◌≤◌, ◌⊎◌, ◌↔◌, [], ◌++◌, replicate, slice_get, slice_set, unwrap_or, IfOk, IfErr, OnOk, OnErr, IsTrue, length, true, false, Ok, Some};
    ghost use Rattle.sequencer.specs.Machines.{state, units_of, SameRing, Applies, IsAnswered, answer_to};
    ghost use Rattle.sequencer.specs.Rings.{unit_for};
    ghost use Rattle.sequencer.specs.Choices.{choice_of};
    ghost use Rattle.sequencer.specs.Bursts.{IsFresh, IsRefusedBurst, Takes};
    ghost use Rattle.machine_model.specs.Answer.{most_events};
    ghost use Rattle.threaded_runner.specs.Reports.{IsThreadsReportOf, is_late};
    ghost use Rattle.threaded_runner.specs.Desks.{IsDone, SameNotes, nobody, stopped};
    ghost use Rattle.threaded_runner.specs.Holds.{IsStoppedAt, RunsHead};
    ghost use Rattle.threaded_runner.specs.Shares.{AllWait, IsShareOf};
    ghost use Rattle.threaded_runner.specs.Calls.{AreCalled, AreRung, IsAsleep};
    ghost use Rattle.unit_turns.specs.Turns.{MayChoose};
    ghost use Rattle.machine_model.specs.declared.event.Event.{Event};
    ghost use Rattle.machine_model.specs.declared.event.Event.TheVariants.{Exec};
    ghost use Rattle.machine_model.specs.declared.event.Standing.TheVariants as standing;

    /// A machine at its start, of which no worker has applied an event.
    pub(crate) fn new(
        alloc: Global,
        machine: Machine<'a>,
        predictor: P,
        workers: u32,
    ) -> Result<Desk<'a, P, J>, AllocError>
        requires workers { (0 < workers) × (workers ≡ J.workers) }
        requires over { (machine.accepted ≡ J.accepted) × (units_of machine ≡ J.units) }
        requires start { machine.history ≡ [] }
        ensures { IfOk result (λ desk. (desk.machine ≡ machine.entry) × (length desk.counts ≡ workers) × (desk.is_stopped ≡ false) × (desk.asleep ≡ nobody)) }
    {
        let counts = zeros(alloc, workers)?;
        Ok(Desk {
            machine,
            predictor,
            counts,
            is_stopped: false,
            asleep: [false; 16],
            run: PhantomData,
        })
    }

    /// The machine.
    #[inline]
    pub(crate) fn machine(&self) -> &Machine<'a>
        ensures machine { result.now ≡ self.now.machine }
        ensures over { result.now.accepted ≡ J.accepted }
        ensures units { units_of result.now ≡ J.units }
    {
        &self.machine
    }

    /// Whether no worker continues: the note is set, the run has ended, or the history has reached the
    /// budget.
    #[inline]
    pub(crate) fn is_done(&self, budget: u32) -> bool
        ensures { IsTrue result ↔ IsDone budget self.now }
    {
        self.is_stopped
            || self.machine.outcome() != Standing::Running
            || self.machine.length() >= budget as usize
    }

    /// Notes that the run must stop for want of memory.
    pub(crate) fn stop(&mut self)
        ensures { self.new ≡ stopped self.old }
    {
        self.is_stopped = true;
    }

    /// Applies an event of a unit, and counts it for the worker of that unit. Once the budget is spent this is an
    /// instruction or a Drop.
    ///
    /// # Errors
    ///
    /// Why the machine refuses the event; nothing is changed then.
    #[inline]
    pub(crate) fn apply(&mut self, unit: u32, event: Event) -> Result<(), Refused>
        requires belongs { unit_for self.old.machine event ≡ unit }
        requires room { is_late event ≡ false → length self.old.machine.history < J.budget }
        ensures answer { IsAnswered self.old.machine event result }
        ensures ok { OnOk result (Applies self.old.machine event self.new.machine) }
        ensures err { OnErr result (self.new ≡ self.old) }
        ensures asked { J.was_asked self.old.machine event result }
        ensures kept { SameRing self.old.machine self.new.machine }
        ensures notes { SameNotes self.old self.new }
        ensures workers { length self.new.counts ≡ length self.old.counts }
    {
        law_replay(&self.machine);
        J::apply(&mut self.machine, event)?;
        law_replay(&self.machine);
        add(&mut self.counts, unit, 1);
        Ok(())
    }

    /// The head executes at most the given number of instructions, each counted for the worker of its unit; answers
    /// how many. It ends earlier where one is refused.
    pub(crate) fn run_head(&mut self, most: u32) -> u32
        ensures few { result ≤ most }
        ensures ran { RunsHead self.old.machine result self.new.machine }
        ensures until { result < most → IsStoppedAt J.was_asked self.new.machine (Exec 0) }
        ensures history { self.new.machine.history ≡ self.old.machine.history ++ replicate result (Exec 0) }
        ensures room { length self.new.machine.history ≤ most_events }
        ensures kept { SameRing self.old.machine self.new.machine }
        ensures notes { SameNotes self.old self.new }
        ensures workers { length self.new.counts ≡ length self.old.counts }
    {
        law_replay(&self.machine);
        let unit = self.machine.head_unit();
        let steps = exec_head::<J>(&mut self.machine, most);
        law_replay(&self.machine);
        add(&mut self.counts, unit, steps);
        steps
    }

    /// Applies the Assign that an answer chooses, which is the unit's.
    fn assign(&mut self, unit: u32, answer: u32)
        requires may { MayChoose self.old.machine unit }
        requires room { length self.old.machine.history < J.budget }
        ensures chosen { (e : Event) × (choice_of self.old.machine.accepted.program (state self.old.machine) answer ≡ Some e) × Applies self.old.machine e self.new.machine }
        ensures kept { SameRing self.old.machine self.new.machine }
        ensures notes { SameNotes self.old self.new }
    {
        let event = assign_of(&self.machine, unit, answer);
        match self.apply(unit, event) {
            Ok(()) => {}
            Err(_) => unreachable!(),
        }
    }

    /// Hands in a burst, and counts its events for the worker of the unit that takes it over. Answers 0
    /// where the burst is stale or has no step; nothing is changed then.
    ///
    /// # Errors
    ///
    /// Why the machine refuses the burst; nothing is changed then.
    pub(crate) fn check_in(&mut self, burst: &mut Burst<'_>) -> Result<u32, Refused>
        requires own { burst.old.accepted ≡ J.accepted }
        ensures running { IfOk result (λ events. (state self.old.machine).outcome ≡ standing.Running) }
        ensures stale { IfOk result (λ events. events ≡ 0 → (IsFresh self.old.machine burst.old → ⊥) × (self.new ≡ self.old)) }
        ensures taken { IfOk result (λ events. 0 < events → (events ≡ burst.old.steps) × Takes self.old.machine burst.old self.new.machine) }
        ensures refused { IfErr result (λ why. (self.new ≡ self.old) × IsRefusedBurst self.old.machine burst.old why) }
        ensures handed_in { J.was_handed_in self.old.machine burst.old result }
        ensures kept { SameRing self.old.machine self.new.machine }
        ensures notes { SameNotes self.old self.new }
        ensures workers { length self.new.counts ≡ length self.old.counts }
    {
        law_replay(&self.machine);
        let unit = self.machine.unit_with(burst.before().serial()).unwrap_or(0);
        let events = J::hand_in(&mut self.machine, burst)?;
        if events == 0 {
            return Ok(0);
        }
        law_replay(&self.machine);
        add(&mut self.counts, unit, events);
        Ok(events)
    }

    /// Applies the head event, and counts it for the worker of its unit; answers whether there was
    /// one and it was not refused.
    fn apply_head_event(&mut self) -> bool
        requires { length self.old.machine.history < J.budget }
        ensures grows { IsTrue result → (length self.new.machine.history ≡ length self.old.machine.history + 1) × (length self.new.machine.history ≤ most_events) }
        ensures workers { length self.new.counts ≡ length self.old.counts }
    {
        law_head_unit(&self.machine);
        let unit = self.machine.head_unit();
        let Some(event) = self.machine.head_event() else {
            return false;
        };
        if self.apply(unit, event).is_err() {
            return false;
        }
        law_replay(&self.machine);
        true
    }

    /// Applies head events until no worker would continue; where one is refused the note is set.
    fn finish(&mut self, budget: u32)
        requires { budget ≡ J.budget }
        ensures done { IsDone budget self.new }
        ensures workers { length self.new.counts ≡ length self.old.counts }
    {
        while !self.is_done(budget) {
            if !self.apply_head_event() {
                self.stop();
                return;
            }
        }
    }

    /// The report of the run, once all workers have ended; where nothing ended them the run continues by
    /// head events first.
    ///
    /// # Errors
    ///
    /// `AllocError` where the note is set.
    pub(crate) fn report(mut self, budget: u32) -> Result<Report<'a>, AllocError>
        requires { budget ≡ J.budget }
        ensures { IfOk result (IsThreadsReportOf J.accepted J.units J.workers budget) }
    {
        self.finish(budget);
        let Desk {
            machine,
            predictor: _,
            counts,
            is_stopped,
            asleep: _,
            run: _,
        } = self;
        if is_stopped {
            return Err(AllocError);
        }
        law_replay(&machine);
        let how = match machine.outcome() {
            Standing::Running => How::OutOfBudget,
            _ => How::Ended,
        };
        Ok(Report {
            machine,
            counts,
            how,
        })
    }

    /// The workers that wait and now have something to do, a turn or the end of the run; they count as awake from
    /// now on.
    pub(crate) fn call(&mut self, share: Share, budget: u32) -> Called
        requires { IsShareOf J.units J.workers share }
        ensures others { self.new ≡ record self.old { asleep = self.new.asleep } }
        ensures called { AreCalled budget share self.new }
        ensures rung { AreRung self.old.asleep self.new.asleep result }
    {
        let is_over = self.is_done(budget);
        let mut called = Called::none();
        for worker in 0..share.workers {
            self.call_one(Share { worker, ..share }, is_over, &mut called);
        }
        called
    }

    /// Calls a worker if it waits and has something to do.
    fn call_one(&mut self, theirs: Share, is_over: bool, called: &mut Called)
        requires { IsShareOf J.units J.workers theirs }
        ensures others { self.new ≡ record self.old { asleep = self.new.asleep } }
        ensures mine { IsAsleep self.new.asleep theirs.worker → (is_over ≡ false) × AllWait self.old.machine theirs }
        ensures rest { (w : ℕ) → (w ≡ theirs.worker → ⊥) → slice_get self.new.asleep w ≡ slice_get self.old.asleep w }
        ensures rung { IsAsleep self.old.asleep theirs.worker → (IsAsleep self.new.asleep theirs.worker → ⊥) → slice_get called.new theirs.worker ≡ Some true }
        ensures kept { (w : ℕ) → slice_get called.old w ≡ Some true → slice_get called.new w ≡ Some true }
    {
        if !self.is_asleep(theirs.worker) {
            return;
        }
        if !self.has_work(theirs, is_over) {
            return;
        }
        self.awake(theirs.worker);
        called.add(theirs.worker);
    }

    /// Whether a worker has something to do: a turn, or to end.
    fn has_work(&self, theirs: Share, is_over: bool) -> bool
        requires { IsShareOf J.units J.workers theirs }
        ensures { result ≡ false → (is_over ≡ false) × AllWait self.now.machine theirs }
    {
        if is_over {
            return true;
        }
        theirs.first_turn(self.machine()).is_some()
    }

    /// Notes that a worker waits.
    pub(crate) fn fall_asleep(&mut self, worker: u32)
        ensures notes { self.new ≡ record self.old { asleep = slice_set self.old.asleep worker true } }
        ensures marked { worker < 16 → IsAsleep self.new.asleep worker }
    {
        put(&mut self.asleep, worker, true);
    }

    /// Notes that a worker does not wait.
    pub(crate) fn awake(&mut self, worker: u32)
        ensures { self.new ≡ record self.old { asleep = slice_set self.old.asleep worker false } }
    {
        put(&mut self.asleep, worker, false);
    }

    /// Whether a worker waits; there are at most 16.
    pub(crate) fn is_asleep(&self, worker: u32) -> bool
        ensures value { (result ≡ true) ↔ IsAsleep self.now.asleep worker }
        ensures within { result ≡ true → worker < 16 }
    {
        match self.asleep.get(worker as usize) {
            Some(asleep) => *asleep,
            None => false,
        }
    }
}

impl<'a, P: Choose, J: Naming + Deeds> Desk<'a, P, J> {
    ghost use Rattle.std.specs.Prelude.{◌≡◌, ℕ, ◌<◌, length, Some};
    ghost use Rattle.sequencer.specs.Machines.{state, SameRing, Applies};
    ghost use Rattle.sequencer.specs.Choices.{choice_of};
    ghost use Rattle.threaded_runner.specs.Desks.{SameNotes};
    ghost use Rattle.unit_turns.specs.Turns.{MayChoose};
    ghost use Rattle.machine_model.specs.declared.event.Event.{Event};

    /// Asks the predictor which target comes next, and applies that target's Assign, which is the unit's. Such an
    /// event takes no memory and is not refused.
    pub(crate) fn choose(&mut self, unit: u32)
        requires may { MayChoose self.old.machine unit }
        requires room { length self.old.machine.history < J.budget }
        ensures chosen { (answer : ℕ) × (e : Event) × (choice_of self.old.machine.accepted.program (state self.old.machine) answer ≡ Some e) × Applies self.old.machine e self.new.machine }
        ensures kept { SameRing self.old.machine self.new.machine }
        ensures notes { SameNotes self.old self.new }
    {
        let answer = self.predictor.answer(&self.machine, unit);
        self.assign(unit, answer);
    }
}

ghost use Rattle.std.specs.Prelude.{◌≡◌, ◌<◌, ◌≤◌, ◌++◌, replicate, Some};
ghost use Rattle.machine_model.specs.declared.event.Event.TheVariants.{Exec};
ghost use Rattle.machine_model.specs.Answer.{most_events};
ghost use Rattle.sequencer.specs.Machines.{state, SameRing};
ghost use Rattle.sequencer.specs.Choices.{choice_of};
ghost use Rattle.unit_turns.specs.Turns.{IsOwn, MayChoose};
ghost use Rattle.threaded_runner.specs.Holds.{IsStoppedAt, RunsHead};

/// The Assign that an answer chooses, where the unit is the one that may take a task that is chosen.
fn assign_of(machine: &Machine<'_>, unit: u32, answer: u32) -> Event
    requires { MayChoose machine.now unit }
    ensures chosen { choice_of machine.now.accepted.program (state machine.now) answer ≡ Some result }
    ensures own { IsOwn machine.now unit result }
{
    machine.law_answers();
    match machine.choice(answer) {
        Some(event) => event,
        None => unreachable!(),
    }
}

/// The head executes at most the given number of instructions; answers how many. It ends earlier only where one is
/// refused.
#[tactic(auto, using(crate::proofs::Locked::one_more))]
fn exec_head<J: Deeds>(machine: &mut Machine<'_>, most: u32) -> u32
    ensures few { result ≤ most }
    ensures ran { RunsHead machine.old result machine.new }
    ensures until { result < most → IsStoppedAt J.was_asked machine.new (Exec 0) }
    ensures history { machine.new.history ≡ machine.old.history ++ replicate result (Exec 0) }
    ensures kept { SameRing machine.old machine.new }
{
    for steps in 0..most {
        if J::apply(machine, Event::Exec(0)).is_err() {
            return steps;
        }
    }
    most
}
