//! What a worker does while it holds the lock.

use crate::choosing::Choose;
use crate::deeds::Deeds;
use crate::desk::Desk;
use crate::machine_laws::law_drop;
use crate::naming::Naming;
pub(crate) use crate::next::{Idle, NextBurst, Then};
use crate::pace::Pace;
use crate::share::Share;
use crate::slots::put;
use machine_model::event::{Event, Refused, Spot};
use sequencer::machine::Machine;
use std::marker::{Model, PhantomData};
use unit_core::burst::{Burst, MOST_STEPS};
use unit_turns::deciding::turn_at_head;
use unit_turns::laws::law_ring;
use unit_turns::turn::Turn;

/// The most turns of one hold of the lock.
const TURNS_OF_A_HOLD: u32 = 64;

/// The most events by which a worker that serves all units continues with the head in place.
const EVENTS_IN_PLACE: u32 = 1_024;

/// A worker of a run: which units it serves, and how it continues with each.
#[derive(Drop)]
pub(crate) struct Worker<J: Naming + Deeds> {
    share: Share,
    budget: u32,
    paces: [Pace; 16],
    run: PhantomData<J>,
}

impl<J: Naming + Deeds> Model for Worker<J> {
    ghost use Rattle.std.specs.Prelude.{◌≡◌};
    ghost use Rattle.threaded_runner.specs.Shares.{IsShareOf};
    ghost use Rattle.threaded_runner.specs.Workers.{WorkerView};

    ghost Value = { WorkerView };

    ghost view = { λ w. record { share = w.share; budget = w.budget; paces = w.paces } };

    ghost invariant = { λ w. IsShareOf J.units J.workers w.share × (w.budget ≡ J.budget) };
}

impl<J: Naming + Deeds> Worker<J> {
    ghost use Rattle.std.specs.Prelude.{◌≡◌, ℕ, ◌+◌, ◌-◌, ◌<◌, ◌≤◌, ◌⊎◌, min, length, replicate, nat_eq, if◌then◌else◌, Result, Err, true, false};
    ghost use Rattle.machine_model.specs.Answer.{most_events};
    ghost use Rattle.machine_model.specs.declared.event.Event.TheVariants.{Exec};
    ghost use Rattle.machine_model.specs.declared.event.Refused.{Refused};
    ghost use Rattle.machine_model.specs.declared.event.Refused.TheVariants as refused;
    ghost use Rattle.machine_model.specs.declared.event.Standing.TheVariants as standing;
    ghost use Rattle.sequencer.specs.Machines.{state};
    ghost use Rattle.sequencer.specs.Rings.{unit_for};
    ghost use Rattle.unit_turns.specs.Turns.{IsTurn, IsOwn, MayChoose, MayBurst, turn_of};
    ghost use Rattle.threaded_runner.specs.Shares.{IsFirst, IsServed, IsShareOf};
    ghost use Rattle.threaded_runner.specs.Paces.{after_check_in, after_in_place, fresh_pace, is_held, next_task, pace_of};
    ghost use Rattle.threaded_runner.specs.Desks.{DeskView, SameNotes};
    ghost use Rattle.threaded_runner.specs.Holds.{IsStoppedAt, RunsHead, TakesTurns};
    ghost use Rattle.threaded_runner.specs.Workers.{DoesEvent, FollowsUp, GivesUp, IsHandedIn, IsNext, IsSameWorker, IsThenOf, StopsRun, WorkerView, with_pace};
    ghost use Rattle.threaded_runner.specs.HoldTurns.{AppliesAtHead, Executes, ExecutesAtHead, ExecutesSingly, GaveUp, GoesInPlace, Holds, HoldsLong, IsTurnTaken};

    /// A worker that has done nothing.
    pub(crate) fn new(share: Share, budget: u32) -> Worker<J>
        requires share { IsShareOf J.units J.workers share }
        requires budget { budget ≡ J.budget }
        ensures { result ≡ record { share = share; budget = budget; paces = replicate 16 fresh_pace } }
    {
        Worker {
            share,
            budget,
            paces: [Pace::new(); 16],
            run: PhantomData,
        }
    }

    /// Which units the worker serves.
    pub(crate) fn share(&self) -> Share
        ensures value { result ≡ self.now.share }
        ensures of_run { IsShareOf J.units J.workers result }
    {
        self.share
    }

    /// How many events the history may have, not counting those of a burst that is handed in late.
    pub(crate) fn budget(&self) -> u32
        ensures value { result ≡ self.now.budget }
        ensures of_run { result ≡ J.budget }
    {
        self.budget
    }

    /// Takes turns of the worker's units, at most 64. What they did is what `turn` names.
    pub(crate) fn hold<P: Choose>(&mut self, desk: &mut Desk<'_, P, J>) -> Then
        ensures next { IsNext self.new desk.new result }
        ensures turns { TakesTurns self.old.share 0 desk.old desk.new }
        ensures many { result ≡ Then.GoOn → TakesTurns self.old.share 64 desk.old desk.new }
        ensures does { Holds J.was_asked self.old desk.old self.new desk.new }
        ensures long { result ≡ Then.GoOn → HoldsLong J.was_asked self.old desk.old self.new desk.new }
        ensures stays { IsSameWorker self.old self.new }
    {
        for _ in 0..TURNS_OF_A_HOLD {
            if desk.is_done(self.budget) {
                return Then::End;
            }
            let Some((unit, turn)) = self.share.first_turn(desk.machine()) else {
                return self.wait();
            };
            match self.take_turn(desk, unit, turn) {
                Some(then) => return then,
                None => {}
            }
        }
        Then::GoOn
    }

    /// Takes a turn of a unit; or changes nothing, and answers what the worker does without the lock.
    fn take_turn<P: Choose>(
        &mut self,
        desk: &mut Desk<'_, P, J>,
        unit: u32,
        turn: Turn,
    ) -> Option<Then>
        requires first { IsFirst desk.old.machine self.old.share unit }
        requires turn { turn ≡ turn_of desk.old.machine unit }
        requires own { IsTurn desk.old.machine unit turn }
        requires room { length desk.old.machine.history < self.old.budget }
        ensures turn { IsTurnTaken J.was_asked self.old desk.old self.new desk.new result }
        ensures stays { IsSameWorker self.old self.new }
    {
        match turn {
            Turn::Apply(event) => self.apply(desk, unit, event),
            Turn::Choose => self.choose(desk, unit),
            Turn::Burst => self.next_burst(desk, unit),
            Turn::Wait => unreachable!(),
        }
    }

    /// Applies the event of a unit's turn, unless it is an Assign that has to wait.
    fn apply<P: Drop>(&mut self, desk: &mut Desk<'_, P, J>, unit: u32, event: Event) -> Option<Then>
        requires first { IsFirst desk.old.machine self.old.share unit }
        requires turn { Turn.Apply event ≡ turn_of desk.old.machine unit }
        requires own { IsOwn desk.old.machine unit event }
        requires room { length desk.old.machine.history < self.old.budget }
        ensures turn { IsTurnTaken J.was_asked self.old desk.old self.new desk.new result }
        ensures stays { IsSameWorker self.old self.new }
    {
        if assigns(&event) && self.is_held(desk.machine(), unit) {
            return Some(self.wait());
        }
        self.apply_event(desk, unit, event);
        None
    }

    /// Applies the event of a unit's turn. Where memory runs out for it, the unit gives up its task, and the
    /// head the run.
    fn apply_event<P: Drop>(&mut self, desk: &mut Desk<'_, P, J>, unit: u32, event: Event)
        requires served { IsServed self.old.share unit }
        requires turn { Turn.Apply event ≡ turn_of desk.old.machine unit }
        requires own { IsOwn desk.old.machine unit event }
        requires room { length desk.old.machine.history < self.old.budget }
        ensures turn { TakesTurns self.old.share 1 desk.old desk.new }
        ensures did { DoesEvent self.old unit event desk.old self.new desk.new ⊎ GaveUp J.was_asked self.old unit event desk.old self.new desk.new }
        ensures few { length desk.new.machine.history ≤ length desk.old.machine.history + 1 }
        ensures stays { IsSameWorker self.old self.new }
    {
        // Reading the budget gives what is known of it.
        let _ = self.budget();
        let begins = assigns(&event);
        match desk.apply(unit, event) {
            Ok(()) => self.after_event(unit, begins),
            Err(_) => self.give_up(desk, unit),
        }
    }

    /// After an event of a unit, which may begin one of its tasks.
    fn after_event(&mut self, unit: u32, begins: bool)
        ensures { self.new ≡ (if begins then with_pace self.old unit (next_task (pace_of self.old.paces unit)) else self.old) }
    {
        if begins {
            self.begin(unit);
        }
    }

    /// Assigns the task that the predictor chooses to a unit, unless it has to wait.
    fn choose<P: Choose>(&mut self, desk: &mut Desk<'_, P, J>, unit: u32) -> Option<Then>
        requires first { IsFirst desk.old.machine self.old.share unit }
        requires turn { Turn.Choose ≡ turn_of desk.old.machine unit }
        requires own { MayChoose desk.old.machine unit }
        requires room { length desk.old.machine.history < self.old.budget }
        ensures turn { IsTurnTaken J.was_asked self.old desk.old self.new desk.new result }
        ensures stays { IsSameWorker self.old self.new }
    {
        if self.is_held(desk.machine(), unit) {
            return Some(self.wait());
        }
        // Reading the budget gives what is known of it.
        let _ = self.budget();
        desk.choose(unit);
        self.begin(unit);
        None
    }

    /// The worker has nothing to do.
    fn wait(&self) -> Then
        ensures { result ≡ Then.Wait (record { worker = self.now.share.worker }) }
    {
        Then::Wait(Idle {
            worker: self.share.worker,
        })
    }

    /// Whether a unit that was dropped for want of memory takes no task yet: no task has retired since, and
    /// the queue is not empty.
    fn is_held(&self, machine: &Machine<'_>, unit: u32) -> bool
        ensures { result ≡ is_held self.now.paces machine.now unit }
    {
        match self.pace(unit).dropped_at {
            Some(retired) => machine.commits().len() <= retired && machine.head_unit() != unit,
            None => false,
        }
    }

    /// How the worker continues with a unit.
    fn pace(&self, unit: u32) -> Pace
        ensures { result ≡ pace_of self.now.paces unit }
    {
        match self.paces.get(unit as usize) {
            Some(pace) => *pace,
            None => Pace::new(),
        }
    }

    /// The worker continues with a unit at another pace.
    fn set_pace(&mut self, unit: u32, pace: Pace)
        ensures { self.new ≡ with_pace self.old unit pace }
    {
        put(&mut self.paces, unit, pace);
    }

    /// The unit begins a task.
    fn begin(&mut self, unit: u32)
        ensures { self.new ≡ with_pace self.old unit (next_task (pace_of self.old.paces unit)) }
    {
        let pace = self.pace(unit).of_next_task();
        self.set_pace(unit, pace);
    }

    /// The burst that is made next of a unit, unless instructions are executed one by one here.
    fn next_burst<P: Drop>(&mut self, desk: &mut Desk<'_, P, J>, unit: u32) -> Option<Then>
        requires first { IsFirst desk.old.machine self.old.share unit }
        requires turn { Turn.Burst ≡ turn_of desk.old.machine unit }
        requires own { MayBurst desk.old.machine unit }
        requires room { length desk.old.machine.history < self.old.budget }
        ensures turn { IsTurnTaken J.was_asked self.old desk.old self.new desk.new result }
        ensures stays { IsSameWorker self.old self.new }
    {
        let pace = self.pace(unit);
        let room = self.room(desk.machine());
        if pace.single > 0 {
            self.execute(desk, unit, pace.single.min(room));
            return None;
        }
        Some(self.burst_of(unit, pace, room))
    }

    /// A burst of a unit at this pace, where the budget leaves that much room. A worker that serves all units
    /// makes short bursts in place: nobody else waits for the lock.
    fn burst_of(&self, unit: u32, pace: Pace, room: u32) -> Then
        requires { room ≤ 65536 }
        ensures { IsThenOf self.now.share unit pace room result }
    {
        if self.share.is_all() && pace.is_first() {
            let most = EVENTS_IN_PLACE.min(room);
            Then::BurstInPlace(NextBurst { unit, most })
        } else {
            let most = pace.most.min(room);
            Then::Burst(NextBurst { unit, most })
        }
    }

    /// How many events the budget leaves room for, at most as many as a burst may have.
    fn room(&self, machine: &Machine<'_>) -> u32
        ensures { result ≡ min (self.now.budget - length machine.now.history) 65536 }
    {
        let room = (self.budget as usize).saturating_sub(machine.length());
        room.min(MOST_STEPS as usize) as u32
    }

    /// The unit executes instructions under the lock: the head at most the given number, another unit one.
    fn execute<P: Drop>(&mut self, desk: &mut Desk<'_, P, J>, unit: u32, most: u32)
        requires served { IsServed self.old.share unit }
        requires turn { Turn.Burst ≡ turn_of desk.old.machine unit }
        requires own { MayBurst desk.old.machine unit }
        requires some { 0 < most }
        requires paced { most ≤ (pace_of self.old.paces unit).single }
        ensures turn { TakesTurns self.old.share 1 desk.old desk.new }
        ensures singly { ExecutesSingly J.was_asked self.old unit desk.old self.new desk.new }
        ensures few { length desk.new.machine.history ≤ length desk.old.machine.history + most }
        ensures stays { IsSameWorker self.old self.new }
    {
        let steps = self.exec(desk, unit, most);
        let pace = self.pace(unit).after_single(steps);
        self.set_pace(unit, pace);
        if steps == 0 {
            self.give_up(desk, unit);
        }
    }

    /// The instructions of `execute`; answers how many there were.
    fn exec<P: Drop>(&self, desk: &mut Desk<'_, P, J>, unit: u32, most: u32) -> u32
        requires served { IsServed self.now.share unit }
        requires turn { Turn.Burst ≡ turn_of desk.old.machine unit }
        requires own { MayBurst desk.old.machine unit }
        requires some { 0 < most }
        ensures few { result ≤ most }
        ensures history { length desk.new.machine.history ≡ length desk.old.machine.history + result }
        ensures none { result ≡ 0 → (desk.new.machine ≡ desk.old.machine) × ((k : ℕ) × (unit_for desk.old.machine (Exec k) ≡ unit) × IsStoppedAt J.was_asked desk.old.machine (Exec k)) }
        ensures executes { 0 < result → Executes desk.old.machine unit result desk.new.machine }
        ensures notes { SameNotes desk.old desk.new }
        ensures turns { TakesTurns self.now.share result desk.old desk.new }
    {
        // Reading the share gives what is known of it.
        let _ = self.share();
        match desk.machine().position(unit) {
            Some(0) => desk.run_head(most),
            Some(position) => match desk.apply(unit, Event::Exec(position)) {
                Ok(()) => 1,
                Err(_) => 0,
            },
            None => unreachable!(),
        }
    }

    /// The head, which is the unit of this burst, executes its instructions in place, and continues from task
    /// to task by the events that `turn` names: at most the given number of events. Answers how many
    /// instructions that was.
    pub(crate) fn run_in_place<P: Drop>(
        &mut self,
        desk: &mut Desk<'_, P, J>,
        next: &NextBurst,
    ) -> u32
        requires { self.old.share.workers ≡ 1 }
        ensures turns { TakesTurns self.old.share 0 desk.old desk.new }
        ensures few { length desk.new.machine.history ≤ length desk.old.machine.history + next.now.most }
        ensures steps { result ≤ next.now.most }
        ensures paced { (mid : WorkerView) × GoesInPlace J.was_asked self.old result desk.old mid desk.new
            × (self.new ≡ with_pace mid next.now.unit (after_in_place next.now.most result (pace_of mid.paces next.now.unit))) }
        ensures stays { IsSameWorker self.old self.new }
    {
        let mut steps: u32 = 0;
        let mut left = next.most;
        for _ in 0..next.most {
            let run = self.run_inside(desk, left);
            steps += run;
            left -= run;
            if left == 0 {
                break;
            }
            left -= 1;
            if !self.apply_at_head(desk) {
                break;
            }
        }
        let pace = self.pace(next.unit).after_in_place(next.most, steps);
        self.set_pace(next.unit, pace);
        steps
    }

    /// The head executes at most the given number of instructions of its task; answers how many.
    fn run_inside<P: Drop>(&self, desk: &mut Desk<'_, P, J>, most: u32) -> u32
        requires { self.now.share.workers ≡ 1 }
        ensures few { result ≤ most }
        ensures history { length desk.new.machine.history ≡ length desk.old.machine.history + result }
        ensures runs { ExecutesAtHead result desk.old desk.new }
        ensures turns { TakesTurns self.now.share 0 desk.old desk.new }
    {
        // Reading the share gives what is known of it.
        let _ = self.share();
        law_ring(desk.machine());
        match desk.machine().spot(0) {
            Some(Spot::Inside(_)) => desk.run_head(most),
            _ => 0,
        }
    }

    /// Applies the event that the turn of the head's unit names; answers whether the run went on and it names one.
    fn apply_at_head<P: Drop>(&mut self, desk: &mut Desk<'_, P, J>) -> bool
        requires { self.old.share.workers ≡ 1 }
        ensures turns { TakesTurns self.old.share 0 desk.old desk.new }
        ensures applied { result ≡ true → AppliesAtHead J.was_asked self.old desk.old self.new desk.new }
        ensures none { result ≡ false → (self.new ≡ self.old) × (desk.new ≡ desk.old) }
        ensures few { length desk.new.machine.history ≤ length desk.old.machine.history + 1 }
        ensures stays { IsSameWorker self.old self.new }
    {
        // Reading the share gives what is known of it.
        let _ = self.share();
        if desk.is_done(self.budget) {
            return false;
        }
        let machine = desk.machine();
        let head = machine.head_unit();
        match turn_at_head(machine, head) {
            Turn::Apply(event) => {
                self.apply_event(desk, head, event);
                true
            }
            _ => false,
        }
    }

    /// Want of memory for an event of a unit: one that is not the head is dropped, and at the head the run
    /// must stop.
    fn give_up<P: Drop>(&mut self, desk: &mut Desk<'_, P, J>, unit: u32)
        requires running { (state desk.old.machine).outcome ≡ standing.Running }
        requires room { length desk.old.machine.history < most_events }
        ensures { GivesUp self.old unit desk.old self.new desk.new ⊎ StopsRun self.old unit desk.old self.new desk.new }
    {
        match desk.machine().position(unit) {
            Some(0) => desk.stop(),
            Some(position) => self.drop_task(desk, unit, position),
            None => desk.stop(),
        }
    }

    /// A unit ahead of the head gives up its task.
    fn drop_task<P: Drop>(&mut self, desk: &mut Desk<'_, P, J>, unit: u32, position: u32)
        requires running { (state desk.old.machine).outcome ≡ standing.Running }
        requires room { length desk.old.machine.history < most_events }
        requires ahead { 0 < position }
        requires within { position < length (state desk.old.machine).queue }
        requires belongs { unit_for desk.old.machine (Exec position) ≡ unit }
        ensures { GivesUp self.old unit desk.old self.new desk.new }
    {
        law_drop(desk.machine(), position);
        let retired = desk.machine().commits().len();
        let mut pace = self.pace(unit);
        pace.dropped_at = Some(retired);
        self.set_pace(unit, pace);
        match desk.apply(unit, Event::Drop(position)) {
            Ok(()) => {}
            Err(_) => unreachable!(),
        }
    }

    /// Hands in the burst that was made as `next` states. Where memory runs out for it, the unit gives up its
    /// task if it is ahead of the head; the head continues by single instructions.
    pub(crate) fn check_in<P: Drop>(
        &mut self,
        desk: &mut Desk<'_, P, J>,
        next: &NextBurst,
        burst: &mut Burst<'_>,
    )
        requires { burst.old.accepted ≡ J.accepted }
        ensures answered { (answer : Result ℕ Refused) × (mid : DeskView) × J.was_handed_in desk.old.machine burst.old answer
            × IsHandedIn desk.old burst.old answer mid × FollowsUp self.old next.now burst.old.steps answer mid self.new desk.new }
        ensures stays { IsSameWorker self.old self.new }
    {
        let steps = burst.steps();
        let answer = desk.check_in(burst);
        self.follow_up(desk, next, steps, answer);
    }

    /// After the answer to a burst of the given number of instructions.
    fn follow_up<P: Drop>(
        &mut self,
        desk: &mut Desk<'_, P, J>,
        next: &NextBurst,
        steps: u32,
        answer: Result<u32, Refused>,
    )
        requires running { answer ≡ Err refused.OutOfMemory → (state desk.old.machine).outcome ≡ standing.Running }
        requires room { answer ≡ Err refused.OutOfMemory → length desk.old.machine.history < most_events }
        ensures { FollowsUp self.old next.now steps answer desk.old self.new desk.new }
    {
        if desk.machine().head_unit() == next.unit {
            return self.go_on(next, steps, answer);
        }
        match answer {
            Ok(events) => self.go_on(next, steps, Ok(events)),
            Err(why) => {
                if why == Refused::OutOfMemory {
                    self.give_up(desk, next.unit)
                } else {
                    self.go_on(next, steps, Err(why))
                }
            }
        }
    }

    /// Continues with a unit after the answer to a burst of the given number of instructions.
    fn go_on(&mut self, next: &NextBurst, steps: u32, answer: Result<u32, Refused>)
        ensures { self.new ≡ with_pace self.old next.now.unit (after_check_in (nat_eq self.old.share.workers 1) next.now.most steps answer (pace_of self.old.paces next.now.unit)) }
    {
        let is_all = self.share.is_all();
        let pace = self
            .pace(next.unit)
            .after_check_in(is_all, next.most, steps, answer);
        self.set_pace(next.unit, pace);
    }
}

ghost use Rattle.std.specs.Prelude.{◌≡◌};
ghost use Rattle.threaded_runner.specs.Workers.{is_assign};

/// Whether an event begins a task.
fn assigns(event: &Event) -> bool
    ensures { result ≡ is_assign event.now }
{
    matches!(event, Event::Assign(_))
}
