//! A history followed event by event: the lives so far, and the tasks at work.

ghost use Rattle.std.specs.Prelude.{◌≡◌, ◌+◌, ◌^◌, ◌<◌, ◌≤◌, [], ◌∷◌, ◌++◌, length, take, drop, slice_set, IfSome, IfNone};
ghost use Rattle.task_lives.specs.declared.life.Ending.TheVariants.{Retired};
ghost use Rattle.task_lives.specs.AtWork.{AreWithin, HaveRoom, closed, all_closed, with_more, more_executed};

use crate::life::{Ending, Life};
use machine_model::event::{Event, EventRun};
use std::alloc::{AllocError, Global};
use std::marker::Model;

/// A task at work: its index among the lives, and its life so far.
#[derive(Clone, Copy, Debug)]
pub(crate) struct AtWork {
    pub(crate) index: usize,
    pub(crate) life: Life,
}

/// What is known of the lives after the events so far. The life of a task at work has its index among
/// the lives, and is written there when it ends.
#[derive(Debug, Drop)]
pub(crate) struct Following {
    lives: Vec<Life>,
    queue: Vec<AtWork>,
    units: u32,
    retired: u32,
    events: u32,
}

impl Model for Following {
    ghost use Rattle.task_lives.specs.Following.{FollowingView, IsFollowing};

    ghost Value = { FollowingView };

    ghost view = { λ f. record { lives = f.lives.items; queue = f.queue.items; units = f.units; retired = f.retired; events = f.events } };

    ghost invariant = { λ f. IsFollowing (record { lives = f.lives.items; queue = f.queue.items; units = f.units; retired = f.retired; events = f.events }) };
}

impl Following {
    ghost use Rattle.std.specs.Prelude.{◌≡◌, ◌+◌, ◌<◌, ◌≤◌, List, [], ◌∷◌, length, replicate, OnOk};
    ghost use Rattle.machine_model.specs.Answer.{most_events};
    ghost use Rattle.machine_model.specs.declared.event.Event.{Event};
    ghost use Rattle.machine_model.specs.declared.event.Event.TheVariants.{Assign, Exec, Squash, Retire, Drop};
    ghost use Rattle.task_lives.specs.Lives.{lives_of, Fits, AllFit};
    ghost use Rattle.task_lives.specs.Following.{Follows, all_lives};

    /// Before the first event.
    pub(crate) fn new(alloc: Global, units: u32) -> Following
        requires { 0 < units }
        ensures lives { (history : List Event) → all_lives result history ≡ lives_of units history }
        ensures events { result.events ≡ 0 }
        ensures queue { result.queue ≡ [] }
    {
        Following {
            lives: Vec::new(alloc),
            queue: Vec::new(alloc),
            units,
            retired: 0,
            events: 0,
        }
    }

    /// After an event.
    pub(crate) fn follow(&mut self, event: Event) -> Result<(), AllocError>
        requires fits { Fits (length self.old.queue) event }
        requires room { self.old.events < most_events }
        ensures { OnOk result (Follows self.old (event ∷ []) self.new) }
    {
        match event {
            Event::Assign(task) => self.assign(task)?,
            Event::Exec(position) => self.execute(position, 1),
            Event::Squash(position) => self.squash(position),
            Event::Retire => self.retire(),
            Event::Drop(position) => self.drop_from(position),
            Event::Transfer(_, _) => self.pass(),
            Event::Drain(_, _) => self.pass(),
            Event::Fault => self.pass(),
        }
        Ok(())
    }

    /// After a run of equal events.
    pub(crate) fn follow_run(&mut self, run: EventRun) -> Result<(), AllocError>
        requires fit { AllFit (length self.old.queue) (replicate run.count run.event) }
        requires room { self.old.events + run.count ≤ most_events }
        ensures { OnOk result (Follows self.old (replicate run.count run.event) self.new) }
    {
        if let Event::Exec(position) = run.event {
            self.execute(position, run.count);
            return Ok(());
        }
        for _ in 0..run.count {
            self.follow(run.event)?;
        }
        Ok(())
    }

    /// After an Assign.
    fn assign(&mut self, task: u32) -> Result<(), AllocError>
        requires { self.old.events < most_events }
        ensures { OnOk result (Follows self.old (Assign task ∷ []) self.new) }
    {
        let life = Life {
            task,
            unit: (self.retired + self.queue.len() as u32) % self.units,
            first: self.events,
            last: self.events,
            executed: 0,
            ending: Ending::Unfinished,
        };
        let index = self.lives.len();
        self.lives.push(life)?;
        self.queue.push(AtWork { index, life })?;
        self.events += 1;
        Ok(())
    }

    /// After `count` instructions of the unit at a position.
    pub(crate) fn execute(&mut self, position: u32, count: u32)
        requires { self.old.events + count ≤ most_events }
        ensures { Follows self.old (replicate count (Exec position)) self.new }
    {
        add_executed(&mut self.queue, position as usize, count);
        self.events += count;
    }

    /// After an event that tells nothing about a life.
    fn pass(&mut self)
        requires { self.old.events < most_events }
        ensures { self.new ≡ record self.old { events = self.old.events + 1 } }
    {
        self.events += 1;
    }

    /// After a Squash.
    fn squash(&mut self, position: u32)
        requires fits { position < length self.old.queue }
        requires room { self.old.events < most_events }
        ensures { Follows self.old (Squash position ∷ []) self.new }
    {
        let kept = position as usize + 1;
        close_behind(
            &mut self.queue,
            &mut self.lives,
            kept,
            self.events,
            Ending::Squashed,
        );
        self.events += 1;
    }

    /// After a Drop.
    fn drop_from(&mut self, position: u32)
        requires fits { position ≤ length self.old.queue }
        requires room { self.old.events < most_events }
        ensures { Follows self.old (Drop position ∷ []) self.new }
    {
        let kept = position as usize;
        close_behind(
            &mut self.queue,
            &mut self.lives,
            kept,
            self.events,
            Ending::Dropped,
        );
        self.events += 1;
    }

    /// After a Retire.
    fn retire(&mut self)
        requires { self.old.events < most_events }
        ensures { Follows self.old (Retire ∷ []) self.new }
    {
        close_head(&mut self.queue, &mut self.lives, self.events);
        self.retired += 1;
        self.events += 1;
    }

    /// The lives of the events so far: the tasks at work are unfinished.
    pub(crate) fn finish(self) -> Vec<Life>
        ensures { result.items ≡ all_lives self [] }
    {
        let Following {
            mut lives,
            mut queue,
            units: _,
            retired: _,
            events,
        } = self;
        let last = events.saturating_sub(1);
        close_behind(&mut queue, &mut lives, 0, last, Ending::Unfinished);
        lives
    }
}

/// Ends the life of a task in an event.
fn close(lives: &mut Vec<Life>, at_work: AtWork, last: u32, ending: Ending)
    requires { at_work.index < length lives.old.items }
    ensures { lives.new.items ≡ slice_set lives.old.items at_work.index (closed last ending at_work.life) }
{
    lives[at_work.index] = Life {
        last,
        ending,
        ..at_work.life
    };
}

/// Ends the life of the task at the head, where there is one: it retired.
fn close_head(queue: &mut Vec<AtWork>, lives: &mut Vec<Life>, last: u32)
    requires { AreWithin (length lives.old.items) queue.old.items }
    ensures queue { queue.new.items ≡ drop 1 queue.old.items }
    ensures lives { lives.new.items ≡ all_closed last Retired (take 1 queue.old.items) lives.old.items }
{
    if queue.is_empty() {
        return;
    }
    let head = queue.remove(0);
    close(lives, head, last, Ending::Retired);
}

/// Removes the task at the tail, if there are more than `kept`.
fn pop_behind(queue: &mut Vec<AtWork>, kept: usize) -> Option<AtWork>
    ensures some { IfSome result (λ tail. (queue.old.items ≡ queue.new.items ++ tail ∷ []) × (kept ≤ length queue.new.items)) }
    ensures none { IfNone result ((queue.new.items ≡ queue.old.items) × (length queue.old.items ≤ kept)) }
{
    if queue.len() > kept {
        queue.pop()
    } else {
        None
    }
}

/// Ends the lives of all tasks but the first `kept`, from the tail on.
fn close_behind(
    queue: &mut Vec<AtWork>,
    lives: &mut Vec<Life>,
    kept: usize,
    last: u32,
    ending: Ending,
)
    requires { AreWithin (length lives.old.items) queue.old.items }
    ensures queue { queue.new.items ≡ take kept queue.old.items }
    ensures lives { lives.new.items ≡ all_closed last ending (drop kept queue.old.items) lives.old.items }
{
    while let Some(tail) = pop_behind(queue, kept) {
        close(lives, tail, last, ending);
    }
}

/// A task that executed `count` more instructions.
fn with(at_work: AtWork, count: u32) -> AtWork
    requires { at_work.life.executed + count < 2 ^ 32 }
    ensures { result ≡ with_more count at_work }
{
    let life = Life {
        executed: at_work.life.executed + count,
        ..at_work.life
    };
    AtWork { life, ..at_work }
}

/// Counts instructions of the task at a position; after the tail there is none.
fn add_executed(queue: &mut Vec<AtWork>, position: usize, count: u32)
    requires { HaveRoom count queue.old.items }
    ensures { queue.new.items ≡ more_executed 0 position count queue.old.items }
{
    if position < queue.len() {
        let at_work = queue[position];
        queue[position] = with(at_work, count);
    }
}
