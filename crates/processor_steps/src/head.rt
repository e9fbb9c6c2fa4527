//! The event that the head is ready for.

ghost use Rattle.std.specs.Prelude.{◌≡◌, slice_get, drop};
ghost use Rattle.std.specs.List.{last_or};
ghost use Rattle.machine_model.specs.Machine.{Active};
ghost use Rattle.machine_model.specs.HeadEvent.{event_of_head as event_of_head_at, event_of_queue};
ghost use Rattle.processor_steps.specs.Processors.{state_of};
ghost use Rattle.processor_steps.specs.Choices.{targets_behind, task_behind, task_at_spot, task_chosen};
ghost use Rattle.unit_core.specs.Units.{active_of};
ghost use Rattle.machine_model.specs.declared.event.Spot.TheVariants as spot;

use crate::allowed::unsent;
use crate::listing::{is_listed, targets, task_beginning};
use crate::processor::Processor;
use machine_model::event::{Event, Spot};
use mips_instructions::number::Place;
use task_descriptor::program::Program;
use unit_core::unit::Unit;

impl Processor {
    /// The event that the head is ready for while the run continues; on an empty queue, the Assign of the task
    /// at the next address. `None` where no task begins there.
    pub fn event_at_head(&self, program: &Program) -> Option<Event>
        ensures { result ≡ event_of_queue program.now (state_of self.now).next (state_of self.now).queue }
    {
        match self.queue.get(0) {
            Some(head) => Some(self.event_of_head(program, head)),
            None => match task_beginning(program, self.next) {
                Some(task) => Some(Event::Assign(task)),
                None => None,
            },
        }
    }

    /// The event that a head is ready for.
    fn event_of_head(&self, program: &Program, head: &Unit) -> Event
        ensures { result ≡ event_of_head_at program.now (active_of head.now) (drop 1 (state_of self.now).queue) (active_of head.now).place }
    {
        match head.spot() {
            Spot::Inside(_) => Event::Exec(0),
            Spot::Stopped(exit) => self.event_at_exit(program, head, exit),
        }
    }

    /// The event that a stopped head is ready for.
    fn event_at_exit(&self, program: &Program, head: &Unit, exit: u32) -> Event
        ensures { result ≡ event_of_head_at program.now (active_of head.now) (drop 1 (state_of self.now).queue) (spot.Stopped exit) }
    {
        if !is_listed(program, head.task(), exit) {
            return Event::Fault;
        }
        if !self.next_begins_at(program, exit) {
            return Event::Squash(0);
        }
        match unsent(program, head) {
            Some(register) => Event::Drain(0, register),
            None => Event::Retire,
        }
    }

    /// The targets of a tail that has not stopped, as code indices; none where there is no such tail.
    pub fn targets_of_tail<'p>(&self, program: &'p Program) -> &'p [Place]
        ensures { result.now ≡ targets_behind program.now (last_or None (state_of self.now).queue) }
    {
        match self.queue.tail() {
            Some(tail) => match tail.spot() {
                Spot::Inside(_) => targets(program, tail.task()),
                Spot::Stopped(_) => &[],
            },
            None => &[],
        }
    }

    /// The number of the task that may be assigned next: after a tail that has not stopped, the one at its
    /// target `answer` modulo the number of targets; after a stopped tail, the one at its exit; on an empty
    /// queue, the one at the next address. The last two hold whatever the answer. `None` where no task may
    /// follow.
    pub fn task_to_assign(&self, program: &Program, answer: u32) -> Option<u32>
        ensures { result ≡ task_behind program.now (state_of self.now).next (last_or None (state_of self.now).queue) answer }
    {
        match self.queue.tail() {
            Some(tail) => task_behind_tail(program, tail.task(), tail.spot(), answer),
            None => task_beginning(program, self.next),
        }
    }
}

/// The task that may be assigned after a tail at a spot.
fn task_behind_tail(program: &Program, tail: u32, spot: Spot, answer: u32) -> Option<u32>
    ensures { result ≡ task_at_spot program.now tail spot answer }
{
    match spot {
        Spot::Inside(_) => task_of_choice(program, targets(program, tail), answer),
        Spot::Stopped(at) if is_listed(program, tail, at) => task_beginning(program, at),
        Spot::Stopped(_) => None,
    }
}

/// The task that begins at the target with index `answer` modulo the number of targets.
fn task_of_choice(program: &Program, targets: &[Place], answer: u32) -> Option<u32>
    ensures { result ≡ task_chosen program.now targets.now answer }
{
    if targets.is_empty() {
        return None;
    }
    let target = targets[answer as usize % targets.len()];
    task_beginning(program, program.address(target))
}
