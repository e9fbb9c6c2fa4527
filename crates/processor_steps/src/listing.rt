//! What the machine looks up in its program: where a task begins, what it produces, what it lists.

ghost use Rattle.std.specs.Prelude.{◌≡◌, ◌<◌, length, nat_eq, position, IfSome};
ghost use Rattle.mips_instructions.specs.Words.{address};
ghost use Rattle.task_graph.specs.Soundness.{is_target as is_target_of};
ghost use Rattle.machine_model.specs.Machine.{task_at, begins as begins_at};
ghost use Rattle.machine_model.specs.Step.{is_listed as is_listed_at, follows_at};
ghost use Rattle.machine_model.specs.HeadEvent.{task_beginning as task_beginning_at};

use machine_model::event::Spot;
use mips_instructions::number::Place;
use mips_instructions::places::CODE_START;
use task_descriptor::descriptor::Descriptor;
use task_descriptor::program::Program;

#[tactic(auto, unfolding(mips_instructions::specs::Words::address))]
/// The address at which a task begins; that of index 0 for a number beyond the tasks.
#[inline]
pub(crate) fn begins(program: &Program, task: u32) -> u32
    ensures { result ≡ begins_at program.now task }
{
    match program.tasks().get(task as usize) {
        Some(descriptor) => program.address(descriptor.entry),
        None => CODE_START,
    }
}

/// The targets of a task; none for a number beyond the tasks.
#[inline]
pub(crate) fn targets(program: &Program, task: u32) -> &[Place]
    ensures { result.now ≡ (task_at program.now task).targets }
{
    match program.tasks().get(task as usize) {
        Some(descriptor) => descriptor.targets.as_slice(),
        None => &[],
    }
}

/// Whether an address is that of a target of a task.
#[inline]
pub(crate) fn is_listed(program: &Program, task: u32, at: u32) -> bool
    ensures { result ≡ is_listed_at program.now task at }
{
    targets(program, task)
        .iter()
        .any(|target| program.address(*target) == at)
}

/// Whether a place is a target of a task.
#[inline]
fn is_target(program: &Program, task: u32, place: u32) -> bool
    ensures { result ≡ is_target_of (task_at program.now task) place }
{
    targets(program, task)
        .iter()
        .any(|target| place == target.get())
}

/// Whether a task may follow a tail that stands at a spot.
pub(crate) fn may_follow(program: &Program, tail: u32, task: u32, spot: Spot) -> bool
    ensures { result ≡ follows_at program.now tail task spot }
{
    match spot {
        Spot::Inside(_) => is_target(program, tail, entry(program, task)),
        Spot::Stopped(at) => begins(program, task) == at && is_listed(program, tail, at),
    }
}

/// The index at which a task begins; 0 for a number beyond the tasks.
#[inline]
fn entry(program: &Program, task: u32) -> u32
    ensures { result ≡ (task_at program.now task).entry }
{
    match program.tasks().get(task as usize) {
        Some(descriptor) => descriptor.entry.get(),
        None => 0,
    }
}

/// The task that begins at an address, if one does.
pub(crate) fn task_beginning(program: &Program, at: u32) -> Option<u32>
    ensures { result ≡ task_beginning_at program.now at }
{
    let tasks = program.tasks();
    match place_beginning(program, tasks, at) {
        Some(task) => Some(task as u32),
        None => None,
    }
}

/// The place of the first of these tasks that begins at an address.
fn place_beginning(program: &Program, tasks: &[Descriptor], at: u32) -> Option<usize>
    ensures place { result ≡ position (λ task. nat_eq (address task.entry) at) tasks.now }
    ensures within { IfSome result (λ place. place < length tasks.now) }
{
    tasks
        .iter()
        .position(|task| program.address(task.entry) == at)
}
