//! Programs compared by value.

ghost use Rattle.std.specs.Prelude.{◌≡◌, ◌↔◌, IsTrue};

use crate::descriptor::{Descriptor, Marked};
use crate::name::Name;
use mips_instructions::instruction::Op;
use mips_instructions::number::Place;

/// Whether the instructions and their marks are the same.
pub(crate) fn is_same_code(code: &[Marked], other: &[Marked]) -> bool
    ensures { IsTrue result ↔ (code.now ≡ other.now) }
{
    if code.len() != other.len() {
        return false;
    }
    for (index, marked) in code.iter().enumerate() {
        if !is_same_instruction(marked, &other[index]) {
            return false;
        }
    }
    true
}

/// Whether two instructions and their marks are the same.
fn is_same_instruction(marked: &Marked, other: &Marked) -> bool
    ensures { IsTrue result ↔ (marked.now ≡ other.now) }
{
    is_same_op(&marked.op, &other.op)
        && marked.forward == other.forward
        && marked.stop == other.stop
}

fn is_same_op(op: &Op, other: &Op) -> bool
    ensures { IsTrue result ↔ (op.now ≡ other.now) }
{
    op == other
}

/// Whether the tasks are the same, in the same order.
pub(crate) fn are_same_tasks(tasks: &[Descriptor], others: &[Descriptor]) -> bool
    ensures { IsTrue result ↔ (tasks.now ≡ others.now) }
{
    if tasks.len() != others.len() {
        return false;
    }
    for (index, task) in tasks.iter().enumerate() {
        if !is_same_task(task, &others[index]) {
            return false;
        }
    }
    true
}

/// Whether two tasks have the same name, entry, create mask and targets.
fn is_same_task(task: &Descriptor, other: &Descriptor) -> bool
    ensures { IsTrue result ↔ (task.now ≡ other.now) }
{
    if task.entry != other.entry || task.create != other.create {
        return false;
    }
    is_same_name(task.name, other.name)
        && are_same_places(task.targets.as_slice(), other.targets.as_slice())
}

fn is_same_name(name: Name, other: Name) -> bool
    ensures { IsTrue result ↔ (name ≡ other) }
{
    name.bytes() == other.bytes()
}

fn are_same_places(places: &[Place], others: &[Place]) -> bool
    ensures { IsTrue result ↔ (places.now ≡ others.now) }
{
    if places.len() != others.len() {
        return false;
    }
    for (index, place) in places.iter().enumerate() {
        if *place != others[index] {
            return false;
        }
    }
    true
}
