//! What the rules look at in an instruction. It does not depend on the task, so it is found out once per
//! program; what is left for each entry of a list is to compare a few sets.

use crate::place::{forwarded_by, goes_on_indirectly, released_by};
use mips_instructions::number::RegSet;
use task_descriptor::descriptor::Marked;
use task_descriptor::program::Program;
use task_graph::edges::{Next, exits_of, next_inside};

/// At most two indices of instructions, in half the room of a [`Next`]: an index is below 4,096.
#[derive(Clone, Copy)]
pub(crate) struct Successors {
    /// The least index, if there is any.
    pub(crate) first: Option<u16>,
    /// The other index, if there are two.
    pub(crate) second: Option<u16>,
}

/// What the rules look at in an instruction: 32 bytes, since `accepts` keeps 4,096 of them on the stack.
#[derive(Clone, Copy)]
pub(crate) struct Look {
    /// The inner successors.
    pub(crate) next: Successors,
    /// The registers that it writes.
    pub(crate) written: RegSet,
    /// The registers that it sends: forwards or releases.
    pub(crate) sent: RegSet,
    /// It has no exit with an index, it doesn't fall off the code, and it doesn't continue indirectly.
    pub(crate) stays: bool,
}

ghost use Rattle.std.specs.Prelude.{◌≡◌, Some, length, slice_get};
ghost use Rattle.mark_checker.specs.Looks.{Tells, AreLooks};

/// Finds out what is looked at in each instruction of a program, at its index.
pub(crate) fn look_through(program: &Program, looks: &mut [Look])
    requires { length looks.old ≡ 4096 }
    ensures { AreLooks program.now looks.new }
{
    for (index, marked) in program.code().iter().enumerate() {
        looks[index] = look_at(program, marked, index as u32);
    }
}

/// What is looked at where there is no instruction.
pub(crate) fn nothing() -> Look {
    Look {
        next: Successors {
            first: None,
            second: None,
        },
        written: RegSet::empty(),
        sent: RegSet::empty(),
        stays: false,
    }
}

/// What is looked at in an instruction at its index.
fn look_at(program: &Program, marked: &Marked, index: u32) -> Look
    requires { slice_get program.now.code index ≡ Some marked.now }
    ensures { Tells program.now index marked.now result }
{
    let _ = program.code();
    let inside = next_inside(program, index);
    let next = Successors {
        first: narrowed(inside.first),
        second: narrowed(inside.second),
    };
    let exits = exits_of(program, index);
    let written = marked.op.dests();
    let sent = forwarded_by(marked, written).union(released_by(&marked.op));
    let leaves = has_index(exits.direct);
    let goes_on = goes_on_indirectly(marked);
    let stays = is_none_of(leaves, exits.falls_off, goes_on);
    Look {
        next,
        written,
        sent,
        stays,
    }
}

ghost use Rattle.std.specs.Prelude.{◌||◌, ◌<◌, ℕ, is_some, not};

/// An index of an instruction, if there is one, in half its room.
fn narrowed(index: Option<u32>) -> Option<u16>
    requires { (j : ℕ) → index ≡ Some j → j < 4096 }
    ensures { result ≡ index }
{
    match index {
        Some(index) => Some(index as u16),
        None => None,
    }
}

fn is_none_of(one: bool, two: bool, three: bool) -> bool
    ensures { result ≡ not (one || (two || three)) }
{
    !(one || two || three)
}

fn has_index(next: Next) -> bool
    ensures { result ≡ (is_some next.first || is_some next.second) }
{
    next.first.is_some() || next.second.is_some()
}
