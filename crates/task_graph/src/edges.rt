//! Edges: where an instruction leads, and whether the task ends on the way there.
//!
//! Where an instruction leads is the MIPS manual's (without delay slots). The stop marks are those of
//! Sohi, Breach, Vijaykumar, "Multiscalar Processors", ISCA 1995, section 2.2.

use mips_instructions::instruction::Op;
use task_descriptor::descriptor::{Marked, Stop};
use task_descriptor::program::Program;

/// At most two code indices, the lesser one first; one that would occur twice occurs once.
#[derive(Clone, Copy, Debug, PartialEq, Eq)]
pub struct Next {
    /// The least code index, if there is any.
    pub first: Option<u32>,
    /// The other code index, if there are two.
    pub second: Option<u32>,
}

/// The exits of a task at one of its instructions: where it may continue after its stop.
#[derive(Clone, Copy, Debug, PartialEq, Eq)]
pub struct Exits {
    /// The code indices that exit edges lead to. One may be no instruction's.
    pub direct: Next,
    /// Whether the instruction is a `jr` or `jalr` that stops always: its exit is an address in a register.
    pub indirect: bool,
    /// Whether an inner edge leads to no instruction.
    pub falls_off: bool,
}

ghost use Rattle.std.specs.Prelude.{◌≡◌, ℕ, ◌<◌, ◌≤◌, ◌↔◌, ◌⊎◌, true, false, length};
ghost use Rattle.task_graph.specs.Edges.{Edge, edge, leaves, end_of, is_indirect};
ghost use Rattle.task_graph.specs.Neighbours.{is_among, InOrder, Follows, FallsOff, ExitsIndirectly};

/// The inner successors of the instruction at code index `i`: the instructions that may follow it inside a
/// task. Takes no memory.
pub fn next_inside(program: &Program, i: u32) -> Next
    requires { i < length program.now.code }
    ensures exact { (j : ℕ) → (is_among result j ≡ true) ↔ Follows program.now i j }
    ensures in_order { InOrder result.first result.second }
{
    let code = program.code();
    let count = code.len() as u32;
    let marked = &code[i as usize];
    let onward = end_inside(marked, i, false, count);
    let branch = end_inside(marked, i, true, count);
    in_order(onward, branch)
}

/// The exits of the instruction at code index `i`. Takes no memory.
pub fn exits_of(program: &Program, i: u32) -> Exits
    requires { i < length program.now.code }
    ensures direct { (j : ℕ) → (is_among result.direct j ≡ true) ↔ Edge program.now true i j }
    ensures in_order { InOrder result.direct.first result.direct.second }
    ensures indirect { (result.indirect ≡ true) ↔ ExitsIndirectly program.now i }
    ensures falls_off { (result.falls_off ≡ true) ↔ FallsOff program.now i }
{
    let code = program.code();
    let count = code.len() as u32;
    let marked = &code[i as usize];
    let onward = end(marked, i, false, true);
    let branch = end(marked, i, true, true);
    Exits {
        direct: in_order(onward, branch),
        indirect: exits_indirectly(marked),
        falls_off: falls_off(marked, i, count),
    }
}

/// The code index that `op` at code index `i` leads to, for a conditional branch where it is `taken` or isn't;
/// `None` for a jump to an address in a register and for `halt`, and if `taken` for all but a conditional
/// branch. Takes no memory.
#[inline]
pub fn leads_to(op: &Op, i: u32, taken: bool) -> Option<u32>
    requires { i < 4096 }
    ensures { result ≡ edge op.now i taken }
{
    match op {
        Op::BranchTwo(_, _, _, place) | Op::BranchOne(_, _, place) if taken => Some(place.get()),
        _ if taken => None,
        Op::Jump(place) | Op::JumpLink(place) => Some(place.get()),
        Op::JumpReg(_) | Op::JumpLinkReg(_, _) | Op::Halt => None,
        _ => Some(i + 1),
    }
}

/// Whether the task ends at an instruction with these stop bits, for a conditional branch where it is `taken`
/// or isn't. Takes no memory.
#[inline]
pub fn ends_task(stop: Stop, taken: bool) -> bool
    ensures { result ≡ leaves stop taken }
{
    match stop {
        Stop::None => false,
        Stop::Always => true,
        Stop::Taken => taken,
        Stop::NotTaken => !taken,
    }
}

/// The end of one edge, if the instruction has it and it is of that kind.
fn end(marked: &Marked, i: u32, taken: bool, leaving: bool) -> Option<u32>
    requires { i < 4096 }
    ensures { result ≡ end_of leaving marked.now i taken }
{
    if ends_task(marked.stop, taken) == leaving {
        leads_to(&marked.op, i, taken)
    } else {
        None
    }
}

/// The end of one inner edge, if there is an instruction.
fn end_inside(marked: &Marked, i: u32, taken: bool, count: u32) -> Option<u32>
    requires { i < 4096 }
    ensures { (j : ℕ) → (result ≡ Some j) ↔ ((end_of false marked.now i taken ≡ Some j) × (j < count)) }
{
    match end(marked, i, taken, false) {
        Some(j) if j < count => Some(j),
        _ => None,
    }
}

/// Whether an inner edge leads to no instruction.
fn falls_off(marked: &Marked, i: u32, count: u32) -> bool
    requires { i < 4096 }
    ensures { (result ≡ true) ↔ ((j : ℕ) × ((end_of false marked.now i false ≡ Some j) ⊎ (end_of false marked.now i true ≡ Some j)) × (count ≤ j)) }
{
    is_beyond(end(marked, i, false, false), count) || is_beyond(end(marked, i, true, false), count)
}

fn is_beyond(end: Option<u32>, count: u32) -> bool
    ensures { (result ≡ true) ↔ ((j : ℕ) × (end ≡ Some j) × (count ≤ j)) }
{
    match end {
        Some(j) => j >= count,
        None => false,
    }
}

/// Whether the instruction is a jump to an address in a register that stops always.
fn exits_indirectly(marked: &Marked) -> bool
    ensures { (result ≡ true) ↔ ((is_indirect marked.now.op ≡ true) × (marked.now.stop ≡ Stop.Always)) }
{
    match (&marked.op, marked.stop) {
        (Op::JumpReg(_) | Op::JumpLinkReg(_, _), Stop::Always) => true,
        _ => false,
    }
}

/// The two indices in order.
fn in_order(one: Option<u32>, other: Option<u32>) -> Next
    ensures among { (j : ℕ) → (is_among result j ≡ true) ↔ ((one ≡ Some j) ⊎ (other ≡ Some j)) }
    ensures in_order { InOrder result.first result.second }
{
    match (one, other) {
        (Some(i), Some(j)) if i < j => Next {
            first: one,
            second: other,
        },
        (Some(i), Some(j)) if j < i => Next {
            first: other,
            second: one,
        },
        (Some(_), _) => Next {
            first: one,
            second: None,
        },
        (None, _) => Next {
            first: other,
            second: None,
        },
    }
}
