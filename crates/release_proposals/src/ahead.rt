//! What is ahead of an instruction inside its task.

ghost use Rattle.std.specs.Prelude.{◌≡◌, ◌<◌, length, IfOk};

use mips_instructions::instruction::Op;
use mips_instructions::number::RegSet;
use std::alloc::{AllocError, Global};
use task_descriptor::program::Program;
use task_graph::edges::{exits_of, next_inside};

/// What is on the ways from an instruction to the end of its task.
#[derive(Clone, Copy, Debug, PartialEq, Eq)]
pub(crate) struct Ahead {
    /// Whether one of them leads to another task.
    pub(crate) goes_on: bool,
    /// What is released on one of them.
    pub(crate) released: RegSet,
}

// With what the table has at the end of an edge.
fn with_end(ahead: Ahead, table: &[Ahead], end: Option<u32>) -> Ahead {
    match end.and_then(|index| table.get(index as usize)) {
        Some(other) => Ahead {
            goes_on: ahead.goes_on || other.goes_on,
            released: ahead.released.union(other.released),
        },
        None => ahead,
    }
}

// What is ahead of an instruction, by what the table has at those that come next.
fn ahead_of(program: &Program, table: &[Ahead], index: u32) -> Ahead
    requires { index < length program.now.code }
{
    let exits = exits_of(program, index);
    let next = next_inside(program, index);
    let own = Ahead {
        goes_on: exits.indirect || exits.direct.first.is_some(),
        released: match &program.code()[index as usize].op {
            Op::Release(set) => *set,
            _ => RegSet::empty(),
        },
    };
    with_end(with_end(own, table, next.first), table, next.second)
}

// Brings the table up to date, the last instruction first; whether that changed it.
fn update(program: &Program, table: &mut Vec<Ahead>) -> bool
    requires { length table.old.items ≡ length program.now.code }
    ensures { length table.new.items ≡ length table.old.items }
{
    let count = program.code().len();
    let mut is_new = false;
    for behind in 0..count {
        let index = count - 1 - behind;
        let ahead = ahead_of(program, table, index as u32);
        is_new = is_new || ahead != table[index];
        table[index] = ahead;
    }
    is_new
}

/// What is ahead of each instruction.
///
/// # Errors
///
/// `AllocError` where memory was refused.
pub(crate) fn all_ahead(alloc: Global, program: &Program) -> Result<Vec<Ahead>, AllocError> {
    let nothing = Ahead {
        goes_on: false,
        released: RegSet::empty(),
    };
    let mut table = vec![in alloc; nothing; program.code().len()]?;
    let mut is_new = true;
    for _ in 0..program.code().len() {
        is_new = is_new && update(program, &mut table);
    }
    Ok(table)
}
