//! A summary as comma separated values. Each error says that memory was refused.

ghost use Rattle.task_lives.specs.Sums.{AreFew};

use crate::life::Life;
use crate::tally::{Tally, by_task};
use std::alloc::{AllocError, Global};
use task_descriptor::program::Program;

/// The summary of a run of a program, whose lives these are, as comma separated values: a heading, and a row for each task of
/// the program in the order of their numbers. The columns are those of `summary::write`, which also has a row for all lives.
pub fn write_csv(alloc: Global, program: &Program, lives: &[Life]) -> Result<Vec<u8>, AllocError>
    requires { AreFew lives.now }
{
    let tasks = program.tasks();
    let tallies = by_task(alloc, lives, tasks.len())?;
    let mut text = String::from_str(
        alloc,
        "assigned,retired,squashed,dropped,unfinished,useful,wasted,task\n",
    )?;
    for (descriptor, tally) in tasks.iter().zip(tallies.iter()) {
        write_row(&mut text, tally, descriptor.name.as_str())?;
    }
    Ok(text.into_bytes())
}

/// Adds a row: the numbers of a tally, and a name.
fn write_row(text: &mut String, tally: &Tally, name: &str) -> Result<(), AllocError> {
    let (assigned, retired, squashed) = (tally.assigned, tally.retired, tally.squashed);
    let (dropped, unfinished) = (tally.dropped, tally.unfinished);
    let (useful, wasted) = (tally.useful, tally.wasted);
    write!(
        text,
        "{assigned},{retired},{squashed},{dropped},{unfinished},"
    )?;
    writeln!(text, "{useful},{wasted},{name}")
}
