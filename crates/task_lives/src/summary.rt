//! The text of a summary.

ghost use Rattle.std.specs.Prelude.{◌≡◌, ◌≤◌, ◌++◌, length, IfOk, OnOk};
ghost use Rattle.std.specs.String.{string_bytes};
ghost use Rattle.task_lives.specs.Sums.{AreFew};
ghost use Rattle.task_lives.specs.SummaryText.{column, heading, row_text, summary_text};
ghost use Rattle.task_lives.specs.Counting.{rows_from};

use crate::life::Life;
use crate::tally::{Tally, add_up, by_task};
use std::alloc::{AllocError, Global};
use task_descriptor::descriptor::Descriptor;
use task_descriptor::program::Program;

/// The summary of a run of a program, whose lives these are: a heading, a row for each task of the program in the order of
/// their numbers, and a row for all lives. A life of a task that the program lacks counts in the last row alone. There are
/// at most 1,000,000 lives, which executed at most 1,000,000 instructions, as `lives_of_runs` returns them.
///
/// # Errors
///
/// `AllocError` where memory was refused.
pub fn write(alloc: Global, program: &Program, lives: &[Life]) -> Result<Vec<u8>, AllocError>
    requires { AreFew lives.now }
    ensures { IfOk result (λ text. text.items ≡ summary_text program.now lives.now) }
{
    let tasks = program.tasks();
    let tallies = by_task(alloc, lives, tasks.len())?;
    let mut text = String::new(alloc);
    write_heading(&mut text)?;
    write_rows(&mut text, &tallies, tasks)?;
    write_row(&mut text, &add_up(lives), "(all)")?;
    Ok(text.into_bytes())
}

/// Adds the heading.
fn write_heading(text: &mut String) -> Result<(), AllocError>
    ensures { OnOk result (string_bytes text.new ≡ string_bytes text.old ++ heading) }
{
    writeln!(
        text,
        "assigned  retired  squashed  dropped  unfinished  useful  wasted  task"
    )
}

/// Adds a row for each task, with the tally at its number.
fn write_rows(text: &mut String, tallies: &[Tally], tasks: &[Descriptor]) -> Result<(), AllocError>
    requires { length tasks.now ≤ length tallies.now }
    ensures { OnOk result (string_bytes text.new ≡ string_bytes text.old ++ rows_from tallies.now 0 tasks.now) }
{
    for (task, descriptor) in tasks.iter().enumerate() {
        write_row(text, &tallies[task], descriptor.name.as_str())?;
    }
    Ok(())
}

/// Adds a row: the numbers of a tally, and a name.
fn write_row(text: &mut String, tally: &Tally, name: &str) -> Result<(), AllocError>
    ensures { OnOk result (string_bytes text.new ≡ string_bytes text.old ++ row_text tally.now name.now) }
{
    write_number(text, tally.assigned, 8)?;
    write_number(text, tally.retired, 9)?;
    write_number(text, tally.squashed, 10)?;
    write_number(text, tally.dropped, 9)?;
    write_number(text, tally.unfinished, 12)?;
    write_number(text, tally.useful, 8)?;
    write_number(text, tally.wasted, 8)?;
    writeln!(text, "  {name}")
}

/// Adds a number at the right of a column of this width; one that is wider is written whole.
fn write_number(text: &mut String, number: u32, width: usize) -> Result<(), AllocError>
    ensures { OnOk result (string_bytes text.new ≡ string_bytes text.old ++ column width number) }
{
    write!(text, "{number:>width$}")
}
