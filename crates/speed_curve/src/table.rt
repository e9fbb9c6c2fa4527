//! The text of a table.

use crate::numbers::{Hundredths, end_of, rate, share, speed_up};
use crate::row::Row;
use std::alloc::{AllocError, Global};

/// The table of some runs of a program, of which the first is the one on one unit: a heading, and a row for each.
///
/// The columns are the units, the steps, the retired instructions, how many of these there are for each step, how many
/// times as many steps the run on one unit took, the share of instructions that were thrown away, and how the run ended.
/// The fifth has `-` unless both runs ended and an instruction retired. Numbers with decimals have two, rounded to the
/// nearest.
///
/// # Errors
///
/// `AllocError` where memory was refused.
pub fn write(alloc: Global, rows: &[Row]) -> Result<Vec<u8>, AllocError> {
    let mut text = String::from_str(
        alloc,
        "units    steps  retired  per step  speed-up   wasted  end\n",
    )?;
    if let Some(one) = rows.first() {
        for row in rows {
            write_row(alloc, &mut text, one, row)?;
        }
    }
    Ok(text.into_bytes())
}

/// Adds a row, beside that of the run on one unit.
fn write_row(alloc: Global, text: &mut String, one: &Row, row: &Row) -> Result<(), AllocError> {
    let (units, steps, retired) = (row.units, row.steps, row.retired);
    let speed = match speed_up(one, row) {
        Some(speed) => decimals(alloc, speed)?,
        None => String::from_str(alloc, "-")?,
    };
    let (rate, share) = (decimals(alloc, rate(row))?, decimals(alloc, share(row))?);
    let (rate, speed, share) = (rate.as_str(), speed.as_str(), share.as_str());
    let end = end_of(row.standing);
    writeln!(
        text,
        "{units:>5}{steps:>9}{retired:>9}{rate:>10}{speed:>10}{share:>8}%  {end}"
    )
}

/// A number in hundredths, as text.
fn decimals(alloc: Global, number: u64) -> Result<String, AllocError> {
    let number = Hundredths(number);
    format!(in alloc; "{number}")
}
