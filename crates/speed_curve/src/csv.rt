//! The rows of a table as comma separated values. Each error says that memory was refused.

use crate::numbers::{Hundredths, end_of, rate, share, speed_up};
use crate::row::Row;
use std::alloc::{AllocError, Global};

/// The table of some runs of a program, of which the first is the one on one unit, as comma separated values: a heading, and a
/// row for each. The columns are those of the table; the sixth is in percent. The fifth is empty where the table has `-`.
pub fn write_csv(alloc: Global, rows: &[Row]) -> Result<Vec<u8>, AllocError> {
    let mut text = String::from_str(alloc, "units,steps,retired,per_step,speed_up,wasted,end\n")?;
    if let Some(one) = rows.first() {
        for row in rows {
            write_row(&mut text, one, row)?;
        }
    }
    Ok(text.into_bytes())
}

/// Adds a row, beside that of the run on one unit.
fn write_row(text: &mut String, one: &Row, row: &Row) -> Result<(), AllocError> {
    let (units, steps, retired) = (row.units, row.steps, row.retired);
    let (rate, share) = (Hundredths(rate(row)), Hundredths(share(row)));
    write!(text, "{units},{steps},{retired},{rate},")?;
    if let Some(speed) = speed_up(one, row) {
        let speed = Hundredths(speed);
        write!(text, "{speed}")?;
    }
    let end = end_of(row.standing);
    writeln!(text, ",{share},{end}")
}
