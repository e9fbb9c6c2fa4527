//! The curve as one SVG file.

use crate::numbers::{Hundredths, end_of, rate, share, speed_up};
use crate::row::Row;
use crate::scale::{Scale, bar};
use crate::sheet::SHEET;
use machine_model::event::Standing;
use std::alloc::{AllocError, Global};

/// The picture of the results of runs in steps, a column for each row: an SVG file with no script and no font of its own.
/// The row of n units is in column n. `caption` is SVG text, which may be empty and is put above the title.
///
/// Above, one line joins how many instructions retired in a step, and a dashed one how many times as many steps the run on
/// one unit took, which is the first row; below, a bar shows the share of instructions that were thrown away. All are
/// rounded as in the table (`crate::table`), and a run has a speed-up where it has one there.
///
/// # Errors
///
/// `AllocError` where memory was refused.
pub fn draw(alloc: Global, caption: &str, rows: &[Row]) -> Result<String, AllocError> {
    let mut text = String::from_str(alloc, SHEET)?;
    writeln!(text, "<text class='quiet' x='88' y='18'>{caption}</text>")?;
    if let Some(one) = rows.first() {
        let scale = Scale::of(one, rows);
        write_scale(&mut text, scale)?;
        write_lines(&mut text, scale, one, rows)?;
        for (index, row) in rows.iter().enumerate() {
            let before = rows.get(index.saturating_sub(1)).unwrap_or(row);
            let after = rows.get(index.saturating_add(1)).unwrap_or(row);
            write_column(&mut text, scale, one, [before, row, after])?;
        }
    }
    text.push_str("</svg>\n")?;
    Ok(text)
}

/// Writes the lines of the upper scale and their numbers.
fn write_scale(text: &mut String, scale: Scale) -> Result<(), AllocError> {
    writeln!(text, "<text class='scale' x='78' y='500'>0.00</text>")?;
    for line in 1_u64..6 {
        let up = scale.gap().saturating_mul(line);
        if up <= 360 {
            let (y, base) = (496 - up, 500 - up);
            let number = Hundredths(scale.step.saturating_mul(line));
            writeln!(text, "<path class='grid' d='M88 {y}H1248'/>")?;
            writeln!(
                text,
                "<text class='scale' x='78' y='{base}'>{number}</text>"
            )?;
        }
    }
    Ok(())
}

/// Writes the line through the rates, and the one through the speed-ups.
fn write_lines(text: &mut String, scale: Scale, one: &Row, rows: &[Row]) -> Result<(), AllocError> {
    text.push_str("<polyline class='curve' points='")?;
    for row in rows {
        let (x, y) = (scale.column(row.units), scale.height(rate(row)));
        write!(text, "{x},{y} ")?;
    }
    text.push_str("'/>\n<polyline class='speed' points='")?;
    for row in rows {
        if let Some(speed) = speed_up(one, row) {
            let (x, y) = (scale.column(row.units), scale.height(speed));
            write!(text, "{x},{y} ")?;
        }
    }
    text.push_str("'/>\n")
}

/// Writes the column of the middle one of three runs: its title, its bar, its points, and their numbers.
fn write_column(
    text: &mut String,
    scale: Scale,
    one: &Row,
    [before, row, after]: [&Row; 3],
) -> Result<(), AllocError> {
    write_title(text, scale, one, row)?;
    let point = scale.height(rate(row));
    let under = scale.foot_under(point);
    let (from, high) = (under + 6, bar(row));
    let top = 630_u64.saturating_sub(high);
    writeln!(
        text,
        "<path class='grid' d='M0 {from}V630'/><rect class='wasted' x='-12' y='{top}' width='24' height='{high}'/>"
    )?;
    match row.standing {
        Standing::Halted => writeln!(text, "<circle class='halted' cx='0' cy='{point}' r='7'/>")?,
        _ => writeln!(text, "<path class='other' d='M-9 {point}l9-9 9 9-9 9z'/>")?,
    }
    write_speed(text, scale, one, [before, row, after])?;
    let points = [scale.height(rate(before)), point, scale.height(rate(after))];
    let side = scale.beside_under(points);
    write_number(text, side, under, rate(row))?;
    let share = Hundredths(share(row));
    writeln!(text, "<text class='value' x='0' y='648'>{share}%</text>")?;
    let units = row.units;
    writeln!(
        text,
        "<text class='number' x='0' y='672'>{units}</text></g>"
    )
}

/// Writes the beginning of a column, and its title, which shows where a pointer rests on it.
fn write_title(text: &mut String, scale: Scale, one: &Row, row: &Row) -> Result<(), AllocError> {
    let (left, units, steps) = (scale.column(row.units), row.units, row.steps);
    write!(
        text,
        "<g transform='translate({left} 0)'><title>units: {units}, steps: {steps}, speed-up: "
    )?;
    match speed_up(one, row) {
        Some(speed) => {
            let speed = Hundredths(speed);
            write!(text, "{speed}")?;
        }
        None => text.push_str("-")?,
    }
    let (retired, wasted, end) = (row.retired, row.wasted, end_of(row.standing));
    writeln!(
        text,
        ", instructions retired: {retired}, thrown away: {wasted}, {end}</title>"
    )
}

/// Writes the point of the speed-up of the middle one of three runs, if it has one, and the number over it.
fn write_speed(
    text: &mut String,
    scale: Scale,
    one: &Row,
    [before, row, after]: [&Row; 3],
) -> Result<(), AllocError> {
    let Some(speed) = speed_up(one, row) else {
        return Ok(());
    };
    let from = speed_up(one, before).unwrap_or(speed);
    let to = speed_up(one, after).unwrap_or(speed);
    let point = scale.height(speed);
    writeln!(text, "<path class='faster' d='M-4 {point}v-4h8v8h-8z'/>")?;
    let side = scale.beside_over([scale.height(from), point, scale.height(to)]);
    write_number(text, side, scale.foot_over(point), speed)
}

/// Writes a number on this side of its point, at this foot.
fn write_number(text: &mut String, side: &str, y: u64, hundredths: u64) -> Result<(), AllocError> {
    let number = Hundredths(hundredths);
    writeln!(
        text,
        "<text class='value' x='{side}' y='{y}'>{number}</text>"
    )
}
