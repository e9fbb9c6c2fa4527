//! The marks of single events: instructions, registers that go from one unit to the next or are sent by a stopped
//! unit, and where a squash begins.

ghost use Rattle.std.specs.Prelude.{◌≡◌, ◌+◌, ◌++◌, ◌<◌, ◌^◌, OnOk, length};
ghost use Rattle.machine_model.specs.HeadEvent.{unit_of};
ghost use Rattle.run_picture.specs.Meanings.{column_at, is_marked as is_marked_on, marks_from, meanings, stands_for};

use crate::queue::{retired_with, unit_at, unit_before};
use crate::scale::{BAR_HEIGHT, middle, room, top};
use crate::shape::{Axis, Counted, Element, Geometry, LabelText, Meaning, Shape, Style};
use machine_model::event::Event;
use std::alloc::AllocError;

/// An event with less room than this is drawn by a finer line.
const SMALL_ROOM: u64 = 350;

/// This much room after its arrow is enough for a register's number.
const ROOM_OF_REGISTER: u64 = 2_600;

/// The most steps of a picture that shows the marks of all events; one of more steps shows squashes alone.
pub const MOST_MARKED: u32 = 300;

/// Adds the marks of some events, before which this many tasks retired, each in its column, numbered from 1.
pub(crate) fn push_marks(
    shapes: &mut Vec<Shape>,
    axis: Axis,
    columns: &[u32],
    retired: u32,
    events: &[Event],
) -> Result<(), AllocError>
    requires some { 0 < axis.units }
    requires few { retired + length events.now < 2 ^ 31 }
    ensures { OnOk result (meanings shapes.new.items ≡ meanings shapes.old.items ++ marks_from axis columns.now retired 0 events.now) }
{
    let mut retired = retired;
    for (index, event) in events.iter().enumerate() {
        if is_marked(axis, *event) {
            push_mark(
                shapes,
                axis,
                index,
                column_of(columns, index),
                retired,
                *event,
            )?;
            push_register(shapes, axis, columns, events, index, retired)?;
        }
        retired = retired_with(retired, *event);
    }
    Ok(())
}

/// Whether there is room for the marks of an event.
fn is_marked(axis: Axis, event: Event) -> bool
    ensures { result ≡ is_marked_on axis event }
{
    match axis.counted {
        Counted::Events => true,
        Counted::Steps => axis.count <= MOST_MARKED || matches!(event, Event::Squash(_)),
    }
}

/// The column of the event of this number, from 0; 0 if it has none.
pub(crate) fn column_of(columns: &[u32], event: usize) -> u32
    ensures { result ≡ column_at columns.now event }
{
    match columns.get(event) {
        Some(column) => *column,
        None => 0,
    }
}

/// Adds what stands for the event of this index in a column; `retired` tasks have retired before it.
fn push_mark(
    shapes: &mut Vec<Shape>,
    axis: Axis,
    index: usize,
    column: u32,
    retired: u32,
    event: Event,
) -> Result<(), AllocError>
    requires { 0 < axis.units }
    ensures { OnOk result (meanings shapes.new.items
        ≡ meanings shapes.old.items ++ stands_for axis column (unit_of axis.units retired 0 event) event) }
{
    let (counted, units) = (axis.counted, axis.units);
    let x = middle(axis, column);
    let (arrow, tick) = if room(axis.count) < SMALL_ROOM {
        (Style::FineArrow, Style::FineInstruction)
    } else {
        (Style::Arrow, Style::Instruction)
    };
    match event {
        Event::Exec(position) => {
            let unit = unit_at(units, retired, position);
            let low = top(unit) + BAR_HEIGHT;
            let meaning = Meaning::OfExec(counted, column, unit);
            shapes.push(line(tick, x, low - 1_300, low - 400, index, meaning))?;
        }
        Event::Transfer(position, register) => {
            let unit = unit_at(units, retired, position);
            let from = unit_before(units, unit);
            let high = top(unit);
            let meaning = Meaning::OfTransfer(counted, column, register.get(), from, unit);
            if unit == 0 {
                // It leaves the last unit below, and goes on at the first.
                let low = top(from) + BAR_HEIGHT;
                shapes.push(line(arrow, x, low, low + 1_400, index, meaning))?;
                shapes.push(line(arrow, x, high - 1_400, high, index, meaning))?;
            } else {
                shapes.push(line(arrow, x, high - 2_800, high, index, meaning))?;
            }
        }
        Event::Drain(position, register) => {
            let unit = unit_at(units, retired, position);
            let low = top(unit) + BAR_HEIGHT;
            let meaning = Meaning::OfDrain(counted, column, register.get(), unit);
            shapes.push(line(arrow, x, low - 1_300, low, index, meaning))?;
        }
        Event::Squash(position) => {
            let unit = unit_at(units, retired, position);
            let form = Geometry::Wedge(x - 700, top(unit) - 900);
            let meaning = Meaning::OfSquash(counted, column, unit);
            let element = Element {
                style: Style::SquashMark,
                form,
            };
            let event = index;
            shapes.push(Shape {
                element,
                event,
                meaning,
            })?;
        }
        _ => {}
    }
    Ok(())
}

/// A line down that stands for the event of this index.
fn line(style: Style, x: u64, top: u64, bottom: u64, event: usize, meaning: Meaning) -> Shape
    ensures { result.meaning ≡ meaning }
{
    let form = Geometry::Line(x, top, x, bottom);
    Shape {
        element: Element { style, form },
        event,
        meaning,
    }
}

/// Adds the number of the register that the event of this number transfers, if it does and there is room beside its arrow.
fn push_register(
    shapes: &mut Vec<Shape>,
    axis: Axis,
    columns: &[u32],
    events: &[Event],
    index: usize,
    retired: u32,
) -> Result<(), AllocError>
    requires some { 0 < axis.units }
    requires within { index < length events.now }
    ensures { OnOk result (meanings shapes.new.items ≡ meanings shapes.old.items) }
{
    let Event::Transfer(position, register) = events[index] else {
        return Ok(());
    };
    let unit = unit_at(axis.units, retired, position);
    let x = middle(axis, column_of(columns, index));
    if let Some(next) = next_arrival(axis.units, unit, retired, &events[index + 1..]) {
        let next = column_of(columns, (index + 1).saturating_add(next));
        if middle(axis, next) < x + ROOM_OF_REGISTER {
            return Ok(());
        }
    }
    let words = LabelText::Register(register.get());
    let form = Geometry::Label(x + 500, top(unit) - 900, words);
    let element = Element {
        style: Style::RegisterName,
        form,
    };
    let meaning = Meaning::Nothing;
    shapes.push(Shape {
        element,
        event: usize::MAX,
        meaning,
    })?;
    Ok(())
}

/// The number, from 0, of the first event by which a register arrives at a unit; before them `retired` tasks retired.
fn next_arrival(units: u32, unit: u32, retired: u32, events: &[Event]) -> Option<usize>
    requires { 0 < units }
{
    let mut retired = retired;
    for (index, event) in events.iter().enumerate() {
        match *event {
            Event::Transfer(position, _) if unit_at(units, retired, position) == unit => {
                return Some(index);
            }
            Event::Retire => retired = retired.saturating_add(1),
            _ => {}
        }
    }
    None
}
