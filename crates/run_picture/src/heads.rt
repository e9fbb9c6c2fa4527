//! Who is the head: a line over the bars of the unit that is, from one retirement to the next.

ghost use Rattle.std.specs.Prelude.{◌≡◌, ◌+◌, ◌++◌, ◌<◌, ◌^◌, OnOk, length};
ghost use Rattle.run_picture.specs.Meanings.{after_retirement, head_told, heads_of, is_retirement as is_retirement_of, meanings};

use crate::marks::column_of;
use crate::queue::retired_with;
use crate::scale::{left_in, top};
use crate::shape::{Axis, Element, Geometry, Meaning, Shape, Style};
use machine_model::event::Event;
use std::alloc::AllocError;

/// Adds a line for each unit that is the head in the columns of some events, before which this many tasks retired.
pub(crate) fn push_heads(
    shapes: &mut Vec<Shape>,
    axis: Axis,
    columns: &[u32],
    retired: u32,
    events: &[Event],
) -> Result<(), AllocError>
    requires some { 0 < axis.units }
    requires few { retired + length events.now < 2 ^ 31 }
    ensures { OnOk result (meanings shapes.new.items ≡ meanings shapes.old.items ++ heads_of axis columns.now retired events.now) }
{
    let mut retired = retired;
    let mut after = axis.before;
    for (index, event) in events.iter().enumerate() {
        let column = column_of(columns, index);
        if is_retirement(*event) {
            push_head(shapes, axis, retired, after, column)?;
        }
        after = after_event(after, column, *event);
        retired = retired_with(retired, *event);
    }
    let last = column_of(columns, events.len().saturating_sub(1));
    push_head(shapes, axis, retired, after, last)
}

/// Whether an event is a retirement.
fn is_retirement(event: Event) -> bool
    ensures { result ≡ is_retirement_of event }
{
    matches!(event, Event::Retire)
}

/// The column after which the unit is the head that is it after an event in this column.
fn after_event(after: u32, column: u32, event: Event) -> u32
    ensures { result ≡ after_retirement after column event }
{
    match event {
        Event::Retire => column,
        _ => after,
    }
}

/// Adds a line over the columns after one and up to another, in which the unit is the head that is it after `retired` tasks
/// retired, if there are any.
fn push_head(
    shapes: &mut Vec<Shape>,
    axis: Axis,
    retired: u32,
    after: u32,
    last: u32,
) -> Result<(), AllocError>
    requires { 0 < axis.units }
    ensures { OnOk result (meanings shapes.new.items ≡ meanings shapes.old.items ++ head_told axis retired after last) }
{
    if after < last {
        let unit = retired % axis.units;
        let left = left_in(axis, after);
        let wide = left_in(axis, last).saturating_sub(left);
        let form = Geometry::Rectangle(left, top(unit).saturating_sub(500), wide, 300);
        shapes.push(Shape {
            element: Element {
                style: Style::Leads,
                form,
            },
            event: usize::MAX,
            meaning: Meaning::OfHead(axis.counted, after, last, unit),
        })?;
    }
    Ok(())
}
