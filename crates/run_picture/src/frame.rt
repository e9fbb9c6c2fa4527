//! The frame of the shapes: lanes, the axis, names and a note. By itself none of it has a meaning.

use crate::bars::push_names;
use crate::chart::Chart;
use crate::scale::{
    AXIS_LEFT, AXIS_WIDTH, LANE_HEIGHT, LANES_TOP, axis_step, bottom, end_of_lanes, middle,
};
use crate::shape::{Axis, Element, Geometry, LabelText, Style};
use crate::stretches::stretch_length;
use std::alloc::{AllocError, Global};
use task_descriptor::descriptor::Descriptor;

/// Adds an element in this style.
pub(crate) fn push(
    elements: &mut Vec<Element>,
    style: Style,
    form: Geometry,
) -> Result<(), AllocError> {
    elements.push(Element { style, form })?;
    Ok(())
}

/// The lanes of the units, and the axis below them with its numbers.
pub(crate) fn frame(alloc: Global, axis: Axis) -> Result<Vec<Element>, AllocError> {
    let mut elements = Vec::new(alloc);
    for unit in 0..axis.lanes {
        push_lane(&mut elements, unit)?;
    }
    let below = end_of_lanes(axis);
    if axis.lanes < axis.units {
        let words = LabelText::Idle(axis.lanes, axis.units.saturating_sub(1));
        let idle = Geometry::Label(AXIS_LEFT, below - 900, words);
        push(&mut elements, Style::Quiet, idle)?;
    }
    let line = Geometry::Line(AXIS_LEFT, below, AXIS_LEFT + AXIS_WIDTH, below);
    let caption = Geometry::Label(66_800, below + 5_000, LabelText::OfAxis(axis.counted));
    push(&mut elements, Style::Axis, line)?;
    push(&mut elements, Style::Caption, caption)?;
    let step = axis_step(axis.count).max(1);
    let before = axis.before / step;
    let last = axis.before.saturating_add(axis.count);
    for index in before..last / step {
        push_number(&mut elements, axis, (index + 1).saturating_mul(step))?;
    }
    Ok(elements)
}

/// Adds the ground of a lane, and the number of its unit before it.
fn push_lane(elements: &mut Vec<Element>, unit: u32) -> Result<(), AllocError> {
    let top = bottom(unit);
    let height = if unit % 2 == 0 { LANE_HEIGHT } else { 0 };
    let ground = Geometry::Rectangle(AXIS_LEFT, top, AXIS_WIDTH, height);
    let name = Geometry::Label(7_200, top + 3_900, LabelText::OfUnit(unit));
    push(elements, Style::Ground, ground)?;
    push(elements, Style::UnitName, name)
}

/// Adds the number of a column below the middle of its room, and a line up through the lanes.
fn push_number(elements: &mut Vec<Element>, axis: Axis, number: u32) -> Result<(), AllocError> {
    let x = middle(axis, number);
    let below = end_of_lanes(axis);
    let line = Geometry::Line(x, LANES_TOP, x, below + 600);
    let label = Geometry::Label(x, below + 2_400, LabelText::ColumnNumber(number));
    push(elements, Style::Grid, line)?;
    push(elements, Style::AxisNumber, label)
}

/// The names of the tasks, where columns are drawn singly, and a note below the axis.
pub(crate) fn labels(
    alloc: Global,
    tasks: &[Descriptor],
    chart: &Chart,
) -> Result<Vec<Element>, AllocError> {
    let mut labels = Vec::new(alloc);
    let axis = chart.axis;
    let words = if chart.is_single() {
        push_names(&mut labels, tasks, axis, &chart.lives)?;
        LabelText::Single(axis.counted)
    } else {
        LabelText::Summed(axis.counted, stretch_length(axis.count))
    };
    let note = Geometry::Label(8_800, end_of_lanes(axis) + 7_600, words);
    push(&mut labels, Style::Quiet, note)?;
    Ok(labels)
}
