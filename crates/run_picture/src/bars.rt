//! The bars of a picture: one for the life of each task, with its name, and one for each wait of a unit.

ghost use Rattle.std.specs.Prelude.{◌≡◌, ◌<◌, ◌++◌, OnOk, map};
ghost use Rattle.task_lives.specs.Sums.{is_unfinished as is_unfinished_ending};
ghost use Rattle.run_picture.specs.declared.shape.Meaning.TheVariants.{OfWait};
ghost use Rattle.run_picture.specs.Meanings.{ending_told, life_told, meanings};

use crate::scale::{AXIS_LEFT, AXIS_WIDTH, BAR_HEIGHT, left_in, letters_in, top};
use crate::shape::{Axis, Element, Geometry, LabelText, Meaning, Shape, Style, Wait, Why};
use machine_model::event::Standing;
use std::alloc::AllocError;
use task_descriptor::descriptor::Descriptor;
use task_lives::life::{Ending, Life};

/// How a run ended that stands so, of the life of the task with which it did, on the unit that is the head last; of any
/// other life, that it has not.
fn ending_of(head: u32, standing: Standing, life: Life) -> Standing
    ensures { result ≡ ending_told head standing life }
{
    if life.unit == head && is_unfinished(life.ending) {
        standing
    } else {
        Standing::Running
    }
}

/// Whether a life has not ended.
fn is_unfinished(ending: Ending) -> bool
    ensures { result ≡ is_unfinished_ending ending }
{
    matches!(ending, Ending::Unfinished)
}

/// Adds a bar for each life, in their order, of a run that stands so, in which the unit `head` is the head last.
pub(crate) fn push_bars(
    shapes: &mut Vec<Shape>,
    axis: Axis,
    head: u32,
    standing: Standing,
    lives: &[Life],
) -> Result<(), AllocError>
    ensures { OnOk result (meanings shapes.new.items ≡ meanings shapes.old.items ++ map (life_told axis.counted head standing) lives.now) }
{
    for life in lives {
        shapes.push(bar_of(axis, head, standing, *life))?;
    }
    Ok(())
}

/// The bar of a life: in the lane of its unit, from where its first event or step begins to where its last one ends.
fn bar_of(axis: Axis, head: u32, standing: Standing, life: Life) -> Shape
    ensures { result.meaning ≡ life_told axis.counted head standing life }
{
    let ending = ending_of(head, standing, life);
    let style = match ending {
        Standing::Running => Style::Bar(life.ending),
        Standing::Halted => Style::Halted,
        Standing::Trapped(_) | Standing::Unlisted(_) => Style::Trapped,
    };
    let left = left_in(axis, life.first);
    let form = Geometry::Rectangle(left, top(life.unit), width(axis, life), BAR_HEIGHT);
    Shape {
        element: Element { style, form },
        event: usize::MAX,
        meaning: Meaning::OfLife(axis.counted, life, ending),
    }
}

/// How wide the bar of a life is.
fn width(axis: Axis, life: Life) -> u64 {
    let left = left_in(axis, life.first);
    let right = left_in(axis, life.last.saturating_add(1));
    right.saturating_sub(left)
}

/// Adds the names of the tasks: on the bars that have room for one, else after the bar, if the whole name has room there
/// before the unit's next bar.
pub(crate) fn push_names(
    labels: &mut Vec<Element>,
    tasks: &[Descriptor],
    axis: Axis,
    lives: &[Life],
) -> Result<(), AllocError> {
    for (index, life) in lives.iter().enumerate() {
        let name = name_of(tasks, life.task);
        let letters = letters_in(name, width(axis, *life));
        let right = left_in(axis, life.last.saturating_add(1));
        if letters > 0 {
            push_name(labels, *life, left_in(axis, life.first) + 600, letters)?;
        } else if letters_in(name, room_after(axis, lives, index)) == name.len() {
            push_name(labels, *life, right + 400, name.len())?;
        }
    }
    Ok(())
}

/// How much room there is after the bar of the life of this index, before the next one of its unit.
fn room_after(axis: Axis, lives: &[Life], index: usize) -> u64 {
    let Some(life) = lives.get(index) else {
        return 0;
    };
    let right = left_in(axis, life.last.saturating_add(1));
    for next in lives.get(index..).unwrap_or(&[]) {
        if next.unit == life.unit && next.first > life.last {
            return left_in(axis, next.first).saturating_sub(right);
        }
    }
    (AXIS_LEFT + AXIS_WIDTH).saturating_sub(right)
}

/// Adds the first letters of the name of a life's task.
fn push_name(
    labels: &mut Vec<Element>,
    life: Life,
    left: u64,
    letters: usize,
) -> Result<(), AllocError> {
    let words = LabelText::Task(life.task, letters);
    let form = Geometry::Label(left, top(life.unit) + 1_800, words);
    let style = Style::TaskName;
    labels.push(Element { style, form })?;
    Ok(())
}

/// The name of a task, or `?` for a number that no task has; letters, digits and `_` alone, so that nothing in it has a
/// meaning in SVG.
pub fn name_of(tasks: &[Descriptor], task: u32) -> &str {
    match tasks.get(task as usize) {
        Some(descriptor) => descriptor.name.as_str(),
        None => "?",
    }
}

/// Adds a strip for each wait, in their order, in the lower part of the bar of its unit.
pub(crate) fn push_waits(
    shapes: &mut Vec<Shape>,
    axis: Axis,
    waits: &[Wait],
) -> Result<(), AllocError>
    ensures { OnOk result (meanings shapes.new.items ≡ meanings shapes.old.items ++ map OfWait waits.now) }
{
    for wait in waits {
        shapes.push(strip_of(axis, *wait))?;
    }
    Ok(())
}

/// The strip of a wait, as wide as its steps.
fn strip_of(axis: Axis, wait: Wait) -> Shape
    ensures { result.meaning ≡ OfWait wait }
{
    let style = match wait.why {
        Why::NeedsRegister(_) => Style::WaitForRegister,
        Why::NeedsHead | Why::HasFinished => Style::WaitForTurn,
        Why::HasToPass(_) => Style::WaitToPass,
    };
    let first = wait.step.saturating_sub(1);
    let left = left_in(axis, first);
    let right = left_in(axis, first.saturating_add(wait.count));
    let wide = right.saturating_sub(left);
    let form = Geometry::Rectangle(left, top(wait.unit) + 2_400, wide, 1_300);
    Shape {
        element: Element { style, form },
        event: usize::MAX,
        meaning: Meaning::OfWait(wait),
    }
}
