//! How elements and shapes are written: the SVG element, its title, and what labels say.

use crate::bars::name_of;
use crate::shape::{
    Counted, Debt, Element, Geometry, Meaning, Shape, StretchShare, Style, Wait, Why,
};
use crate::title::write_escaped;
use crate::words_text::{write_how_it_stands, write_words};
use machine_model::event::Standing;
use std::alloc::{AllocError, Global};
use std::fmt;
use task_descriptor::descriptor::Descriptor;
use task_lives::life::{Ending, Life};

/// A length in hundredths of a pixel, written in pixels with two decimals.
#[derive(Clone, Copy, Debug)]
struct Pixels(u64);

impl fmt::Display for Pixels {
    fn fmt<W: fmt::Write>(&self, f: &mut fmt::Formatter<W>) -> fmt::Result {
        let whole = self.0 / 100;
        let tenths = self.0 / 10 % 10;
        let hundredths = self.0 % 10;
        write!(f, "{whole}.{tenths}{hundredths}")
    }
}

/// What is told of the events that are drawn, besides what each is.
#[derive(Clone, Copy, Debug)]
pub struct Remarks<'t> {
    /// A note on each event, from the first one on; there may be none.
    pub notes: &'t [String],
    /// The index of the instruction that the picture is about, if it is about one: it stands out, in red.
    pub shown: Option<usize>,
}

/// What shapes are told by: the names of the tasks, remarks on the events that are drawn, and how many columns come before
/// the first one.
#[derive(Clone, Copy, Debug)]
pub struct Telling<'t> {
    /// The tasks.
    pub tasks: &'t [Descriptor],
    /// The remarks on the events.
    pub remarks: Remarks<'t>,
    /// How many columns come before the first one that is drawn.
    pub before: u32,
}

/// Writes elements, each in a line of its own.
pub(crate) fn write_elements(
    text: &mut String,
    tasks: &[Descriptor],
    elements: &[Element],
) -> Result<(), AllocError> {
    for element in elements {
        write_element(text, tasks, *element, "")?;
    }
    Ok(())
}

/// Writes shapes, with titles that say what they stand for.
pub(crate) fn write_shapes(
    alloc: Global,
    text: &mut String,
    telling: &Telling<'_>,
    shapes: &[Shape],
) -> Result<(), AllocError> {
    for shape in shapes {
        let mut title = String::new(alloc);
        write_meaning(&mut title, telling, &shape.meaning)?;
        write_note(&mut title, telling, shape)?;
        let element = if matches!(telling.remarks.shown, Some(event) if event == shape.event) {
            shown_element(shape.element)
        } else {
            shape.element
        };
        write_shape(text, telling.tasks, element, title.as_str())?;
    }
    Ok(())
}

/// The mark of the instruction that the picture is about: larger than others, and in red.
fn shown_element(element: Element) -> Element {
    match element.form {
        Geometry::Line(x, top, to, bottom) => Element {
            style: Style::ShownInstruction,
            form: Geometry::Line(x, top.saturating_sub(900), to, bottom),
        },
        _ => element,
    }
}

/// Writes the note on the event of a shape, if there is one.
fn write_note(title: &mut String, telling: &Telling<'_>, shape: &Shape) -> Result<(), AllocError> {
    let Some(note) = telling.remarks.notes.get(shape.event) else {
        return Ok(());
    };
    if !note.is_empty() {
        title.push_str(match shape.meaning {
            Meaning::OfExec(..) => ": ",
            _ => "; ",
        })?;
    }
    write_escaped(title, note.as_bytes())
}

/// Writes the element of a shape with its title: a line in a group, with more room for a pointer.
fn write_shape(
    text: &mut String,
    tasks: &[Descriptor],
    element: Element,
    title: &str,
) -> Result<(), AllocError> {
    let Geometry::Line(x, top, _, bottom) = element.form else {
        return write_element(text, tasks, element, title);
    };
    write!(text, "<g><title>{title}</title>")?;
    write_element(text, tasks, element, "")?;
    let (x, top, bottom) = (Pixels(x), Pixels(top), Pixels(bottom));
    writeln!(text, "<path class='hit' d='M{x} {top}V{bottom}'/></g>")
}

/// Writes an element: its class and its place, its title, and what a label says.
fn write_element(
    text: &mut String,
    tasks: &[Descriptor],
    element: Element,
    title: &str,
) -> Result<(), AllocError> {
    let (name, x, y) = match element.form {
        Geometry::Rectangle(left, top, _, _) => ("rect", left, top),
        Geometry::Line(left, top, _, _) => ("line", left, top),
        Geometry::Wedge(left, top) => ("path", left, top),
        Geometry::Label(left, base, _) => ("text", left, base),
    };
    let (class, x, y) = (class_of(element.style), Pixels(x), Pixels(y));
    write!(text, "<{name} class='{class}'")?;
    match element.form {
        Geometry::Rectangle(_, _, width, height) => {
            let (w, h) = (Pixels(width), Pixels(height));
            write!(text, " x='{x}' y='{y}' width='{w}' height='{h}'>")?;
        }
        Geometry::Line(_, _, right, bottom) => {
            let (to, below) = (Pixels(right), Pixels(bottom));
            write!(text, " x1='{x}' y1='{y}' x2='{to}' y2='{below}'>")?;
        }
        Geometry::Wedge(..) => write!(text, " d='M{x} {y}h14l-7 11z'>")?,
        Geometry::Label(..) => write!(text, " x='{x}' y='{y}'>")?,
    }
    if !title.is_empty() {
        write!(text, "<title>{title}</title>")?;
    }
    if let Geometry::Label(_, _, words) = element.form {
        write_words(text, tasks, words)?;
    }
    writeln!(text, "</{name}>")
}

/// Writes what a shape stands for, which is shown where a pointer rests on it.
fn write_meaning(
    text: &mut String,
    telling: &Telling<'_>,
    meaning: &Meaning,
) -> Result<(), AllocError> {
    let tasks = telling.tasks;
    match *meaning {
        Meaning::Nothing => Ok(()),
        Meaning::OfExec(counted, number, unit) => {
            let one = word_of_counted(counted);
            write!(text, "{one} {number}, unit {unit}")
        }
        Meaning::OfLife(counted, life, ending) => write_life(text, tasks, counted, life, ending),
        Meaning::OfHead(counted, after, last, unit) => {
            write_span(text, counted, u64::from(after) + 1, u64::from(last))?;
            write!(text, ": unit {unit} is the head")
        }
        Meaning::OfTransfer(counted, number, register, from, to) => {
            let one = word_of_counted(counted);
            write!(
                text,
                "{one} {number}: ${register} goes from unit {from} to unit {to}"
            )
        }
        Meaning::OfDrain(counted, number, register, unit) => {
            let one = word_of_counted(counted);
            write!(
                text,
                "{one} {number}: ${register} is sent by unit {unit}, which has stopped"
            )
        }
        Meaning::OfSquash(counted, number, unit) => {
            let one = word_of_counted(counted);
            write!(text, "{one} {number}: what follows unit {unit} is squashed")
        }
        Meaning::OfWait(wait) => write_wait(text, tasks, wait),
        Meaning::OfShare(counted, share) => write_share(text, counted, telling.before, share),
    }
}

/// Writes the title of a life.
fn write_life(
    text: &mut String,
    tasks: &[Descriptor],
    counted: Counted,
    life: Life,
    ending: Standing,
) -> Result<(), AllocError> {
    let (name, unit, executed) = (name_of(tasks, life.task), life.unit, life.executed);
    write!(text, "task {name}, unit {unit}, ")?;
    let (first, last) = (u64::from(life.first) + 1, u64::from(life.last) + 1);
    write_span(text, counted, first, last)?;
    write!(text, ", instructions: {executed}, ")?;
    match ending {
        Standing::Running => text.push_str(word_of(life.ending)),
        _ => write_how_it_stands(text, ending),
    }
}

/// Writes the numbers of the first and the last of what is counted.
fn write_span(
    text: &mut String,
    counted: Counted,
    first: u64,
    last: u64,
) -> Result<(), AllocError> {
    let one = word_of_counted(counted);
    if first == last {
        write!(text, "{one} {first}")
    } else {
        write!(text, "{one}s {first} to {last}")
    }
}

/// Writes the title of a wait.
fn write_wait(text: &mut String, tasks: &[Descriptor], wait: Wait) -> Result<(), AllocError> {
    let (first, count) = (u64::from(wait.step), wait.count);
    let last = (first + u64::from(count)).saturating_sub(1);
    write_span(text, Counted::Steps, first, last)?;
    if count > 1 {
        write!(text, " ({count} steps)")?;
    }
    text.push_str(": ")?;
    write_why(text, tasks, wait.why)
}

/// Writes why a unit waits. An error means that memory was refused.
pub fn write_why(text: &mut String, tasks: &[Descriptor], why: Why) -> Result<(), AllocError> {
    match why {
        Why::NeedsRegister(debt) => write_debt(text, tasks, "waits for", debt),
        Why::NeedsHead => text.push_str("waits to be the head"),
        Why::HasToPass(debt) => write_debt(text, tasks, "has to pass on", debt),
        Why::HasFinished => text.push_str("has finished, and waits to be the head"),
    }
}

/// Writes what is done for a register, and the task and the unit that owe it.
fn write_debt(
    text: &mut String,
    tasks: &[Descriptor],
    verb: &str,
    debt: Debt,
) -> Result<(), AllocError> {
    let (register, name, unit) = (debt.register, name_of(tasks, debt.task), debt.unit);
    let where_from = if debt.is_sent {
        ", on its way from unit"
    } else {
        " on unit"
    };
    write!(text, "{verb} ${register} of task {name}{where_from} {unit}")
}

/// Writes the title of a part of a stretch.
fn write_share(
    text: &mut String,
    counted: Counted,
    before: u32,
    share: StretchShare,
) -> Result<(), AllocError> {
    let before = u64::from(before);
    let (first, last) = (
        share.first.saturating_add(before),
        share.last.saturating_add(before),
    );
    write_span(text, counted, first, last)?;
    let (executed, retired) = (share.tally.executed, share.tally.retired);
    let (squashed, dropped) = (share.tally.squashed, share.tally.dropped);
    write!(
        text,
        ". On all units: instructions: {executed}; tasks that end here: retired: {retired}, squashed: {squashed}, dropped: {dropped}. The column is of this unit alone."
    )
}

/// The word for an event or a step.
pub(crate) fn word_of_counted(counted: Counted) -> &'static str {
    match counted {
        Counted::Events => "event",
        Counted::Steps => "step",
    }
}

/// The word for an ending.
fn word_of(ending: Ending) -> &'static str {
    match ending {
        Ending::Retired => "retired",
        Ending::Squashed => "squashed",
        Ending::Dropped => "dropped",
        Ending::Unfinished => "unfinished",
    }
}

/// The class of a style.
fn class_of(style: Style) -> &'static str {
    match style {
        Style::Quiet => "quiet",
        Style::Ground => "lane",
        Style::UnitName => "unit",
        Style::Grid => "grid",
        Style::Axis => "axis",
        Style::AxisNumber => "number",
        Style::Caption => "caption",
        Style::Bar(ending) => word_of(ending),
        Style::Share(Ending::Retired) => "share retired",
        Style::Share(Ending::Squashed) => "share squashed",
        Style::Share(Ending::Dropped) => "share dropped",
        Style::Share(Ending::Unfinished) => "share unfinished",
        Style::TaskName => "task",
        Style::Instruction => "instruction",
        Style::FineInstruction => "instruction fine",
        Style::ShownInstruction => "instruction shown",
        Style::Arrow => "transfer",
        Style::FineArrow => "transfer fine",
        Style::RegisterName => "register",
        Style::SquashMark => "squash",
        Style::Halted => "halted",
        Style::Trapped => "trapped",
        Style::Leads => "leads",
        Style::WaitForRegister => "wait needs",
        Style::WaitForTurn => "wait turn",
        Style::WaitToPass => "wait pass",
    }
}
