//! The words of labels.

ghost use Rattle.std.specs.Prelude.{◌≡◌};
ghost use Rattle.run_picture.specs.WordsText.{plural as plural_of};

use crate::bars::name_of;
use crate::shape::{Counted, LabelText};
use machine_model::event::Standing;
use std::alloc::AllocError;
use task_descriptor::descriptor::Descriptor;
use task_lives::tally::Tally;

/// Writes what a label says.
pub(crate) fn write_words(
    text: &mut String,
    tasks: &[Descriptor],
    words: LabelText,
) -> Result<(), AllocError> {
    match words {
        LabelText::Sums(tally) => write_tally(text, tally),
        LabelText::HowItStands(standing) => {
            text.push_str("The run ")?;
            write_how_it_stands(text, standing)?;
            text.push_str(match standing {
                Standing::Halted => "; the task that did so is counted as unfinished.",
                _ => ".",
            })
        }
        LabelText::OfUnit(unit) => write!(text, "unit {unit}"),
        LabelText::Idle(unit, last) if unit == last => write!(text, "unit {unit}: idle"),
        LabelText::Idle(first, last) => write!(text, "units {first} to {last}: idle"),
        LabelText::ColumnNumber(number) => write!(text, "{number}"),
        LabelText::OfAxis(Counted::Events) => {
            text.push_str("events that were allowed, numbered from 1")
        }
        LabelText::OfAxis(Counted::Steps) => text.push_str("steps, numbered from 1"),
        LabelText::Task(task, letters) => write_letters(text, name_of(tasks, task), letters),
        LabelText::Register(register) => write!(text, "${register}"),
        LabelText::Single(Counted::Events) => text.push_str(
            "An arrow that leaves the last unit continues at unit 0: the units form a ring.",
        ),
        LabelText::Single(Counted::Steps) => text.push_str(
            "In a step each unit does one event, unless it waits for a reason that is shaded, or has no task. Steps are no time of a processor.",
        ),
        LabelText::Summed(counted, count) => {
            let counted = match counted {
                Counted::Events => "events",
                Counted::Steps => "steps",
            };
            write!(
                text,
                "A long run, summed: each column is {count} {counted}, and shows how much of them a unit spent on tasks that ended so."
            )
        }
    }
}

/// Adds how a run is at the end of its history, to follow the words "the run".
///
/// # Errors
///
/// `AllocError` where memory was refused; a part may have been added.
pub fn write_how_it_stands(text: &mut String, standing: Standing) -> Result<(), AllocError> {
    match standing {
        Standing::Running => text.push_str("has not ended"),
        Standing::Halted => text.push_str("halted"),
        Standing::Trapped(trap) => write!(text, "trapped: {trap}"),
        Standing::Unlisted(address) => write!(
            text,
            "is unlisted: the head goes to 0x{address:x}, none of its targets"
        ),
    }
}

/// The ending of a noun for a number of things: `s`, or nothing for one.
pub fn plural(count: usize) -> &'static str
    ensures { result.now ≡ plural_of count }
{
    if count == 1 { "" } else { "s" }
}

/// Writes the tally of some lives.
fn write_tally(text: &mut String, tally: Tally) -> Result<(), AllocError> {
    let (assigned, retired, squashed) = (tally.assigned, tally.retired, tally.squashed);
    let (dropped, unfinished) = (tally.dropped, tally.unfinished);
    let (useful, wasted) = (tally.useful, tally.wasted);
    write!(
        text,
        "lives of tasks: {assigned} ({retired} retired, {squashed} squashed, {dropped} dropped, {unfinished} unfinished); instructions of retired tasks: {useful}, of squashed or dropped ones: {wasted}"
    )
}

/// Writes a name if it has at most `letters` letters, else its first `letters` letters and three points.
fn write_letters(text: &mut String, name: &str, letters: usize) -> Result<(), AllocError> {
    match name.get(..letters) {
        Some(front) if letters < name.len() => write!(text, "{front}&#8230;"),
        _ => text.push_str(name),
    }
}
