//! What is said of an item that can be read, and what to do about it: a row for each kind of mistake.

use crate::advice::{Made, Row, advice, filled, mend};
use crate::given::{Given, Item};
use crate::mistakes::{Kind, Limit, Mistake, UsedAs};
use crate::place::Places;
use diagnostics::code::Code;
use diagnostics::diagnostic::{Diagnostic, Note, Severity, Source};
use diagnostics::listed::Listed;
use diagnostics::quotation::quoted;
use diagnostics::words::Words;

/// What to do about a name that is no label.
const NO_LABEL: &str =
    "a label is a name with a colon after it; a task has the name of the label where it begins";

/// What to do about a label of data.
const DATA_LABEL: &str = "name a label in .text";

/// What to do where a limit is passed.
const LIMITS: &str =
    "at most 4096 instructions, 1024 tasks, 16 targets of a task, 65536 bytes of .data and 65536 of .rodata";

/// What is said of a kind of mistake.
fn row_of(kind: Kind) -> Row {
    match kind {
        Kind::LabelTwice => advice(
            "the label {name} is defined a second time",
            "give this one another name, and write it in the lines that mean it",
        ),
        Kind::TaskTwice => advice(
            "the task {name} is defined a second time",
            "remove one of them, or give it another name",
        ),
        Kind::StartTwice => advice("the start is defined a second time", "remove one of them"),
        Kind::NoLabel(UsedAs::Task) => advice("there is no label for the task {name}", NO_LABEL),
        Kind::NoLabel(_) => advice("there is no label {name}", NO_LABEL),
        Kind::DataLabel(UsedAs::Operand) => advice(
            "{name} is a label of data, where there is no instruction",
            DATA_LABEL,
        ),
        Kind::DataLabel(_) => {
            advice(
                "{name} is a label of data, where no task begins",
                DATA_LABEL,
            )
        }
        Kind::Passes(limit) => advice(limit_row(limit), LIMITS),
        Kind::CreatesZero => advice(
            "a create mask has $0, which nothing writes",
            "leave $0 out of the create mask",
        ),
        Kind::UnfitForward => mend(
            "!f is on an instruction that writes no register",
            "remove !f",
            "",
        ),
        Kind::StopOnHalt => mend(
            "a stop is on halt, which ends the program",
            "remove the stop",
            "",
        ),
        Kind::OneSidedStop => mend(
            "!st or !sn is on an instruction that is not a conditional branch",
            "write !s, which stops always",
            "!s",
        ),
        Kind::ReleasesZero => advice(
            "a release names $0, which is always 0",
            "leave $0 out, or write nop in place of a release of nothing else",
        ),
        Kind::NoInstruction => advice(
            "the task {name} begins where there is no instruction",
            "write an instruction after the label",
        ),
        Kind::SameEntry => advice(
            "the task {name} begins where another task begins",
            "remove one of the tasks, or write an instruction between their labels",
        ),
        Kind::NoTaskThere => advice(
            "the program starts where no task begins",
            "add a line for the task that begins there, such as .task A create=$8 targets=A,B",
        ),
        Kind::Line(..) => advice("", ""),
    }
}

/// Which limit is passed.
fn limit_row(limit: Limit) -> &'static str {
    match limit {
        Limit::Code => "the program has more than 4096 instructions",
        Limit::Bytes => "the program has more than 65536 bytes of .data",
        Limit::Fixed => "the program has more than 65536 bytes of .rodata",
        Limit::Tasks => "the program has more than 1024 tasks",
        Limit::Targets => "the task has more than 16 targets",
    }
}

/// The code of a kind of mistake.
fn code_of(kind: Kind) -> Code {
    match kind {
        Kind::LabelTwice | Kind::TaskTwice | Kind::StartTwice => Code::Duplicate,
        Kind::NoLabel(_) | Kind::DataLabel(_) => Code::Unknown,
        Kind::Passes(_) => Code::TooMany,
        Kind::CreatesZero => Code::BadMask,
        Kind::NoInstruction => Code::BadEntry,
        Kind::SameEntry => Code::DuplicateEntry,
        Kind::NoTaskThere => Code::BadStart,
        _ => Code::BadMark,
    }
}

/// What the other item shows.
fn note_row(kind: Kind) -> &'static str {
    match kind {
        Kind::DataLabel(_) => "the label is here",
        Kind::NoInstruction => "its label is here, with no instruction after it",
        Kind::SameEntry => "this task begins there, too",
        _ => "it is first defined here",
    }
}

/// The row of a kind of mistake where a name is known: of the label that is near, or of the place where the program starts.
fn row_with_name(kind: Kind) -> Row {
    let Row { says, .. } = row_of(kind);
    match kind {
        Kind::NoTaskThere => mend(
            says,
            "add a line .task {said} create=- targets=-, with its registers and its targets",
            "\n.task {said} create=- targets=-",
        ),
        _ => mend(says, "did you mean {said}?", "{said}"),
    }
}

/// The note on another item that shows a mistake, if there is one.
fn notes_of(given: &Given<'_>, mistake: &Mistake) -> Made<Vec<Note>> {
    let mut notes = Vec::new(given.alloc);
    if let Some(other) = mistake.other.and_then(|number| given.item(number)) {
        notes.push(Note {
            span: Some(other.span),
            message: Words::of(given.alloc, note_row(mistake.kind))?,
            path: Listed::new(Vec::new(given.alloc)),
        })?;
    }
    Ok(notes)
}

/// The diagnostic for a mistake of an item that can be read.
pub(crate) fn item_error(
    places: &mut Places<'_>,
    mistake: &Mistake,
    item: &Item,
) -> Made<Diagnostic> {
    let Mistake { kind, .. } = *mistake;
    let given = places.given;
    let alloc = given.alloc;
    let span = places.meant(mistake, item)?;
    let name = given.text_at(span);
    let said = match kind {
        Kind::NoLabel(used_as) | Kind::DataLabel(used_as) => given.near_label(name, used_as),
        Kind::NoTaskThere => given.start_name(Some(item)),
        _ => None,
    };
    let row = match said {
        Some(_) => row_with_name(kind),
        None => row_of(kind),
    };
    let words = [
        ("name", quoted(alloc, name.as_bytes())?),
        ("said", Words::of(alloc, said.unwrap_or(""))?),
    ];
    let help = row.help(alloc, places.written(kind, span), &words)?;
    Ok(Diagnostic {
        severity: Severity::Error,
        code: code_of(kind),
        source: Source::Program,
        span: Some(span),
        message: filled(alloc, row.says, &words)?,
        notes: Listed::new(notes_of(&given, mistake)?),
        help: Some(help),
    })
}
