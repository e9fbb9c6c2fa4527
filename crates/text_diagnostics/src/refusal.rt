//! Diagnostics for a text that spells no program.

ghost use Rattle.std.specs.Prelude.{◌≡◌, map as each, true, IfOk, IfSome};
ghost use Rattle.std.specs.List.{list_any};
ghost use Rattle.program_tokens.specs.Lines.{lines};
ghost use Rattle.text_diagnostics.specs.Mending.{IsLineError};
ghost use Rattle.text_diagnostics.specs.Refusals.{told_as, token_in, token_of, is_at, tells, IsTold, AreTextErrors};

use crate::advice::{Made, filled};
use crate::compiled::{compiled_note, in_short};
use crate::faulty_line::FaultyLine;
use crate::given::Given;
use crate::item_said::item_error;
use crate::line_said::{line_help, line_message};
use crate::mistakes::{Kind, mistakes};
use crate::place::{Places, span_in};
use crate::tree::known_of;
use annotated_asm::assembler::{MOST_TEXT, assemble};
use annotated_asm::fault::AsmFault;
use diagnostics::code::Code;
use diagnostics::diagnostic::{Diagnostic, Help, Severity, Source, Span};
use diagnostics::helps::in_words;
use diagnostics::listed::Listed;
use diagnostics::more::add_more;
use diagnostics::words::Words;
use operand_forms::line_fault::LineFaultKind;
use operand_forms::line_place::line_place;
use operand_forms::rows::{line_at, lines_of, read};
use program_statements::statement::Section;
use std::alloc::{AllocError, Global};
use task_descriptor::program::BuildFault;

/// An error of a program text, without notes.
fn error_of(
    alloc: Global,
    code: Code,
    span: Option<Span>,
    message: Words,
    help: Option<Help>,
) -> Diagnostic
    ensures severity { result.severity ≡ Severity.Error }
    ensures source { result.source ≡ Source.Program }
    ensures code { result.code ≡ code }
    ensures span { result.span ≡ span }
    ensures help { result.help ≡ help }
{
    Diagnostic {
        severity: Severity::Error,
        code,
        source: Source::Program,
        span,
        message,
        notes: Listed::new(Vec::new(alloc)),
        help,
    }
}

/// The error of a line that cannot be read in a section.
fn line_error(
    alloc: Global,
    kind: LineFaultKind,
    number: u32,
    section: Section,
    line: &[u8],
) -> Made<Diagnostic>
    ensures { IfOk result (IsLineError kind number section line.now) }
{
    let reading = read(alloc, line)?;
    let place = line_place(alloc, kind, line, &reading)?;
    let wrong = FaultyLine {
        alloc,
        kind,
        section,
        line,
        reading: &reading,
        place,
    };
    let message = line_message(&wrong)?;
    let help = line_help(number, &wrong)?;
    let (code, _) = told_as(kind.on_line(number));
    let span = Some(span_in(number, place));
    Ok(error_of(alloc, code, span, message, Some(help)))
}

/// That there is no task.
fn no_task(given: &Given<'_>) -> Made<Diagnostic> {
    let alloc = given.alloc;
    let start = given.known.start.and_then(|number| given.item(number));
    let name = given.start_name(start);
    let row = match name {
        Some(_) => {
            "add a line for each task, or for one task .task {name} create=- targets=-; annotate --emit marks then writes its registers"
        }
        None => "add a line for each task, such as .task A create=$8 targets=A,B",
    };
    let name = Words::of(alloc, name.unwrap_or(""))?;
    let help = filled(alloc, row, &[("name", name)])?;
    let message = Words::of(alloc, "the program has no task")?;
    let help = Some(in_words(alloc, help));
    Ok(error_of(alloc, Code::NoTask, None, message, help))
}

/// All that is wrong with a text, which has these lines.
fn told(alloc: Global, rows: &[&[u8]]) -> Made<Vec<Diagnostic>> {
    let all = known_of(alloc, rows)?;
    let known = &all;
    let given = Given { alloc, rows, known };
    let found = mistakes(&given)?;
    let more = found.more;
    let mut list = Vec::new(alloc);
    let mut places = Places::new(given)?;
    let compiled = compiled_note(alloc, rows)?;
    for mistake in &found.list {
        let Some(item) = given.item(mistake.item) else {
            continue;
        };
        let line = item.span.line;
        let row = line_at(rows, line);
        let mut said = match mistake.kind {
            Kind::Line(kind, section) => line_error(alloc, kind, line, section, row)?,
            _ => item_error(&mut places, mistake, item)?,
        };
        if compiled.is_some() {
            in_short(&mut said);
        }
        list.push(said)?;
    }
    if let Some(note) = compiled {
        list.push(note)?;
    }
    if known.is_read && known.all.tasks == 0 {
        list.push(no_task(&given)?)?;
    }
    add_more(alloc, &mut list, Source::Program, more, "error", "errors")?;
    Ok(list)
}

/// The code of a fault, and its line, if it has one.
fn told_as(fault: AsmFault) -> (Code, Option<u32>)
    ensures { result ≡ told_as fault }
{
    match fault {
        AsmFault::NotAscii(line) => (Code::NotAscii, Some(line)),
        AsmFault::Token(line) => (Code::Token, Some(line)),
        AsmFault::Mnemonic(line) => (Code::Mnemonic, Some(line)),
        AsmFault::Operand(line) => (Code::Operand, Some(line)),
        AsmFault::Number(line) => (Code::Number, Some(line)),
        AsmFault::Mark(line) => (Code::Mark, Some(line)),
        AsmFault::Duplicate(line) => (Code::Duplicate, Some(line)),
        AsmFault::Unknown(line) => (Code::Unknown, Some(line)),
        AsmFault::Build(BuildFault::TooMany) => (Code::TooMany, None),
        AsmFault::Build(BuildFault::NoTask) => (Code::NoTask, None),
        AsmFault::Build(BuildFault::BadEntry) => (Code::BadEntry, None),
        AsmFault::Build(BuildFault::DuplicateEntry) => (Code::DuplicateEntry, None),
        AsmFault::Build(BuildFault::BadMask) => (Code::BadMask, None),
        AsmFault::Build(BuildFault::BadMark(_)) => (Code::BadMark, None),
        AsmFault::Build(BuildFault::BadStart) => (Code::BadStart, None),
        AsmFault::TooLong | AsmFault::OutOfMemory => (Code::TooLong, None),
    }
}

/// The token that is to blame for what is wrong with the line of this number.
fn token_in(alloc: Global, rows: &[&[u8]], number: u32, kind: LineFaultKind) -> Made<Option<Span>>
    ensures { IfOk result (λ span. span ≡ token_in (each (λ row. row.now) rows.now) number kind) }
{
    let line = line_at(rows, number);
    let reading = read(alloc, line)?;
    let place = line_place(alloc, kind, line, &reading)?;
    Ok(Some(span_in(number, place)))
}

/// The token that is to blame for a fault, if its line cannot be read.
fn token_of(alloc: Global, rows: &[&[u8]], fault: AsmFault) -> Made<Option<Span>>
    ensures { IfOk result (λ span. span ≡ token_of (each (λ row. row.now) rows.now) fault) }
{
    match fault {
        AsmFault::NotAscii(line) => token_in(alloc, rows, line, LineFaultKind::NotAscii),
        AsmFault::Token(line) => token_in(alloc, rows, line, LineFaultKind::Token),
        AsmFault::Mnemonic(line) => token_in(alloc, rows, line, LineFaultKind::Mnemonic),
        AsmFault::Operand(line) => token_in(alloc, rows, line, LineFaultKind::Operand),
        AsmFault::Number(line) => token_in(alloc, rows, line, LineFaultKind::Number),
        AsmFault::Mark(line) => token_in(alloc, rows, line, LineFaultKind::Mark),
        _ => Ok(None),
    }
}

/// Whether a place is this token, or, where none is asked for, on this line, if one is.
fn is_at(token: Option<Span>, line: Option<u32>, span: Option<Span>) -> bool
    ensures { result ≡ is_at token line span }
{
    match (token, line, span) {
        (None, None, _) => true,
        (None, Some(line), Some(span)) => span.line == line,
        (Some(token), _, Some(span)) => {
            span.line == token.line && (span.column == token.column && span.width == token.width)
        }
        _ => false,
    }
}

/// Whether a diagnostic is the error that reports a fault, at the place of its token.
pub fn tells(fault: AsmFault, token: Option<Span>, said: &Diagnostic) -> bool
    ensures { result ≡ tells fault token said.now }
{
    let (code, line) = told_as(fault);
    let is_code = code.id().as_bytes() == said.code.id().as_bytes();
    let is_error = matches!(said.severity, Severity::Error);
    let is_ours = matches!(said.source, Source::Program);
    (is_error && is_ours) && (is_code && is_at(token, line, said.span))
}

/// The place of a fault: its token, or the beginning of its line, if it has one.
fn place_of(token: Option<Span>, line: Option<u32>) -> Option<Span>
    ensures { is_at token line result ≡ true }
{
    match (token, line) {
        (None, Some(line)) => Some(Span {
            line,
            column: 1,
            width: 0,
        }),
        _ => token,
    }
}

/// The fault by itself: at its token, or at the beginning of its line.
#[tactic(auto, using(crate::proofs::Told::told_alone))]
fn plain(alloc: Global, fault: AsmFault, token: Option<Span>) -> Made<Diagnostic>
    ensures { IfOk result (λ said. tells fault token said ≡ true) }
{
    let (code, line) = told_as(fault);
    let span = place_of(token, line);
    let (message, help) = match fault {
        AsmFault::TooLong => {
            let help = Words::of(alloc, "a program has at most 4194304 bytes")?;
            ("the program is too long", Some(in_words(alloc, help)))
        }
        _ => ("this is what is refused first", None),
    };
    let message = Words::of(alloc, message)?;
    Ok(error_of(alloc, code, span, message, help))
}

/// The list with a fault at its token, which is put first where the list does not report it.
fn with_first(
    alloc: Global,
    fault: AsmFault,
    token: Option<Span>,
    mut list: Vec<Diagnostic>,
) -> Made<Vec<Diagnostic>>
    ensures { IfOk result (λ all. list_any (tells fault token) all.items ≡ true) }
{
    if list.iter().any(|said| tells(fault, token, said)) {
        return Ok(list);
    }
    list.insert(0, plain(alloc, fault, token)?)?;
    Ok(list)
}

/// The place of the token that is to blame for a text's first fault; `None` where the fault is not about a line that
/// cannot be read.
///
/// # Errors
///
/// `AllocError` where memory was refused.
pub fn first_token(alloc: Global, text: &[u8], fault: AsmFault) -> Result<Option<Span>, AllocError>
    ensures { IfOk result (λ span. span ≡ token_of (lines text.now) fault) }
{
    let rows = lines_of(alloc, text)?;
    token_of(alloc, &rows, fault)
}

/// The errors in a text whose first fault is `fault`: one for each of at most 1,000 mistakes, in the order of the text,
/// and a note with the number of the rest. The first fault is always among them.
///
/// # Errors
///
/// `AllocError` where memory was refused.
pub fn refusal(alloc: Global, text: &[u8], fault: AsmFault) -> Result<Vec<Diagnostic>, AllocError>
    ensures { IfOk result (λ list. IsTold text.now fault list.items) }
{
    if let AsmFault::TooLong = fault {
        let list = with_first(alloc, fault, None, Vec::new(alloc))?;
        return Ok(list);
    }
    let rows = lines_of(alloc, text)?;
    let list = if text.len() > MOST_TEXT {
        Vec::new(alloc)
    } else {
        told(alloc, &rows)?
    };
    let token = token_of(alloc, &rows, fault)?;
    let list = with_first(alloc, fault, token, list)?;
    Ok(list)
}

/// The errors in a text: none exactly where it spells a program, else among them the fault at which the assembler stops.
///
/// # Errors
///
/// `AllocError` where memory was refused.
#[tactic(auto, using(crate::proofs::Refused::told, crate::proofs::Told::of_program, crate::proofs::Told::of_refusal))]
pub fn text_diagnostics(alloc: Global, text: &[u8]) -> Result<Vec<Diagnostic>, AllocError>
    ensures { IfOk result (λ list. AreTextErrors text.now list.items) }
{
    match assemble(alloc, text) {
        Ok(_) => Ok(Vec::new(alloc)),
        Err(AsmFault::OutOfMemory) => Err(AllocError),
        Err(fault) => refusal(alloc, text, fault),
    }
}
