//! A text read line by line, and written with other marks.

ghost use Rattle.std.specs.Prelude.{◌≡◌, ◌≤◌, ◌<◌, ◌-◌, ◌++◌, drop, length, slice_get, IfOk, IfSome, IfNone, OnOk};
ghost use Rattle.annotated_asm.specs.Steps.{Answers};
ghost use Rattle.annotated_asm.specs.Items.{after_labels};
ghost use Rattle.canonical_text.specs.MarkedText.{forward_of, create_of, statement_line, code_behind, tasks_behind, newline_before, with_line, with_lines, nothing_of, marked_text};

use crate::editing::{write_code_line, write_task_line};
use annotated_asm::fault::AsmFault;
use annotated_asm::line::{instruction_count, section_after, statement_at, tokens_of};
use mips_instructions::number::RegSet;
use program_statements::statement::{Section, Statement};
use program_tokens::line::first_line;
use program_tokens::span::{TokenSpan, read_spans};
use program_tokens::token::Token;
use std::alloc::{AllocError, Global};
use task_descriptor::descriptor::{Descriptor, Marked};
use task_descriptor::program::Program;

/// The tokens after the label at the front of some tokens, if one stands there.
fn behind_label(tokens: &[Token]) -> Option<&[Token]>
    ensures some { IfSome result (λ rest. after_labels tokens.now ≡ after_labels rest.now) }
    ensures shorter { IfSome result (λ rest. length rest.now < length tokens.now) }
    ensures none { IfNone result (after_labels tokens.now ≡ tokens.now) }
{
    match tokens {
        [Token::Name(_), Token::Colon, behind @ ..] => Some(behind),
        _ => None,
    }
}

/// The tokens after the labels at the front of a line.
fn after_labels(tokens: &[Token]) -> &[Token]
    ensures { result.now ≡ after_labels tokens.now }
{
    let mut rest = tokens;
    'labels: while let Some(behind) = behind_label(rest) {
        rest = behind;
    }
    rest
}

/// What stands after the given number of items.
fn behind<T>(items: &[T], number: usize) -> &[T]
    ensures { result.now ≡ drop number items.now }
{
    if number < items.len() {
        &items[number..]
    } else {
        &[]
    }
}

/// The forward bit that an instruction is to have.
fn forward_of(marked: Option<&Marked>, now: bool) -> bool
    ensures { result ≡ forward_of (option_copied marked.entry) now }
{
    match marked {
        Some(marked) => marked.forward,
        None => now,
    }
}

/// The create mask that a task is to have.
fn create_of(task: Option<&Descriptor>, now: RegSet) -> RegSet
    ensures { result ≡ create_of (option_copied task.entry) now }
{
    match task {
        Some(task) => task.create,
        None => now,
    }
}

/// Writes the line of a statement of these tokens, which stand at these places.
fn write_statement_line(
    alloc: Global,
    text: &mut Vec<u8>,
    code: &[Marked],
    tasks: &[Descriptor],
    spans: &[TokenSpan],
    tokens: &[Token],
    statement: &Statement,
    line: &[u8],
) -> Result<(), AllocError>
    ensures { OnOk result (text.new.items ≡ text.old.items ++ statement_line code.now tasks.now spans.now tokens.now statement.now line.now) }
{
    match statement {
        Statement::Code(instruction, marks) => {
            let last = (instruction_count(instruction) - 1) as usize;
            let wanted = forward_of(code.get(last), marks.forward);
            write_code_line(text, wanted, *marks, spans, tokens, line)
        }
        Statement::Task(task) => {
            let wanted = create_of(tasks.first(), task.create);
            write_task_line(alloc, text, wanted, task, spans, tokens, line)
        }
        Statement::Empty
        | Statement::Label(_)
        | Statement::Section(_)
        | Statement::Start(_)
        | Statement::Bytes(_)
        | Statement::Space(_) => text.extend_from_slice(line),
    }
}

/// The instructions that are still to come after a statement.
fn code_behind<'a>(code: &'a [Marked], statement: &Statement) -> &'a [Marked]
    ensures { result.now ≡ code_behind code.now statement.now }
{
    match statement {
        Statement::Code(instruction, _) => behind(code, instruction_count(instruction) as usize),
        _ => code,
    }
}

/// The tasks that are still to come after a statement.
fn tasks_behind<'a>(tasks: &'a [Descriptor], statement: &Statement) -> &'a [Descriptor]
    ensures { result.now ≡ tasks_behind tasks.now statement.now }
{
    match statement {
        Statement::Task(_) => behind(tasks, 1),
        _ => tasks,
    }
}

/// What is read of a line; its memory is reused for the next one.
#[derive(Drop)]
struct Read {
    tokens: Vec<Token>,
    spans: Vec<TokenSpan>,
}

/// What of a program is still to come.
#[derive(Drop)]
struct Rest<'a> {
    code: &'a [Marked],
    tasks: &'a [Descriptor],
    section: Section,
}

/// Writes an LF before each line but the first.
fn write_newline(text: &mut Vec<u8>, line: u32) -> Result<(), AllocError>
    ensures { OnOk result (text.new.items ≡ text.old.items ++ newline_before line) }
{
    if line == 1 {
        return Ok(());
    }
    text.extend_from_slice(b"\n")
}

/// Writes a line with the marks that are to come, and returns what comes after it.
#[tactic(auto, unfolding(crate::specs::MarkedText::with_line))]
fn write_line<'a>(
    alloc: Global,
    read: &mut Read,
    text: &mut Vec<u8>,
    code: &'a [Marked],
    tasks: &'a [Descriptor],
    number: u32,
    section: Section,
    line: &[u8],
) -> Result<Rest<'a>, AsmFault>
    ensures { Answers (λ rest. (record { text = text.new.items; code = rest.code.now; tasks = rest.tasks.now }, rest.section)) result
        (with_line (record { text = text.old.items; code = code.now; tasks = tasks.now }) number section line.now) }
{
    tokens_of(&mut read.tokens, number, line)?;
    read_spans(&mut read.spans, line)?;
    let tokens = after_labels(&read.tokens);
    let labels = read.tokens.len().saturating_sub(tokens.len());
    let spans = behind(&read.spans, labels);
    let statement = statement_at(alloc, number, section, tokens)?;
    write_newline(text, number)?;
    write_statement_line(alloc, text, code, tasks, spans, tokens, &statement, line)?;
    Ok(Rest {
        code: code_behind(code, &statement),
        tasks: tasks_behind(tasks, &statement),
        section: section_after(section, &statement),
    })
}

ghost use Rattle.std.specs.Option.{option_copied};
ghost use Rattle.program_tokens.specs.Lines.{lines};

/// The text with the marks of a program, or the first fault of a line.
///
/// # Errors
///
/// `NotAscii`, `Token`, `Mnemonic`, `Operand`, `Number` or `Mark`; `OutOfMemory` may be reported in place of any.
#[tactic(auto, unfolding(crate::specs::MarkedText::marked_text))]
pub(crate) fn marked_text(
    alloc: Global,
    text: &[u8],
    program: &Program,
) -> Result<Vec<u8>, AsmFault>
    requires { length text.now ≤ 4194304 }
    ensures { Answers (λ v. v.items) result (marked_text text.now program.now) }
{
    let mut written = Vec::new(alloc);
    let mut read = Read {
        tokens: Vec::new(alloc),
        spans: Vec::new(alloc),
    };
    let mut rest = text;
    let mut number = 1;
    let mut section = Section::Text;
    let mut code = program.code();
    let mut tasks = program.tasks();
    'lines: loop {
        let (line, behind) = first_line(rest);
        let next = write_line(
            alloc,
            &mut read,
            &mut written,
            code,
            tasks,
            number,
            section,
            line,
        )?;
        match behind {
            Some(more) => {
                rest = more;
                number += 1;
                section = next.section;
                code = next.code;
                tasks = next.tasks;
            }
            None => return Ok(written),
        }
    }
}
