//! The source map of a text, read line by line.

ghost use Rattle.std.specs.Prelude.{◌≡◌, ◌≤◌, ◌<◌, ◌+◌, ◌*◌, ◌^◌, ◌++◌, ◌∷◌, [], length, drop, replicate, All, IfOk, IfSome, IfNone, OnOk};
ghost use Rattle.annotated_asm.specs.Steps.{Answers};
ghost use Rattle.annotated_asm.specs.Items.{labels_of, after_labels};
ghost use Rattle.annotated_asm.specs.Sources.{token_position, label_sources, task_lists, targets_number, target_stretches, sources_in, with_statement, with_line, sources_of};

use crate::assembler::MOST_TEXT;
use crate::fault::AsmFault;
use crate::line::{instruction_count, section_after, statement_at, tokens_of};
use crate::places::{
    behind, read_places, target_stretches, targets_number, task_lists, token_position,
    width_between,
};
use crate::position::{DataSource, LabelSource, Position, SourceMap};
use program_statements::statement::{Section, Statement};
use program_tokens::line::first_line;
use program_tokens::span::TokenSpan;
use program_tokens::token::Token;
use std::alloc::{AllocError, Global};
use task_descriptor::name::Name;

/// The label at the front of some tokens, and the tokens after its colon.
fn first_label<'a>(tokens: &'a [Token]) -> Option<(Name, &'a [Token])>
    ensures label { IfSome result (λ cut. tokens.now ≡ Token.Name cut.0 ∷ Token.Colon ∷ cut.1.now) }
    ensures none { IfNone result (labels_of tokens.now ≡ []) }
{
    match tokens {
        [Token::Name(name), Token::Colon, behind @ ..] => Some((*name, behind)),
        _ => None,
    }
}

/// Adds the labels at the front of a line. Returns the tokens after them, and how many tokens the labels take.
fn add_labels<'a>(
    labels: &mut Vec<LabelSource>,
    line: u32,
    spans: &[TokenSpan],
    tokens: &'a [Token],
) -> Result<(&'a [Token], usize), AllocError>
    ensures rest { IfOk result (λ cut. cut.0.now ≡ after_labels tokens.now) }
    ensures number { IfOk result (λ cut. cut.1 ≡ 2 * length (labels_of tokens.now)) }
    ensures added { OnOk result (labels.new.items ≡ labels.old.items ++ label_sources line spans.now 0 tokens.now) }
{
    let mut rest = tokens;
    let mut number = 0;
    while let Some((name, behind)) = first_label(rest) {
        labels.push(LabelSource {
            name,
            position: token_position(line, spans, number),
        })?;
        number += 2;
        rest = behind;
    }
    Ok((rest, number))
}

/// Adds the place and the width of an instruction of the text, once for each of its machine instructions.
fn add_code(
    code: &mut Vec<Position>,
    widths: &mut Vec<usize>,
    at: Position,
    width: usize,
    count: u64,
) -> Result<(), AllocError>
    ensures code { OnOk result (code.new.items ≡ code.old.items ++ replicate count at) }
    ensures widths { OnOk result (widths.new.items ≡ widths.old.items ++ replicate count width) }
{
    for _ in 0..count {
        code.push(at)?;
        widths.push(width)?;
    }
    Ok(())
}

/// Adds a task with its lists.
fn add_task(
    alloc: Global,
    map: &mut SourceMap,
    line: u32,
    spans: &[TokenSpan],
    tokens: &[Token],
) -> Result<(), AllocError>
    requires { All (λ span. span.column + span.len < 2 ^ 64) spans.now }
    ensures { OnOk result (sources_in map.new ≡ record (sources_in map.old) {
      tasks = map.old.tasks.items ++ token_position line spans.now 0 ∷ [];
      lists = map.old.lists.items ++ task_lists line spans.now tokens.now ∷ [];
      targets = (sources_in map.old).targets ++ target_stretches line (drop (targets_number tokens.now + 2) spans.now) ∷ [];
    }) }
{
    let word = targets_number(tokens);
    let list = target_stretches(alloc, line, behind(spans, word + 2))?;
    map.tasks.push(token_position(line, spans, 0))?;
    map.lists.push(task_lists(line, spans, tokens))?;
    map.targets.push(list)?;
    Ok(())
}

/// Adds the statement of these tokens, which stand at these places.
fn add_statement(
    alloc: Global,
    map: &mut SourceMap,
    line: u32,
    spans: &[TokenSpan],
    tokens: &[Token],
    section: Section,
    statement: &Statement,
) -> Result<(), AllocError>
    requires { All (λ span. span.column + span.len < 2 ^ 64) spans.now }
    ensures { OnOk result (sources_in map.new ≡ with_statement (sources_in map.old) line spans.now tokens.now section statement.now) }
{
    let position = token_position(line, spans, 0);
    match statement {
        Statement::Code(instruction, _) => {
            let width = width_between(spans, 0, spans.len().saturating_sub(1));
            let count = instruction_count(instruction);
            add_code(&mut map.code, &mut map.widths, position, width, count)?;
        }
        Statement::Task(_) => add_task(alloc, map, line, spans, tokens)?,
        Statement::Bytes(_) | Statement::Space(_) => {
            map.pieces.push(DataSource { section, position })?;
        }
        Statement::Start(_) => map.start = Some(position),
        Statement::Empty | Statement::Label(_) | Statement::Section(_) => {}
    }
    Ok(())
}

/// What is read of a line; its memory is reused for the next one.
#[derive(Drop)]
struct Read {
    tokens: Vec<Token>,
    spans: Vec<TokenSpan>,
}

/// Adds what a line spells, and returns the section after it.
#[tactic(auto, unfolding(crate::specs::Sources::with_line))]
fn add_line(
    alloc: Global,
    read: &mut Read,
    map: &mut SourceMap,
    line: u32,
    section: Section,
    text: &[u8],
) -> Result<Section, AsmFault>
    ensures { Answers (λ next. (sources_in map.new, next)) result (with_line (sources_in map.old) line section text.now) }
{
    tokens_of(&mut read.tokens, line, text)?;
    read_places(&mut read.spans, text)?;
    let (rest, number) = add_labels(&mut map.labels, line, &read.spans, &read.tokens)?;
    let statement = statement_at(alloc, line, section, rest)?;
    let spans = behind(&read.spans, number);
    add_statement(alloc, map, line, spans, rest, section, &statement)?;
    Ok(section_after(section, &statement))
}

/// The source map of a text. Faults of the text as a whole, such as an unknown label, do not count here: the
/// map is made all the same.
///
/// # Errors
///
/// `TooLong`, then the first fault of a line, with the line's number from 1: `NotAscii`, `Token`, `Mnemonic`,
/// `Operand`, `Number` or `Mark`. `OutOfMemory`, where memory was refused, may come in place of any of these.
#[tactic(auto, unfolding(crate::specs::Sources::sources_of))]
pub fn source_map(alloc: Global, text: &[u8]) -> Result<SourceMap, AsmFault>
    ensures { Answers (λ map. sources_in map) result (sources_of text.now) }
{
    if text.len() > MOST_TEXT {
        return Err(AsmFault::TooLong);
    }
    map_of(alloc, text)
}

ghost use Rattle.program_tokens.specs.Lines.{lines};
ghost use Rattle.annotated_asm.specs.Sources.{no_sources, with_lines};

/// The source map of a text that is not too long.
fn map_of(alloc: Global, text: &[u8]) -> Result<SourceMap, AsmFault>
    requires { length text.now ≤ 4194304 }
    ensures { Answers (λ map. sources_in map) result (with_lines no_sources 1 Section.Text (lines text.now)) }
{
    let mut map = SourceMap {
        code: Vec::new(alloc),
        widths: Vec::new(alloc),
        tasks: Vec::new(alloc),
        lists: Vec::new(alloc),
        targets: Vec::new(alloc),
        labels: Vec::new(alloc),
        pieces: Vec::new(alloc),
        start: None,
    };
    let mut read = Read {
        tokens: Vec::new(alloc),
        spans: Vec::new(alloc),
    };
    let mut section = Section::Text;
    let mut line = 1;
    let mut rest = text;
    'lines: loop {
        let (first, behind) = first_line(rest);
        section = add_line(alloc, &mut read, &mut map, line, section, first)?;
        match behind {
            Some(more) => {
                rest = more;
                line += 1;
            }
            None => return Ok(map),
        }
    }
}
