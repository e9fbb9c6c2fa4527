//! The items of a text: its labels and statements in order.

ghost use Rattle.std.specs.Prelude.{◌≡◌, ◌≤◌, ◌++◌, List, map, length, Ok, OnOk, IfOk, IfErr, ◌∷◌, []};
ghost use Rattle.program_tokens.specs.Lines.{lines};
ghost use Rattle.annotated_asm.specs.Steps.{Answers, FailsText};
ghost use Rattle.annotated_asm.specs.Alike.{AreAlike};
ghost use Rattle.annotated_asm.specs.Items.{blob, labels_of, after_labels, label_item, statement_items, line_items, items_from, with_items};

use crate::fault::AsmFault;
use crate::line::{section_after, statement_at, tokens_of};
use program_statements::statement::{Blob, Section, Statement};
use program_tokens::line::first_line;
use program_tokens::token::Token;
use std::alloc::{AllocError, Global};

/// A label or a statement, with its line and section.
#[derive(Debug, Drop)]
pub struct PlacedStatement {
    /// The line, counted from 1.
    pub line: u32,
    /// The section that its line adds to.
    pub section: Section,
    /// What the line says there.
    pub statement: Statement,
}

/// Adds the labels at the front of a line, and returns the tokens after them.
fn add_labels<'a>(
    items: &mut Vec<PlacedStatement>,
    line: u32,
    section: Section,
    tokens: &'a [Token],
) -> Result<&'a [Token], AllocError>
    ensures rest { IfOk result (λ rest. rest.now ≡ after_labels tokens.now) }
    ensures added { OnOk result (items.new.items ≡ items.old.items ++ map (label_item line section) (labels_of tokens.now)) }
{
    let mut rest = tokens;
    while let [Token::Name(name), Token::Colon, after @ ..] = rest {
        items.push(PlacedStatement {
            line,
            section,
            statement: Statement::Label(*name),
        })?;
        rest = after;
    }
    Ok(rest)
}

/// Adds a statement, unless it is empty.
fn add_statement(
    items: &mut Vec<PlacedStatement>,
    line: u32,
    section: Section,
    statement: Statement,
) -> Result<(), AllocError>
    ensures { OnOk result (items.new.items ≡ items.old.items ++ statement_items line section statement) }
{
    match statement {
        Statement::Empty => Ok(()),
        statement => {
            items.push(PlacedStatement {
                line,
                section,
                statement,
            })?;
            Ok(())
        }
    }
}

/// Adds the items of a line, and returns the section after it.
#[tactic(auto, unfolding(crate::specs::Items::line_items))]
fn add_line(
    alloc: Global,
    tokens: &mut Vec<Token>,
    items: &mut Vec<PlacedStatement>,
    line: u32,
    section: Section,
    text: &[u8],
) -> Result<Section, AsmFault>
    ensures { Answers (λ next. (items.new.items, next)) result (with_items items.old.items (line_items line section text.now)) }
{
    tokens_of(tokens, line, text)?;
    let rest = add_labels(items, line, section, tokens)?;
    let statement = statement_at(alloc, line, section, rest)?;
    let next = section_after(section, &statement);
    add_statement(items, line, section, statement)?;
    Ok(next)
}

/// Adds bytes after the other items: to the last one if that has bytes of the same section.
fn add_bytes(
    items: &mut Vec<PlacedStatement>,
    line: u32,
    section: Section,
    more: Blob,
) -> Result<(), AllocError>
    ensures { OnOk result (AreAlike items.new.items (items.old.items ++ blob line section more ∷ [])) }
{
    if let Some(last) = items.last_mut() {
        if let Statement::Bytes(front) = &mut last.statement {
            if last.section == section {
                front.append(more.as_slice())?;
                return Ok(());
            }
        }
    }
    items.push(bytes_item(line, section, more))?;
    Ok(())
}

/// The item of a line's bytes.
fn bytes_item(line: u32, section: Section, bytes: Blob) -> PlacedStatement
    ensures { result ≡ blob line section bytes }
{
    PlacedStatement {
        line,
        section,
        statement: Statement::Bytes(bytes),
    }
}

/// Whether the last item has bytes.
fn ends_in_bytes(items: &[PlacedStatement]) -> bool {
    match items.last() {
        Some(item) => matches!(item.statement, Statement::Bytes(_)),
        None => false,
    }
}

/// Moves the bytes of the last item into the one before it, if that has bytes of the same section, so
/// that a run of data takes one item rather than one per line.
fn join_last(items: &mut Vec<PlacedStatement>) -> Result<(), AllocError>
    ensures { OnOk result (AreAlike items.new.items items.old.items) }
{
    if !ends_in_bytes(items) {
        return Ok(());
    }
    let Some(last) = items.pop() else {
        return Ok(());
    };
    let PlacedStatement {
        line,
        section,
        statement,
    } = last;
    match statement {
        Statement::Bytes(more) => add_bytes(items, line, section, more),
        statement => {
            items.push(PlacedStatement {
                line,
                section,
                statement,
            })?;
            Ok(())
        }
    }
}

/// The labels and statements of a text in order, or others that mean the same program.
///
/// # Errors
///
/// The first fault of a line, with the line's number from 1: `NotAscii`, `Token`, `Mnemonic`, `Operand`,
/// `Number` or `Mark`. `OutOfMemory`, where memory was refused, may come in place of any of these.
#[tactic(auto, using(crate::proofs::ItemSteps::told_none, crate::proofs::ItemSteps::told_more))]
pub fn items_of(alloc: Global, text: &[u8]) -> Result<Vec<PlacedStatement>, AsmFault>
    requires { length text.now ≤ 4194304 }
    ensures ok { IfOk result (λ items. (all : List PlacedStatement) × (items_from 1 Section.Text (lines text.now) ≡ Ok all) × AreAlike items.items all) }
    ensures err { IfErr result (λ fault. FailsText fault (items_from 1 Section.Text (lines text.now))) }
{
    let mut items = Vec::new(alloc);
    let mut tokens = Vec::new(alloc);
    let mut section = Section::Text;
    let mut line = 1;
    let mut rest = text;
    'lines: loop {
        let (first, behind) = first_line(rest);
        section = add_line(alloc, &mut tokens, &mut items, line, section, first)?;
        join_last(&mut items)?;
        match behind {
            Some(more) => {
                rest = more;
                line += 1;
            }
            None => return Ok(items),
        }
    }
}
