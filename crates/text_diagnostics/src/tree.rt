//! The items of a text, read line by line by the assembler's functions of a line: reading does not stop at a fault, and
//! a line with a fault leaves the section as it was.

use crate::advice::Made;
use crate::given::{Amounts, First, Firsts, Item, Known, MOST_SEEN, MOST_TASKS, Said, TaskEntry};
use crate::mistakes::MOST_SHOWN;
use crate::place::{span_in, up_to_end};
use crate::section::{is_statement, section_in, statement_fault};
use annotated_asm::line::section_after;
use operand_forms::bytes::LINE_START;
use operand_forms::line_fault::{LineFaultKind, kind_of_fault};
use operand_forms::meant::{label_tokens, span_at};
use operand_forms::rows::places_of;
use operand_forms::slices::{after, first};
use program_statements::fault::StatementError;
use program_statements::line::statement_of;
use program_statements::statement::{Section, Statement};
use program_tokens::line::read_tokens;
use program_tokens::span::TokenSpan as Place;
use program_tokens::token::{Token, TokenFault};
use std::alloc::{AllocError, Global};
use std::collections::BTreeMap;
use task_descriptor::name::Name;

/// What is read of a text so far.
#[derive(Drop)]
struct Tree {
    alloc: Global,
    known: Known,
    /// How many of the items are certain to have a mistake.
    wrong: usize,
    /// The number of the line, counted from 1.
    line: u32,
    section: Section,
    /// The section that is meant, where it may be another one.
    meant: Option<Section>,
}

/// Adds a name that an item defines, unless one before it does; returns whether one does.
fn add_name(alloc: Global, names: &mut Firsts, name: &Name, item: First) -> Made<bool> {
    let is_again = names.contains_key(name.as_str());
    if !is_again {
        let key = String::from_str(alloc, name.as_str())?;
        names.insert(key, item)?;
    }
    Ok(is_again)
}

impl Tree {
    /// Adds an item of the line, whose first token has this number.
    fn add(&mut self, token: usize, place: Place, said: Said) -> Made<()> {
        self.known.items.push(Item {
            span: span_in(self.line, place),
            token,
            section: self.section,
            said,
        })?;
        Ok(())
    }

    /// Adds an item that is of use only where it is among the first, or its mistake is; of others the mistakes are counted.
    fn add_if_used(&mut self, token: usize, place: Place, said: Said, is_wrong: bool) -> Made<()> {
        let is_shown = is_wrong && self.wrong < MOST_SHOWN;
        let mistakes = usize::from(is_wrong);
        if is_shown || self.known.items.len() < MOST_SEEN {
            self.wrong = self.wrong.saturating_add(mistakes);
            return self.add(token, place, said);
        }
        self.known.left_out = self.known.left_out.saturating_add(mistakes);
        Ok(())
    }

    /// An item that is added next.
    fn next(&self) -> First {
        First {
            number: self.known.items.len(),
            code: self.known.all.code,
        }
    }

    /// Adds the label of a token.
    fn add_label(&mut self, token: usize, place: Place, name: &Name) -> Made<()> {
        let next = self.next();
        let is_again = add_name(self.alloc, &mut self.known.labels, name, next)?;
        let said = Said::Label(is_again);
        if self.known.code.is_none() && matches!(self.section, Section::Text) {
            self.known.code = Some(next.number);
        } else if is_again {
            return self.add_if_used(token, place, said, true);
        }
        self.add(token, place, said)
    }

    /// Adds a statement whose first token has this number, and takes in what it defines.
    fn add_statement(&mut self, token: usize, places: &[Place], statement: Statement) -> Made<()> {
        let next = self.next();
        let number = Some(next.number);
        match &statement {
            Statement::Empty => return Ok(()),
            Statement::Task(task) => {
                add_name(self.alloc, &mut self.known.tasks, &task.name, next)?;
            }
            Statement::Start(_) => self.known.start = self.known.start.or(number),
            Statement::Code(_, _) => self.known.code = self.known.code.or(number),
            _ => {}
        }
        if !matches!(&statement, Statement::Start(_) | Statement::Task(_)) {
            self.meant = None;
        }
        self.known.all.add(self.section, &statement);
        let section = section_after(self.section, &statement);
        let said = Said::Statement(self.known.statements.len());
        self.known.statements.push(statement)?;
        let last = span_at(places, places.len().saturating_sub(1));
        let place = up_to_end(span_at(places, token).column, last);
        self.add(token, place, said)?;
        self.section = section;
        Ok(())
    }

    /// Adds that a line cannot be read, and why; the tokens are those of its statement, if it has tokens. A word that cannot
    /// stand where it does is judged where it is meant to stand. After the line the section is meant that it names first, or
    /// another one where its word cannot stand in this one.
    fn add_fault(&mut self, row: &[u8], kind: LineFaultKind, tokens: &[Token]) -> Made<()> {
        self.known.is_read = false;
        let section = self.meant.unwrap_or(self.section);
        let wrong = match (self.meant, kind) {
            (Some(meant), LineFaultKind::Mnemonic) => statement_fault(self.alloc, meant, tokens)?,
            _ => Some(kind),
        };
        let is_elsewhere = matches!(wrong, Some(LineFaultKind::Mnemonic)) && is_statement(tokens);
        let named = section_in(self.alloc, row)?;
        if named.is_some() {
            self.meant = named;
        } else if is_elsewhere {
            self.meant = Some(match section {
                Section::Text => Section::Data,
                Section::Data | Section::Rodata => Section::Text,
            });
        }
        self.add_if_used(0, LINE_START, Said::Fault(wrong, section), wrong.is_some())
    }

    /// Adds the labels of a line, and its statement.
    fn add_tokens(&mut self, row: &[u8], tokens: &[Token]) -> Made<()> {
        let places = places_of(self.alloc, row)?;
        let labels = label_tokens(tokens);
        for (number, token) in first(tokens, labels).iter().enumerate() {
            if let Token::Name(name) = token {
                self.add_label(number, span_at(&places, number), name)?;
            }
        }
        let others = after(tokens, labels);
        match statement_of(self.alloc, self.section, others) {
            Ok(statement) => self.add_statement(labels, &places, statement),
            Err(StatementError::Fault(fault)) => self.add_fault(row, kind_of_fault(fault), others),
            Err(StatementError::OutOfMemory) => Err(AllocError),
        }
    }

    /// Adds the items of a line. The tokens are replaced by its own.
    fn add_line(&mut self, row: &[u8], tokens: &mut Vec<Token>) -> Made<()> {
        match read_tokens(tokens, row) {
            Ok(()) => self.add_tokens(row, tokens),
            Err(TokenFault::NotAscii) => self.add_fault(row, LineFaultKind::NotAscii, &[]),
            Err(TokenFault::Token) => self.add_fault(row, LineFaultKind::Token, &[]),
            Err(TokenFault::OutOfMemory) => Err(AllocError),
        }
    }
}

/// Where the tasks of a text begin, and whether all of them do at a label of code.
fn entries_of(alloc: Global, known: &Known) -> Made<(Vec<TaskEntry>, bool)> {
    let mut entries = Vec::new(alloc);
    let mut is_placed = true;
    for (task, item) in known.items.iter().enumerate() {
        if let Some(Statement::Task(said)) = known.statement(item) {
            match known.code_label(said.name.as_str()) {
                Some(label) if entries.len() < MOST_TASKS => {
                    entries.push(TaskEntry { task, label })?;
                }
                Some(_) => {}
                None => is_placed = false,
            }
        }
    }
    Ok((entries, is_placed))
}

/// What is known of a text that has these lines.
pub(crate) fn known_of(alloc: Global, rows: &[&[u8]]) -> Made<Known> {
    let known = Known {
        items: Vec::new(alloc),
        statements: Vec::new(alloc),
        left_out: 0,
        labels: BTreeMap::new(alloc),
        tasks: BTreeMap::new(alloc),
        start: None,
        code: None,
        all: Amounts::default(),
        entries: Vec::new(alloc),
        is_placed: true,
        is_read: true,
    };
    let mut tree = Tree {
        alloc,
        known,
        wrong: 0,
        line: 0,
        section: Section::Text,
        meant: None,
    };
    let mut tokens = Vec::new(alloc);
    for row in rows {
        tree.line = tree.line.saturating_add(1);
        tree.add_line(row, &mut tokens)?;
    }
    let Tree { mut known, .. } = tree;
    (known.entries, known.is_placed) = entries_of(alloc, &known)?;
    Ok(known)
}
