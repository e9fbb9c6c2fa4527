//! A text whose lines were read, with what has to be known of it as a whole to judge one of its items.

use crate::mistakes::UsedAs;
use annotated_asm::line::instruction_count;
use diagnostics::diagnostic::Span;
use diagnostics::near::is_near;
use operand_forms::bytes::bytes_at;
use operand_forms::line_fault::LineFaultKind;
use operand_forms::rows::line_at;
use operand_forms::slices::first;
use program_statements::statement::{Section, Statement};
use program_tokens::span::TokenSpan as Place;
use std::alloc::Global;
use std::collections::BTreeMap;

/// How many tasks a program has at most; where further tasks begin is not judged.
pub(crate) const MOST_TASKS: usize = 1_024;

/// How many items are looked through for a label that is near.
pub(crate) const MOST_SEEN: usize = 4_096;

/// What stands at a place of a text.
#[derive(Clone, Copy)]
pub(crate) enum Said {
    /// A label, and whether one before it has its name.
    Label(bool),
    /// The statement of a line, by its number among those of the text, from 0 on.
    Statement(usize),
    /// What cannot be read, and why, unless it can be read in this section, which is the one that is meant.
    Fault(Option<LineFaultKind>, Section),
}

/// A label, the statement of a line or its fault, with where it stands.
#[derive(Clone, Copy)]
pub(crate) struct Item {
    /// Where it stands: a label without its colon; a statement from its first token to its last, which may be a mark.
    pub(crate) span: Span,
    /// The number of its first token in the line, counted from 0; of what cannot be read 0.
    pub(crate) token: usize,
    /// The section of the line.
    pub(crate) section: Section,
    /// Its label, statement or fault.
    pub(crate) said: Said,
}

/// The item that defines a name first.
#[derive(Clone, Copy)]
pub(crate) struct First {
    /// Its number, from 0 on.
    pub(crate) number: usize,
    /// How many instructions of the machine stand before it.
    pub(crate) code: u64,
}

/// Names, each with the item that defines it first. No choice of names makes a look-up in this map slow.
pub(crate) type Firsts = BTreeMap<String, First>;

/// How much of a program there is.
#[derive(Clone, Copy, Default)]
pub(crate) struct Amounts {
    /// Instructions of the machine.
    pub(crate) code: u64,
    /// Bytes of data.
    pub(crate) bytes: u64,
    /// Bytes of read-only data.
    pub(crate) fixed: u64,
    /// Tasks.
    pub(crate) tasks: u64,
}

impl Amounts {
    /// Adds what a statement of a section adds.
    pub(crate) fn add(&mut self, section: Section, statement: &Statement) {
        let more = match statement {
            Statement::Code(instruction, _) => instruction_count(instruction),
            Statement::Bytes(bytes) => bytes.as_slice().len() as u64,
            Statement::Space(size) => u64::from(*size),
            Statement::Task(_) => 1,
            _ => 0,
        };
        let amount = match section {
            _ if matches!(statement, Statement::Task(_)) => &mut self.tasks,
            Section::Text => &mut self.code,
            Section::Data => &mut self.bytes,
            Section::Rodata => &mut self.fixed,
        };
        *amount = amount.saturating_add(more);
    }
}

/// Where a task begins.
#[derive(Clone, Copy)]
pub(crate) struct TaskEntry {
    /// The number of its `.task` among the items, from 0 on.
    pub(crate) task: usize,
    /// The first label of its name.
    pub(crate) label: First,
}

/// What was read of a text, and what has to be known of all of it to judge one of its items.
#[derive(Drop)]
pub(crate) struct Known {
    /// Its labels, statements and faults, but for those of which nothing is said.
    pub(crate) items: Vec<Item>,
    /// Its statements.
    pub(crate) statements: Vec<Statement>,
    /// How many mistakes the items have that are left out.
    pub(crate) left_out: usize,
    /// Its labels.
    pub(crate) labels: Firsts,
    /// Its tasks, by their names.
    pub(crate) tasks: Firsts,
    /// The first item that says where the program starts.
    pub(crate) start: Option<usize>,
    /// The first item that is a label of code or an instruction.
    pub(crate) code: Option<usize>,
    /// How much there is.
    pub(crate) all: Amounts,
    /// Where its first tasks begin.
    pub(crate) entries: Vec<TaskEntry>,
    /// Whether the name of each task is a label of code.
    pub(crate) is_placed: bool,
    /// Whether each line can be read, so that no label and no instruction is missing.
    pub(crate) is_read: bool,
}

impl Known {
    /// The first label of this name, if it stands in code.
    pub(crate) fn code_label(&self, name: &str) -> Option<First> {
        let first = self.labels.get(name)?;
        match self.items.get(first.number)?.section {
            Section::Text => Some(*first),
            Section::Data | Section::Rodata => None,
        }
    }

    /// The statement of an item, if it is one.
    pub(crate) fn statement(&self, item: &Item) -> Option<&Statement> {
        match item.said {
            Said::Statement(number) => self.statements.get(number),
            _ => None,
        }
    }

    /// The first task that begins at an instruction.
    pub(crate) fn task_at(&self, index: u64) -> Option<&TaskEntry> {
        self.entries.iter().find(|entry| entry.label.code == index)
    }
}

/// A text whose lines were read.
#[derive(Clone, Copy)]
pub(crate) struct Given<'a> {
    pub(crate) alloc: Global,
    /// Its lines.
    pub(crate) rows: &'a [&'a [u8]],
    /// What was read.
    pub(crate) known: &'a Known,
}

impl<'a> Given<'a> {
    /// The item of this number, from 0 on.
    pub(crate) fn item(&self, number: usize) -> Option<&'a Item> {
        self.known.items.get(number)
    }

    /// What stands at a place.
    pub(crate) fn text_at(&self, span: Span) -> &'a str {
        let column = span.column;
        let len = span.width;
        let bytes = bytes_at(line_at(self.rows, span.line), Place { column, len });
        str::from_utf8(bytes).unwrap_or("")
    }

    /// The first label near to a name, or the same but for capitals: of code, or after `la` any.
    pub(crate) fn near_label(&self, name: &str, used_as: UsedAs) -> Option<&'a str> {
        if name.len() < 2 {
            return None;
        }
        let name = name.as_bytes();
        let is_any = matches!(used_as, UsedAs::Address);
        let labels = first(&self.known.items, MOST_SEEN)
            .iter()
            .filter(|item| matches!(item.said, Said::Label(_)))
            .filter(|item| is_any || matches!(item.section, Section::Text));
        labels.map(|item| self.text_at(item.span)).find(|label| {
            is_near(name, label.as_bytes()) || name.eq_ignore_ascii_case(label.as_bytes())
        })
    }

    /// The name of a label, or the one after `.start`.
    fn name_of(&self, item: &Item) -> Option<&'a str> {
        match item.said {
            Said::Label(_) => Some(self.text_at(item.span)),
            _ => match self.known.statement(item)? {
                Statement::Start(name) => Some(name.as_str()),
                _ => None,
            },
        }
    }

    /// The name after a `.start`, or else the label before the first instruction, if one stands there.
    pub(crate) fn start_name(&self, start: Option<&Item>) -> Option<&'a str> {
        let first = self.known.code.and_then(|number| self.item(number));
        let named = start.and_then(|item| self.name_of(item));
        named.or(first.and_then(|item| self.name_of(item)))
    }
}
