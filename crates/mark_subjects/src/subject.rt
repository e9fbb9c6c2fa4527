//! The subject of diagnostics about marks: a program with its text.

use crate::spelling::{labels_of, names_in};
use annotated_asm::fault::AsmFault;
use annotated_asm::laws::map_fits;
use annotated_asm::position::{SourceMap, Stretch};
use annotated_asm::reading::source_map;
use call_returns::returns::{Returns, returns_of};
use diagnostics::diagnostic::Span;
use diagnostics::words::Words;
use mask_certificate::certificate::Cert;
use mips_instructions::instruction::Op;
use mips_instructions::number::{Place, Reg, RegSet};
use program_tokens::line::first_line;
use std::alloc::{AllocError, Global};
use std::marker::Model;
use task_descriptor::descriptor::{Descriptor, Marked, Stop};
use task_descriptor::name::Name;
use task_descriptor::program::Program;
use task_graph::edges::{ends_task, leads_to};

/// The result of an operation that fails only where memory was refused.
pub type Made<T> = Result<T, AllocError>;

/// A program whose marks are judged, with its text, its least certificate, and what a walk over its calls sees.
#[derive(Drop)]
pub struct Subject<'a> {
    alloc: Global,
    program: &'a Program,
    rows: Vec<&'a [u8]>,
    places: SourceMap,
    labels: Vec<Option<Name>>,
    names: Vec<Words>,
    no_index: bool,
    least: &'a Cert,
    returns: Returns,
}

impl<'a> Model for Subject<'a> {
    ghost use Rattle.annotated_asm.specs.Sources.{sources_in};
    ghost use Rattle.mark_subjects.specs.Subjects.{Judged};

    ghost Value = { Judged };

    ghost view = { λ s. record {
      program = s.program.now;
      sources = sources_in s.places;
      least = s.least.now;
    } };
}

ghost use Rattle.std.specs.Prelude.{◌≡◌, ◌<◌, map as each, length, Ok, IfOk};
ghost use Rattle.std.specs.Option.{option_copied};
ghost use Rattle.annotated_asm.specs.ProgramText.{parse};
ghost use Rattle.mask_certificate.specs.Lists.{mask_at};
ghost use Rattle.task_graph.specs.Edges.{end_of};
ghost use Rattle.mips_instructions.specs.Words.{has};
ghost use Rattle.mark_subjects.specs.Subjects.{IsJudged, targets_of, entries_of, task_at, is_entry, releases, is_branch, stop_of, is_end, exit_end, inner_end, first_byte, span_of, instruction_span, task_span, create_span, targets_span, target_span};
ghost use Rattle.program_tokens.specs.Lines.{lines};
ghost use Rattle.annotated_asm.specs.Sources.{sources_in, sources_of};

impl<'a> Subject<'a> {
    /// The subject of a program with the text that spells it and its least certificate.
    ///
    /// # Errors
    ///
    /// `AllocError` where memory was refused.
    pub fn read(
        alloc: Global,
        text: &'a [u8],
        program: &'a Program,
        least: &'a Cert,
    ) -> Made<Subject<'a>>
        requires { parse text.now ≡ Ok program.now }
        ensures judged { IfOk result (λ subject. IsJudged text.now subject) }
        ensures program { IfOk result (λ subject. subject.program ≡ program.now) }
        ensures least { IfOk result (λ subject. subject.least ≡ least.now) }
    {
        let rows = lines_of(alloc, text)?;
        let places = places_of(alloc, text, program)?;
        let labels = labels_of(alloc, &rows, &places.code)?;
        let names = names_in(alloc, &rows)?;
        let no_index = !rows.iter().any(|row| row.contains(&b'@'));
        let returns = returns_of(alloc, program, least)?;
        Ok(Subject {
            alloc,
            program,
            rows,
            places,
            labels,
            names,
            no_index,
            least,
            returns,
        })
    }

    /// The subject of a program with its least certificate alone: no place in a text is known, and nothing is seen of its
    /// calls.
    pub fn without_text(alloc: Global, program: &'a Program, least: &'a Cert) -> Subject<'a>
        ensures program { result.program ≡ program.now }
        ensures least { result.least ≡ least.now }
    {
        Subject {
            alloc,
            program,
            rows: Vec::new(alloc),
            places: no_places(alloc),
            labels: Vec::new(alloc),
            names: Vec::new(alloc),
            no_index: true,
            least,
            returns: Returns::none(alloc),
        }
    }

    /// The allocator that diagnostics about the subject use.
    pub fn alloc(&self) -> Global {
        self.alloc
    }

    /// The program.
    pub fn program(&self) -> &Program
        ensures { result.now ≡ self.now.program }
    {
        self.program
    }

    /// The instructions, by code index, with their marks.
    pub fn code(&self) -> &[Marked]
        ensures { result.now ≡ self.now.program.code }
    {
        self.program.code()
    }

    /// The task descriptors, by task number.
    pub fn tasks(&self) -> &[Descriptor]
        ensures { result.now ≡ self.now.program.tasks }
    {
        self.program.tasks()
    }

    /// How many instructions there are.
    pub fn code_count(&self) -> u32
        ensures { result ≡ length self.now.program.code }
    {
        self.program.code().len() as u32
    }

    /// How many tasks there are.
    pub fn task_count(&self) -> u32
        ensures { result ≡ length self.now.program.tasks }
    {
        self.program.tasks().len() as u32
    }

    /// The instruction at a code index, without its marks.
    pub fn op(&self, index: u32) -> Option<Op> {
        Some(self.code().get(index as usize)?.op)
    }

    /// The least certificate of the program.
    pub fn least(&self) -> &Cert
        ensures { result.now ≡ self.now.least }
    {
        self.least
    }

    /// The lines of the text, line 1 first, each without its LF.
    pub fn rows(&self) -> &[&'a [u8]] {
        &self.rows
    }

    /// What is seen of the program's calls, and of where its jumps to addresses in registers lead.
    pub fn returns(&self) -> &Returns {
        &self.returns
    }

    /// Whether the text gives no place as `@` and an index, so that an instruction less moves no place.
    pub fn names_no_index(&self) -> bool {
        self.no_index
    }

    /// The code indexes of the instructions that a task reaches, rising, each with its mask: the registers that the task
    /// may still write from there on.
    pub fn entries(&self, task: u32) -> &[(u32, RegSet)]
        ensures { result.now ≡ entries_of self.now task }
    {
        self.least.list(task)
    }

    /// The mask of an instruction in a task: the registers that the task may still write from there on; `None` where the
    /// task does not reach the instruction.
    pub fn mask(&self, task: u32, index: u32) -> Option<RegSet>
        ensures { result ≡ mask_at (entries_of self.now task) index }
    {
        self.least.mask(task, index)
    }

    /// A register as the text writes it; empty where no register has this number.
    pub fn register(&self, number: u8) -> &str {
        let name = self.names.get(usize::from(number));
        name.map_or("", |name| name.as_str())
    }

    /// The name of a task; empty where no task has this number.
    pub fn task(&self, task: u32) -> &str {
        let descriptor = self.tasks().get(task as usize);
        descriptor.map_or("", |descriptor| descriptor.name.as_str())
    }

    /// The targets of a task, in the order in which it lists them; none where no task has this number.
    pub fn targets(&self, task: u32) -> &[Place]
        ensures { result.now ≡ targets_of self.now task }
    {
        match self.program.tasks().get(task as usize) {
            Some(descriptor) => descriptor.targets.as_slice(),
            None => &[],
        }
    }

    /// The number of the task whose entry is at a code index.
    pub fn task_at(&self, index: u32) -> Option<u32>
        ensures { result ≡ task_at self.now index }
    {
        self.program.task_at(index)
    }

    /// Whether a task's entry is at a code index.
    pub fn is_entry(&self, index: u32) -> bool
        ensures { result ≡ is_entry self.now index }
    {
        self.task_at(index).is_some()
    }

    /// The label of an instruction, if the text gives it one.
    pub fn label(&self, index: u32) -> Option<&str> {
        let label = self.labels.get(index as usize)?;
        label.as_ref().map(|name| name.as_str())
    }

    /// The name of the task that begins at an instruction, or else its label, if the text gives it one.
    pub fn name(&self, index: u32) -> Option<&str> {
        match self.task_at(index) {
            Some(task) => Some(self.task(task)),
            None => self.label(index),
        }
    }

    /// Whether an instruction has the forward bit (`!f`).
    pub fn forwards(&self, index: u32) -> bool {
        let marked = self.code().get(index as usize);
        marked.is_some_and(|marked| marked.forward)
    }

    /// Whether an instruction is a release of this register.
    pub fn releases(&self, index: u32, register: u8) -> bool
        requires { register < 34 }
        ensures { result ≡ releases self.now index register }
    {
        match self.program.code().get(index as usize) {
            Some(
                Marked {
                    op: Op::Release(set),
                    ..
                },
            ) => has_number(*set, register),
            _ => false,
        }
    }

    /// Whether an instruction is a conditional branch.
    pub fn is_branch(&self, index: u32) -> bool
        ensures { result ≡ is_branch self.now index }
    {
        match self.program.code().get(index as usize) {
            Some(marked) => matches!(marked.op, Op::BranchTwo(..) | Op::BranchOne(..)),
            None => false,
        }
    }

    /// The stop bits of an instruction; `Stop::None` where there is no instruction.
    pub fn stop(&self, index: u32) -> Stop
        ensures { result ≡ stop_of self.now index }
    {
        match self.program.code().get(index as usize) {
            Some(marked) => marked.stop,
            None => Stop::None,
        }
    }

    /// The code index to which an exit of an instruction leads: the task ends there, on the edge of a branch that is taken
    /// or on the other one.
    pub fn exit(&self, index: u32, taken: bool) -> Option<u32>
        ensures { result ≡ exit_end self.now index taken }
    {
        match self.program.code().get(index as usize) {
            Some(marked) => end_of(marked, index, taken, true),
            None => None,
        }
    }

    /// The code index to which an instruction leads inside the task, on the edge of a branch that is taken or on the other
    /// one.
    pub fn inner(&self, index: u32, taken: bool) -> Option<u32>
        ensures { result ≡ inner_end self.now index taken }
    {
        match self.program.code().get(index as usize) {
            Some(marked) => end_of(marked, index, taken, false),
            None => None,
        }
    }

    /// The place of a whole instruction in the text; the text's first byte where the text or the instruction is missing.
    pub fn span(&self, index: u32) -> Span
        ensures { result ≡ instruction_span self.now index }
    {
        match (
            self.places.code.get(index as usize),
            self.places.widths.get(index as usize),
        ) {
            (Some(at), Some(width)) => Span {
                line: at.line,
                column: at.column,
                width: *width,
            },
            _ => first_byte(),
        }
    }

    /// The place of the word `.task` that declares a task; the text's first byte where there is none.
    pub fn task_span(&self, task: u32) -> Span
        ensures { result ≡ task_span self.now task }
    {
        match self.places.tasks.get(task as usize) {
            Some(at) => Span {
                line: at.line,
                column: at.column,
                width: 5,
            },
            None => first_byte(),
        }
    }

    /// The place of a task's `create=` with its registers; the text's first byte where there is none.
    pub fn create_span(&self, task: u32) -> Span
        ensures { result ≡ create_span self.now task }
    {
        match self.places.lists.get(task as usize) {
            Some(lists) => span_of(Some(&lists.create)),
            None => first_byte(),
        }
    }

    /// The place of a task's `targets=` with its targets; the text's first byte where there is none.
    pub fn targets_span(&self, task: u32) -> Span
        ensures { result ≡ targets_span self.now task }
    {
        match self.places.lists.get(task as usize) {
            Some(lists) => span_of(Some(&lists.targets)),
            None => first_byte(),
        }
    }

    /// The place of one target in a task's list, its number from 0; the text's first byte where there is none.
    pub fn target_span(&self, task: u32, number: usize) -> Span
        ensures { result ≡ target_span self.now task number }
    {
        match self.places.targets.get(task as usize) {
            Some(stretches) => span_of(stretches.get(number)),
            None => first_byte(),
        }
    }
}

/// The text's first byte, in place of what the map does not have.
fn first_byte() -> Span
    ensures { result ≡ first_byte }
{
    Span {
        line: 1,
        column: 1,
        width: 1,
    }
}

/// A stretch of the map, if it is there.
fn span_of(stretch: Option<&Stretch>) -> Span
    ensures { result ≡ span_of (option_copied stretch.entry) }
{
    match stretch {
        Some(stretch) => Span {
            line: stretch.position.line,
            column: stretch.position.column,
            width: stretch.width,
        },
        None => first_byte(),
    }
}

/// The code index to which an edge of an instruction leads, if it is an exit and `leaving`, or is inside the task and not
/// `leaving`; else `None`. `taken` selects the edge of a branch that is taken.
pub fn end_of(marked: &Marked, index: u32, taken: bool, leaving: bool) -> Option<u32>
    requires { index < 4096 }
    ensures { result ≡ end_of leaving marked.now index taken }
{
    if ends_task(marked.stop, taken) == leaving {
        leads_to(&marked.op, index, taken)
    } else {
        None
    }
}

/// Whether an edge ends at this code index.
pub fn is_end(end: Option<u32>, to: u32) -> bool
    ensures { result ≡ is_end end to }
{
    match end {
        Some(index) => index == to,
        None => false,
    }
}

/// Whether a set has the register of this number.
pub fn has_number(set: RegSet, number: u8) -> bool
    requires { number < 34 }
    ensures { result ≡ has set number }
{
    Reg::new(number).is_some_and(|register| set.has(register))
}

/// The lines of a text.
fn lines_of(alloc: Global, text: &[u8]) -> Made<Vec<&[u8]>>
    ensures { IfOk result (λ list. each (λ line. line.now) list.items ≡ lines text.now) }
{
    let mut list = Vec::new(alloc);
    let mut rest = text;
    'lines: loop {
        let (line, behind) = first_line(rest);
        list.push(line)?;
        match behind {
            Some(more) => rest = more,
            None => return Ok(list),
        }
    }
}

/// No places yet.
fn no_places(alloc: Global) -> SourceMap {
    SourceMap {
        code: Vec::new(alloc),
        widths: Vec::new(alloc),
        tasks: Vec::new(alloc),
        lists: Vec::new(alloc),
        targets: Vec::new(alloc),
        labels: Vec::new(alloc),
        pieces: Vec::new(alloc),
        start: None,
    }
}

/// The places of a text that spells a program.
fn places_of(alloc: Global, text: &[u8], program: &Program) -> Made<SourceMap>
    requires { parse text.now ≡ Ok program.now }
    ensures { IfOk result (λ places. sources_of text.now ≡ Ok (sources_in places)) }
{
    map_fits();
    match source_map(alloc, text) {
        Ok(places) => Ok(places),
        Err(AsmFault::OutOfMemory) => Err(AllocError),
        Err(_) => unreachable!(),
    }
}
