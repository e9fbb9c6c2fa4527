//! Diagnostics for a certificate that can be read, compared with the program's least one: it is of another text, or some
//! masks lack registers.

ghost use Rattle.std.specs.Prelude.{◌≡◌, ◌↔◌, [], IfOk};
ghost use Rattle.diagnostics.specs.declared.diagnostic.Source.TheVariants.{Certificate};
ghost use Rattle.input_diagnostics.specs.Advice.{IsErrorOf};
ghost use Rattle.input_diagnostics.specs.CertificateErrors.{own_findings};

use crate::advice::{ANEW, MOST_SHOWN, Row, advice, mend, span};
use crate::certificate::ProgramLines;
use crate::lines::{after, row_at};
use canonical_text::print::write_create;
use diagnostics::code::Code;
use diagnostics::diagnostic::{Diagnostic, Note, Source, Span};
use diagnostics::listed::Listed;
use diagnostics::more::add_more;
use diagnostics::quotation::quoted;
use diagnostics::words;
use diagnostics::words::Words;
use event_script::writing::task_name;
use mark_checker::check::verdict;
use mark_checker::finding::{Finding, Rule};
use mask_certificate::certificate::Cert;
use mips_instructions::number::RegSet;
use std::alloc::{AllocError, Global};
use task_descriptor::program::Program;

/// A certificate whose masks have this many digits, beside its program, the least certificate, and the lines of the
/// program's text.
#[derive(Drop)]
pub(crate) struct Compared<'a> {
    pub(crate) alloc: Global,
    pub(crate) program: &'a Program,
    pub(crate) cert: &'a Cert,
    pub(crate) least: &'a Cert,
    pub(crate) digits: usize,
    pub(crate) lines: ProgramLines<'a>,
}

/// The findings of the rules that judge the certificate alone.
pub(crate) fn own_findings(
    alloc: Global,
    program: &Program,
    cert: &Cert,
) -> Result<Vec<Finding>, AllocError>
    ensures { IfOk result (λ list. list.items ≡ own_findings program.now cert.now) }
{
    let found = verdict(alloc, program, cert)?;
    found
        .findings
        .as_slice()
        .iter()
        .copied()
        .filter(|finding| finding.rule.number() <= 4)
        .collect(alloc)
}

/// A note without a place.
fn note(alloc: Global, message: Words) -> Note {
    Note {
        span: None,
        message,
        path: Listed::new(Vec::new(alloc)),
    }
}

/// The mask that a certificate has at an index; where it has none, the one without a register.
fn mask_at(cert: &Cert, task: u32, index: u32) -> RegSet {
    match cert.mask(task, index) {
        Some(mask) => mask,
        None => RegSet::empty(),
    }
}

/// The registers of some findings.
fn registers_of(findings: &[Finding]) -> RegSet {
    let mut set = RegSet::empty();
    for finding in findings {
        if let Some(register) = finding.reg {
            set = set.insert(register);
        }
    }
    set
}

/// Whether two findings say what one mask lacks.
fn is_same_mask(finding: &Finding, other: &Finding) -> bool {
    let is_lacking = |rule: Rule| matches!(rule, Rule::LacksDestination | Rule::LacksNext);
    is_lacking(finding.rule)
        && is_lacking(other.rule)
        && finding.task == other.task
        && finding.index == other.index
}

/// The findings at the front that say what the mask of the first of them lacks.
fn group_of(findings: &[Finding]) -> &[Finding] {
    let [first, ..] = findings else {
        return findings;
    };
    let end = findings
        .iter()
        .position(|finding| !is_same_mask(first, finding));
    &findings[..end.unwrap_or(findings.len()).min(findings.len())]
}

/// The rule of a finding, and what is said of it; `is_idle`: another mask has its register for no reason; `has_fix`: the
/// mask to write is known.
fn row_of(rule: Rule, is_idle: bool, has_fix: bool) -> (Code, Row) {
    let (says, help) = if is_idle {
        (
            "the mask of task {name} at index {index} lacks ${register}: the mask at index {other} has it, though nothing writes it from there on",
            "write {fix} at index {other}",
        )
    } else {
        (
            "the mask of task {name} at index {index} lacks {lacking}",
            "write {fix}",
        )
    };
    let row = if has_fix {
        mend(says, help, "{mask}")
    } else {
        advice(says, ANEW)
    };
    match rule {
        Rule::EntryWithoutMask => {
            let says = "task {name} has no mask at its entry, index {index}";
            (Code::EntryWithoutMask, advice(says, ANEW))
        }
        Rule::NextWithoutMask => {
            let says = "task {name} continues from index {index} to an instruction without a mask";
            (Code::NextWithoutMask, advice(says, ANEW))
        }
        Rule::LacksDestination => (Code::LacksDestination, row),
        _ => (Code::LacksNext, row),
    }
}

impl<'a> Compared<'a> {
    /// The first index of a finding's task whose mask has its register, though no path from there writes it.
    pub(crate) fn idle_at(&self, finding: &Finding) -> Option<u32> {
        let task = finding.task;
        let register = finding.reg?;
        let least = self.least;
        least.mask(task, finding.index)?;
        let mut entries = self.cert.list(task).iter();
        let idle = entries.find(|entry| {
            let mask = least.mask(task, entry.0);
            entry.1.has(register) && mask.is_some_and(|mask| !mask.has(register))
        });
        idle.map(|entry| entry.0)
    }

    /// The line that begins a task.
    fn task_span(&self, task: u32) -> Span {
        let mut line: usize = 2;
        for before in 0..task {
            let count = self.cert.list(before).len();
            line = line.saturating_add(1).saturating_add(count);
        }
        let name = task_name(self.program, task);
        span(line, 0, name.len().saturating_add(5))
    }

    /// The index of an entry of a task as it stands in its line, and its mask.
    fn entry_spans(&self, task: u32, index: u32) -> (Span, Span) {
        let mut entries = self.cert.list(task).iter();
        let place = entries.position(|entry| entry.0 == index).unwrap_or(0);
        let begin = self.task_span(task).line as usize;
        let line = begin.saturating_add(1).saturating_add(place);
        let width = (index.checked_ilog10().unwrap_or(0) as usize).saturating_add(1);
        let mask = span(line, width.saturating_add(1), self.digits);
        (span(line, 0, width), mask)
    }

    /// The mask of an entry of a task.
    pub(crate) fn mask_span(&self, task: u32, index: u32) -> Span {
        self.entry_spans(task, index).1
    }

    /// What is marked for a finding.
    fn place_of(&self, finding: &Finding) -> Span {
        let (task, index) = (finding.task, finding.index);
        match finding.rule {
            Rule::EntryWithoutMask => self.task_span(task),
            Rule::NextWithoutMask => self.entry_spans(task, index).0,
            _ => self.mask_span(task, index),
        }
    }

    /// A mask in hexadecimal digits, 8 or 16; none where it cannot be written in 8.
    fn mask_text(&self, mask: RegSet) -> Result<Option<Words>, AllocError> {
        let mask = mask.bits();
        if self.digits == 16 {
            return Ok(Some(words!(in self.alloc; "{mask:016x}")?));
        }
        if mask < 1 << 32 {
            return Ok(Some(words!(in self.alloc; "{mask:08x}")?));
        }
        Ok(None)
    }

    /// The note on the mask at an index that has the register of a finding for no reason.
    pub(crate) fn larger_notes(
        &self,
        finding: &Finding,
        index: u32,
    ) -> Result<Vec<Note>, AllocError> {
        let alloc = self.alloc;
        let name = task_name(self.program, finding.task);
        let register = finding.reg.map_or(0, |register| register.get());
        let said = words!(
            in alloc;
            "the mask of task {name} at index {index} has ${register}, though nothing writes it from there on"
        )?;
        Ok(vec![in alloc; note(alloc, said)]?)
    }

    /// The note on the instruction at an index, which names its line, if that is known.
    fn notes_of(&self, index: u32) -> Result<Vec<Note>, AllocError> {
        let alloc = self.alloc;
        let Some(at) = self.lines.code.get(index as usize) else {
            return Ok(Vec::new(alloc));
        };
        let line = at.line;
        let row = row_at(self.lines.rows, line as usize);
        let rest = after(row, at.column.saturating_sub(1));
        let text = quoted(alloc, &rest[..at.width.min(rest.len())])?;
        let said = words!(in alloc; "index {index} is line {line} of the program: {text}")?;
        Ok(vec![in alloc; note(alloc, said)]?)
    }

    /// The error for a finding, and for those that say what the same mask lacks: with the least mask to write; or, where
    /// it lacks nothing of that, with the one to write where another mask has the register for no reason.
    fn error(&self, finding: &Finding, findings: &[Finding]) -> Result<Diagnostic, AllocError>
        ensures { IfOk result (IsErrorOf Certificate) }
    {
        let alloc = self.alloc;
        let (task, index) = (finding.task, finding.index);
        let mut lacking = mask_at(self.least, task, index).minus(mask_at(self.cert, task, index));
        let mut idle = None;
        let is_least = lacking.is_empty();
        if is_least {
            lacking = registers_of(findings);
            idle = self.idle_at(finding);
        }
        let other = idle.unwrap_or(index);
        let mask = self.mask_text(mask_at(self.least, task, other))?;
        let has_fix = mask.is_some() && (idle.is_some() || !is_least);
        let register = finding.reg.map_or(0, |register| register.get());
        let mut registers = String::new(alloc);
        write_create(&mut registers, lacking)?;
        let words = [
            ("name", Words::of(alloc, task_name(self.program, task))?),
            ("index", words!(in alloc; "{index}")?),
            ("lacking", Words::new(registers)),
            ("register", words!(in alloc; "{register}")?),
            ("other", words!(in alloc; "{other}")?),
            ("mask", mask.unwrap_or(Words::of(alloc, "")?)),
        ];
        let (code, row) = row_of(finding.rule, idle.is_some(), has_fix);
        let mended = Some(self.mask_span(task, other));
        let at = self.place_of(finding);
        let row = Row { mended, ..row };
        let mut said = row.at(alloc, Source::Certificate, code, at, &words)?;
        said.notes = Listed::new(self.notes_of(index)?);
        Ok(said)
    }

    /// The error for a certificate of another text, where this task has another number of instructions.
    fn stale_error(&self, task: u32) -> Result<Diagnostic, AllocError>
        ensures { IfOk result (IsErrorOf Certificate) }
    {
        let alloc = self.alloc;
        let here = self.least.list(task).len();
        let there = self.cert.list(task).len();
        let says =
            "this certificate is of another program: task {name} has {here} instruction{plural} here, {there} there";
        let plural = if here == 1 { "" } else { "s" };
        let words = [
            ("name", Words::of(alloc, task_name(self.program, task))?),
            ("here", words!(in alloc; "{here}")?),
            ("plural", Words::of(alloc, plural)?),
            ("there", words!(in alloc; "{there}")?),
        ];
        let at = self.task_span(task);
        let said = advice(says, ANEW).at(alloc, Source::Certificate, Code::Unfit, at, &words)?;
        Ok(said)
    }

    /// Adds the errors for further findings, and how many more there are: those that say what one mask lacks are told
    /// together, with the first of them.
    fn add_others(
        &self,
        list: &mut Vec<Diagnostic>,
        first: &Finding,
        findings: &[Finding],
    ) -> Result<(), AllocError> {
        let mut count = 1usize;
        let mut before = *first;
        for (place, finding) in findings.iter().enumerate() {
            if !is_same_mask(&before, finding) {
                if count < MOST_SHOWN {
                    list.push(self.error(finding, group_of(&findings[place..]))?)?;
                }
                count = count.saturating_add(1);
            }
            before = *finding;
        }
        let more = count.saturating_sub(MOST_SHOWN);
        let (one, many) = ("error", "errors");
        add_more(self.alloc, list, Source::Certificate, more, one, many)
    }

    /// The errors for a certificate with these findings: that it is of another text, or else one for each mask that is
    /// missing or lacks registers.
    pub(crate) fn errors(&self, findings: &[Finding]) -> Result<Vec<Diagnostic>, AllocError>
        ensures { IfOk result (λ list. (list.items ≡ []) ↔ (findings.now ≡ [])) }
    {
        let [first, others @ ..] = findings else {
            return Ok(Vec::new(self.alloc));
        };
        let mut rest = Vec::new(self.alloc);
        let mut tasks = 0..self.program.tasks().len() as u32;
        let stale = tasks.find(|task| self.cert.list(*task).len() != self.least.list(*task).len());
        let said = match stale {
            Some(task) => self.stale_error(task)?,
            None => {
                self.add_others(&mut rest, first, others)?;
                self.error(first, group_of(findings))?
            }
        };
        let mut list = vec![in self.alloc; said]?;
        list.append(&mut rest)?;
        Ok(list)
    }
}
