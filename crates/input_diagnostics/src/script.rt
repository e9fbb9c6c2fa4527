//! Diagnostics for the text of an event script.

ghost use Rattle.std.specs.Prelude.{IfOk};
ghost use Rattle.diagnostics.specs.declared.diagnostic.Source.TheVariants.{Script};
ghost use Rattle.input_diagnostics.specs.Advice.{IsErrorIn};
ghost use Rattle.input_diagnostics.specs.ScriptErrors.{AreScriptErrors, BeginsWithFirst};

use crate::advice::{
    Group, MOST_SHOWN, Slip, advice, marked, mend, return_slip, separator, span, stray_space,
};
use crate::expectation::expectation_said;
use crate::lines::{decimal_in, lines_of, row_at};
use crate::meant::{meant, register_meant};
use crate::mistaken::VERBS;
use diagnostics::code::Code;
use diagnostics::diagnostic::{Diagnostic, Source};
use diagnostics::more::add_more;
use diagnostics::quotation::{as_shown, quoted};
use diagnostics::words;
use diagnostics::words::Words;
use event_script::bad_line::{BadLine, bad_lines, first_word};
use event_script::fault::EventFault;
use event_script::laws::refused_for_the_first;
use std::alloc::{AllocError, Global};
use task_descriptor::program::Program;

/// How each event is written, in the order of the words that they begin with.
const FORMS: [&str; 8] = [
    "write assign and the name of a task",
    "write exec and a position, as in exec 0",
    "write transfer, a position and a register, as in transfer 1 $8",
    "write drain, a position and a register, as in drain 0 $8",
    "write squash and a position, as in squash 1",
    "write retire alone",
    "write fault alone",
    "write drop and a position, as in drop 1",
];

/// What is said of a word that is wrong, and what to do.
fn word_advice(fault: EventFault, verb: &[u8]) -> (&'static str, &'static str) {
    let event = VERBS.iter().position(|other| verb == other.as_bytes());
    let form = FORMS.get(event.unwrap_or(FORMS.len())).copied().unwrap_or(
        "an event begins with assign, exec, transfer, drain, squash, retire, fault or drop",
    );
    let name = "write the name of a task of the program";
    match fault {
        EventFault::NoEvent => ("{word} is not an event", form),
        EventFault::TooFew => ("a word is missing here", form),
        EventFault::TooMany(_) => ("this is more than the event takes", form),
        EventFault::NoPosition => (
            "{word} is not a position",
            "write a number from 0 to 999 without leading zeros",
        ),
        EventFault::NoRegister => (
            "{word} is not a register",
            "write $ and the register's number, from $0 to $33, without leading zeros",
        ),
        EventFault::NoName => ("{word} cannot be the name of a task", name),
        EventFault::NoTask => ("the program has no task {word}", name),
    }
}

/// How many bytes stand in front of what only `replay --strict` reads: a step, or else spaces and the first `:` or `#`.
fn strict_part(line: &[u8]) -> Option<usize> {
    if first_word(line) == b"step".as_slice() {
        return Some(0);
    }
    let end = line.iter().position(|byte| *byte == b':' || *byte == b'#')?;
    let kept = line[..end].iter().rposition(|byte| *byte != b' ');
    Some(kept.map_or(0, |last| last.saturating_add(1)))
}

/// What is wrong with a line as a whole: the first that holds of a trace's line, CR, an empty line, a byte order mark,
/// what only `replay --strict` reads, a tab, a comma, and a space too many.
fn line_slip(number: usize, line: &[u8]) -> Option<Slip> {
    let strict = strict_part(line);
    if number == 1 && line.starts_with(b"1 ") && strict.is_some() {
        let row = advice(
            "this is a trace, not a script of events",
            "run --emit script writes one; add --with-values to judge it with replay --strict",
        );
        return Some(marked(0, line.len(), row).among(Group::Trace));
    }
    if let Some(slip) = return_slip(line) {
        return Some(slip);
    }
    if line.is_empty() {
        return Some(marked(0, 0, advice("the line is empty", "take the line out")));
    }
    if line.starts_with(b"\xef\xbb\xbf") {
        let row = mend("the line begins with a byte order mark", "remove it", "");
        return Some(marked(0, 3, row));
    }
    if let Some(before) = strict {
        let row = advice(
            "expectations, comments and steps are for replay --strict",
            "judge the script with replay --strict; to explain it, take them out of each line",
        );
        let width = line.len().saturating_sub(before);
        return Some(marked(before, width, row).among(Group::Strict));
    }
    if let Some(before) = line.iter().position(|byte| *byte == b'\t') {
        return Some(separator(line, before, "an event has no tab"));
    }
    if let Some(before) = line.iter().position(|byte| *byte == b',') {
        return Some(separator(line, before, "an event has no comma"));
    }
    let row = mend("one space too many", "remove this space", "");
    Some(marked(stray_space(line)?, 1, row))
}

/// The third word of a line.
fn third(line: &[u8]) -> &[u8] {
    EventFault::NoRegister.part_of(line).1
}

/// What is said of the word of a line that has this fault; `is_near`: it is nearly one that fits.
fn word_slip(
    alloc: Global,
    line: &[u8],
    fault: EventFault,
    is_near: bool,
) -> Result<Slip, AllocError> {
    let (before, word) = fault.part_of(line);
    let (says, help) = word_advice(fault, first_word(line));
    let width = word.len();
    if is_near {
        return Ok(marked(before, width, mend(says, "did you mean {fix}?", "{near}")));
    }
    let slip = marked(before, width, advice(says, help));
    let Some(register) = register_meant(alloc, word)? else {
        return Ok(slip);
    };
    let number = u32::from(register.get());
    match fault {
        EventFault::NoPosition if decimal_in(third(line), 3).is_some() => {
            let says = "the position comes before the register";
            let row = mend(says, "write {fix}", "{verb} {third} ${number}");
            Ok(marked(0, line.len(), row).meaning(number))
        }
        EventFault::NoRegister => {
            let says = "an event names a register by its number";
            let row = mend(says, "write {fix}", "${number}");
            Ok(marked(before, width, row).meaning(number))
        }
        _ => Ok(slip),
    }
}

/// A script for a program whose tasks have these names.
#[derive(Drop)]
struct ScriptText<'a> {
    alloc: Global,
    program: &'a Program,
    names: &'a [&'a str],
    rows: &'a [&'a [u8]],
}

impl<'a> ScriptText<'a> {
    /// The error for a line that spells no event, and with which others it is told.
    fn error(&self, bad: &BadLine) -> Result<(Diagnostic, Group), AllocError>
        ensures { IfOk result (λ said. IsErrorIn Script bad.now.line said.0) }
    {
        let alloc = self.alloc;
        let line = row_at(self.rows, bad.line);
        let (_, wrong) = bad.fault.part_of(line);
        let near = match bad.fault {
            EventFault::NoTask => meant(alloc, wrong, self.names)?,
            EventFault::NoEvent => meant(alloc, wrong, &VERBS)?,
            _ => Words::of(alloc, "")?,
        };
        let slip = match line_slip(bad.line, line) {
            None => word_slip(alloc, line, bad.fault, !near.as_str().is_empty())?,
            Some(slip) if slip.group == Group::Strict => {
                let said = expectation_said(alloc, self.program, line)?;
                said.unwrap_or(slip)
            }
            Some(slip) => slip,
        };
        let number = slip.number;
        let words = [
            ("word", quoted(alloc, slip.bytes(line))?),
            ("near", near),
            ("verb", as_shown(alloc, first_word(line))?),
            ("third", as_shown(alloc, third(line))?),
            ("number", words!(in alloc; "{number}")?),
            ("hex", words!(in alloc; "{number:08x}")?),
        ];
        let code = match bad.fault {
            EventFault::NoTask if slip.group != Group::Returns => Code::ScriptTaskName,
            _ => Code::ScriptLine,
        };
        let at = span(bad.line, slip.before, slip.width);
        let said = slip.row.at(alloc, Source::Script, code, at, &words)?;
        Ok((said, slip.group))
    }

    /// Adds the errors for further lines that spell no event, after one of this group: one for all lines of a group.
    fn add_others(
        &self,
        list: &mut Vec<Diagnostic>,
        bad: &[BadLine],
        group: Group,
    ) -> Result<(), AllocError> {
        let mut told = vec![in self.alloc; group]?;
        for bad in bad {
            let (said, group) = self.error(bad)?;
            if group == Group::Alone || !told.iter().any(|other| *other == group) {
                list.push(said)?;
                told.push(group)?;
            }
        }
        Ok(())
    }
}

/// The errors for the lines that spell no event, of which these are the first, and how many more there are of `count`.
fn errors_in(
    alloc: Global,
    program: &Program,
    text: &[u8],
    bad: &[BadLine],
    count: usize,
) -> Result<Vec<Diagnostic>, AllocError>
    ensures { IfOk result (λ list. BeginsWithFirst bad.now list.items) }
{
    let [first, others @ ..] = bad else {
        return Ok(Vec::new(alloc));
    };
    let rows = lines_of(alloc, text)?;
    let tasks = program.tasks().iter();
    let names: Vec<&str> = tasks.map(|task| task.name.as_str()).collect(alloc)?;
    let script = ScriptText {
        alloc,
        program,
        names: &names,
        rows: &rows,
    };
    let (said, group) = script.error(first)?;
    let mut list = vec![in alloc; said]?;
    let mut rest = Vec::new(alloc);
    if group != Group::Trace {
        script.add_others(&mut rest, others, group)?;
        let more = count.saturating_sub(MOST_SHOWN);
        let (one, many) = ("line that spells no event", "lines that spell no event");
        add_more(alloc, &mut rest, Source::Script, more, one, many)?;
    }
    list.append(&mut rest)?;
    Ok(list)
}

/// The errors in the text of an event script for a program: one for each line that spells no event, but only one for all
/// lines that end with CR, and one for all that have what only `replay --strict` reads. They are of the first 1,000 such
/// lines; a note has the number of the rest. For a trace there is one error, that it is a trace.
///
/// # Errors
///
/// `AllocError` where memory was refused.
pub fn script_errors(
    alloc: Global,
    text: &[u8],
    program: &Program,
) -> Result<Vec<Diagnostic>, AllocError>
    ensures { IfOk result (λ list. AreScriptErrors program.now text.now list.items) }
{
    refused_for_the_first();
    let (bad, count) = bad_lines(alloc, text, program, MOST_SHOWN)?;
    let list = errors_in(alloc, program, text, &bad, count)?;
    Ok(list)
}
