//! Diagnostics for the text of a certificate that is refused.

ghost use Rattle.std.specs.Prelude.{IfOk, IsSomeAnd, slice_get};
ghost use Rattle.diagnostics.specs.declared.diagnostic.Source.TheVariants.{Certificate};
ghost use Rattle.input_diagnostics.specs.Advice.{IsErrorIn, IsErrorOf};
ghost use Rattle.input_diagnostics.specs.CertificateErrors.{IsAt};

use crate::advice::{
    ANEW, Group, MOST_SHOWN, Row, Slip, advice, marked, mend, return_slip, separator, span,
    stray_space,
};
use crate::lines::{after, decimal_in, lines_of, number_in, row_at};
use diagnostics::code::Code;
use diagnostics::diagnostic::{Diagnostic, Source};
use diagnostics::more::add_more;
use diagnostics::quotation::{as_shown, quoted};
use diagnostics::words;
use diagnostics::words::Words;
use event_script::bad_line::first_word;
use mask_certificate::fault::CertFault;
use std::alloc::{AllocError, Global};
use task_descriptor::program::Program;

/// By how many lines, the first, a certificate is judged to be of another program: this bounds the time that it takes.
const MOST_JUDGED: usize = 4_096;

/// How many digits a mask has.
pub(crate) fn digits_in(text: &[u8]) -> usize {
    if text.starts_with(b"cert 1\n") { 8 } else { 16 }
}

/// Whether a line is the line of a task.
fn is_task_row(row: &[u8]) -> bool {
    row.starts_with(b"task ")
}

/// Whether a line is the line of a task that the program has.
fn is_known(program: &Program, row: &[u8]) -> bool {
    let name = after(row, 5);
    is_task_row(row) && program.tasks().iter().any(|task| task.name.bytes() == name)
}

/// The index of an entry's line; 0 where it has none.
fn index_of(row: &[u8]) -> u32 {
    decimal_in(first_word(row), 5).unwrap_or(0)
}

/// What a line has that no line may have: a comment, or else a tab, or else a space that separates no two words.
fn common_slip(row: &[u8]) -> Option<Slip> {
    if let Some(before) = row.iter().position(|byte| *byte == b'#') {
        let help = if row[..before].iter().all(|byte| *byte == b' ') {
            "remove the line"
        } else {
            "remove it, with any spaces before it"
        };
        let told = advice("a certificate has no comments", help);
        let width = row.len().saturating_sub(before);
        return Some(marked(before, width, told).among(Group::Comments));
    }
    if let Some(before) = row.iter().position(|byte| *byte == b'\t') {
        let says = "one space separates two words, not a tab";
        return Some(separator(row, before, says));
    }
    let before = stray_space(row)?;
    let says = "exactly one space separates two words; there are no other spaces";
    Some(marked(before, 1, mend(says, "remove this space", "")))
}

/// What is said of the mask of a line, after `before` bytes, where masks have `digits` digits.
fn mask_slip(digits: usize, row: &[u8], before: usize) -> Slip {
    let mask = after(row, before);
    let is_mask = mask.iter().all(|byte| byte.is_ascii_hexdigit());
    let has_capitals = mask.iter().any(|byte| byte.is_ascii_uppercase());
    let bare = match mask {
        [b'0', b'x' | b'X', digits @ ..] => digits,
        _ => mask,
    };
    let says = "this is not a mask of {digits} digits";
    let row = if is_mask && mask.len() == digits && has_capitals {
        mend("the mask has capital letters", "write {fix}", "{small}")
    } else if is_mask && mask.len() == digits {
        advice(
            "the mask has a bit above 33, the number of the last register",
            "write 00000000 to 00000003 as the first eight digits",
        )
    } else if is_mask && mask.len() == 16 {
        advice(
            says,
            "write cert 2 in place of cert 1, and each mask with 16 digits, since HI and LO have no place in 8; or make a new one: multiscalar annotate --emit keep PROGRAM > CERT",
        )
    } else if let (true, Some(number)) = (bare.len() <= digits, number_in(bare, 16)) {
        let zeros = if digits == 16 {
            "00000000{hex}"
        } else {
            "{hex}"
        };
        return marked(before, mask.len(), mend(says, "write {fix}", zeros))
            .meaning(number)
            .among(Group::Incomplete);
    } else {
        advice(
            says,
            "write {digits} digits, 0 to 9 and a to f in lower case, with zeros in front and no bit above 33",
        )
    };
    marked(before, mask.len(), row)
}

/// The first line whose index is not above that of the entry before, or none of an instruction.
fn shape_line(rows: &[&[u8]]) -> usize {
    let mut least = 0;
    for (before, row) in rows.iter().enumerate() {
        let index = index_of(row);
        if is_task_row(row) {
            least = 0;
        } else if index < least || index >= 4096 {
            return before.saturating_add(1);
        } else {
            least = index.saturating_add(1);
        }
    }
    1
}

/// A text of a certificate that is refused, with its lines.
#[derive(Drop)]
struct Refused<'a> {
    alloc: Global,
    rows: &'a [&'a [u8]],
    /// How many digits a mask has.
    digits: usize,
    /// Whether the last line ends with LF.
    is_ended: bool,
    /// The task that the line has to begin for which the text is refused; `None` where no task is left.
    next: Option<&'a str>,
    /// How many tasks the first lines name.
    named: usize,
    /// How many of them the program has.
    known: usize,
}

impl<'a> Refused<'a> {
    /// What is said of a line that has to have the name of the next task of the program.
    fn name_row(&self, says: &'static str) -> Row {
        match self.next {
            Some(_) => mend(says, "write {fix}", "{next}"),
            None => advice(says, "take out this line and those after it"),
        }
    }

    /// Why a line has no form that a line may have, where it has nothing that no line may have.
    fn form_slip(&self, number: usize, row: &[u8]) -> Slip {
        let space = row.iter().position(|byte| *byte == b' ');
        let width = space.unwrap_or(row.len());
        if is_task_row(row) {
            let told = self.name_row("{word} cannot be the name of a task");
            return marked(5, row.len().saturating_sub(5), told);
        }
        if number == 2 && !row.is_empty() {
            let help = match self.next {
                Some(_) => "write task {next} on a line before it",
                None => ANEW,
            };
            return marked(
                0,
                row.len(),
                advice("the line of the first task comes first", help),
            );
        }
        if space.is_some() && decimal_in(first_word(row), 5).is_some() {
            return mask_slip(self.digits, row, width.saturating_add(1));
        }
        let (says, help) = if row.is_empty() {
            ("the line is empty", "take it out")
        } else if space.is_some() {
            (
                "{word} is not the index of an instruction",
                "write an index in decimal, without leading zeros, at most 4095",
            )
        } else {
            (
                "this is not a line of a certificate",
                "a line is task NAME, or an index, one space and a mask",
            )
        };
        marked(0, width, advice(says, help))
    }

    /// Why the line has no form that a line may have for which the text is refused.
    fn line_slip(&self, number: usize) -> Slip {
        let row = row_at(self.rows, number);
        match return_slip(row).or(common_slip(row)) {
            Some(slip) => slip,
            None if number < self.rows.len() || self.is_ended => self.form_slip(number, row),
            None => {
                let told = advice("the last line does not end with LF", "end it with LF");
                marked(row.len(), 0, told)
            }
        }
    }

    /// The error for a line with this slip.
    fn error(&self, code: Code, number: usize, slip: Slip) -> Result<Diagnostic, AllocError>
        ensures line { IfOk result (IsErrorIn Certificate number) }
        ensures text { IfOk result (IsErrorOf Certificate) }
    {
        let alloc = self.alloc;
        let marked = slip.bytes(row_at(self.rows, number));
        let small = marked.to_ascii_lowercase(alloc)?;
        let (digits, named, known, hex) = (self.digits, self.named, self.known, slip.number);
        let words = [
            ("word", quoted(alloc, marked)?),
            ("small", as_shown(alloc, &small)?),
            ("next", Words::of(alloc, self.next.unwrap_or(""))?),
            ("digits", words!(in alloc; "{digits}")?),
            ("named", words!(in alloc; "{named}")?),
            ("known", words!(in alloc; "{known}")?),
            ("hex", words!(in alloc; "{hex:08x}")?),
        ];
        let at = span(number, slip.before, slip.width);
        let said = slip.row.at(alloc, Source::Certificate, code, at, &words)?;
        Ok(said)
    }

    /// The errors for the lines after one that are told together with it, and how many more there are: five comments
    /// are shown in all.
    fn alike(&self, number: usize, group: Group) -> Result<Vec<Diagnostic>, AllocError> {
        let most = match group {
            Group::Comments => 4,
            _ => MOST_SHOWN - 1,
        };
        let mut list = Vec::new(self.alloc);
        let mut count = 0usize;
        for (before, row) in self.rows.iter().enumerate().skip(number) {
            let other = before.saturating_add(1);
            let slip = common_slip(row).unwrap_or(self.form_slip(other, row));
            if slip.group == group {
                if count < most {
                    list.push(self.error(Code::Line, other, slip)?)?;
                }
                count = count.saturating_add(1);
            }
        }
        let more = count.saturating_sub(most);
        let (one, many) = ("error", "errors");
        add_more(self.alloc, &mut list, Source::Certificate, more, one, many)?;
        Ok(list)
    }

    /// The errors for a line with this slip, and for those told together with it.
    fn errors(&self, code: Code, number: usize, slip: Slip) -> Result<Vec<Diagnostic>, AllocError>
        ensures line { IfOk result (λ list. IsSomeAnd (slice_get list.items 0) (IsErrorIn Certificate number)) }
        ensures text { IfOk result (λ list. IsSomeAnd (slice_get list.items 0) (IsErrorOf Certificate)) }
    {
        let mut list = vec![in self.alloc; self.error(code, number, slip)?]?;
        let mut rest = match slip.group {
            Group::Comments | Group::Incomplete => self.alike(number, slip.group)?,
            _ => Vec::new(self.alloc),
        };
        list.append(&mut rest)?;
        Ok(list)
    }

    /// What is wrong with the first line, of a text that does not begin as a certificate does.
    fn header_slip(&self) -> Slip {
        let row = row_at(self.rows, 1);
        let (mut rows, mut others) = (self.rows.iter(), self.rows.iter());
        let is_program = rows.any(|row| row.starts_with(b".task ") || row.starts_with(b".start "));
        let is_begun = !is_program && others.any(|row| row.starts_with(b"cert"));
        let common = if is_begun { common_slip(row) } else { None };
        if let Some(slip) = return_slip(row).or(common) {
            return slip;
        }
        let begin =
            "begin with the line cert 2, or cert 1 if masks have 8 digits, and end it with LF";
        let (says, help) = if self.rows.is_empty() {
            ("the certificate is empty", ANEW)
        } else if is_program {
            (
                "this is a program, not a certificate",
                "make its certificate: multiscalar annotate --emit keep PROGRAM > CERT",
            )
        } else if row == b"cert 1".as_slice() || row == b"cert 2".as_slice() {
            ("the first line does not end with LF", begin)
        } else {
            ("the first line is neither cert 2 nor cert 1", begin)
        };
        marked(0, row.len(), advice(says, help))
    }

    /// What is wrong with a line of another task than the next one, or of a certificate of another program: it names
    /// several tasks that the program has not, and more than it has.
    fn task_slip(&self, row: &[u8], is_known: bool) -> Slip {
        let unknown = self.named.saturating_sub(self.known);
        let says = match self.next {
            Some(_) => "the program's next task is {next}",
            None => "the program has no further task",
        };
        let told = if unknown > 1 && self.known < unknown {
            let says =
                "this looks like a certificate of another program: the program has {known} of the {named} tasks that it names";
            advice(says, ANEW)
        } else if is_known {
            advice(says, ANEW)
        } else {
            self.name_row(says)
        };
        marked(5, row.len().saturating_sub(5), told)
    }
}

/// What is wrong with a line of a list that does not rise.
fn shape_slip(row: &[u8]) -> Slip {
    let says = if index_of(row) >= 4096 {
        "an index is at most 4095"
    } else {
        "this index is not above the one on the line before"
    };
    marked(0, first_word(row).len(), advice(says, ANEW))
}

/// The errors for the text of a certificate that is refused with this fault: the first is that of the refusal.
pub(crate) fn refused_error(
    alloc: Global,
    program: &Program,
    text: &[u8],
    fault: CertFault,
) -> Result<Vec<Diagnostic>, AllocError>
    ensures { IfOk result (λ list. IsSomeAnd (slice_get list.items 0) (IsAt fault)) }
{
    let rows = lines_of(alloc, text)?;
    let front = match fault {
        CertFault::Line(number) | CertFault::TaskName(number) => number.saturating_sub(1),
        _ => rows.len(),
    };
    let tasks = rows.iter().take(front).filter(|row| is_task_row(row));
    let next = program.tasks().get(tasks.count());
    let judged = &rows[..MOST_JUDGED.min(rows.len())];
    let refused = Refused {
        alloc,
        rows: &rows,
        digits: digits_in(text),
        is_ended: text.ends_with(b"\n"),
        next: next.map(|task| task.name.as_str()),
        named: judged.iter().filter(|row| is_task_row(row)).count(),
        known: judged.iter().filter(|row| is_known(program, row)).count(),
    };
    match fault {
        CertFault::Header => refused.errors(Code::Header, 1, refused.header_slip()),
        CertFault::Line(number) => refused.errors(Code::Line, number, refused.line_slip(number)),
        CertFault::TaskName(number) => {
            let row = row_at(&rows, number);
            let slip = refused.task_slip(row, is_known(program, row));
            refused.errors(Code::TaskName, number, slip)
        }
        CertFault::MissingTask => {
            let row = advice("the certificate ends before task {next}", ANEW);
            let end = row_at(&rows, rows.len()).len();
            refused.errors(Code::MissingTask, rows.len(), marked(end, 0, row))
        }
        CertFault::Shape => {
            let number = shape_line(&rows);
            refused.errors(Code::Shape, number, shape_slip(row_at(&rows, number)))
        }
        CertFault::OutOfMemory => Err(AllocError),
    }
}
