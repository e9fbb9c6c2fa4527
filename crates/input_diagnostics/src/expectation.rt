//! What is wrong with the expectations of a line, which `replay --strict` reads.

use crate::advice::{Row, Slip, advice, marked, mend};
use crate::lines::{after, number_in};
use crate::meant::register_meant;
use event_script::reading::register_of;
use mips_instructions::places::address_of;
use std::alloc::{AllocError, Global};
use task_descriptor::program::Program;

const FORM: &str =
    "write $R=W, sends $R=W, [A]=W, out=W, stops A, ends halted, ends trapped K NAME or ends unlisted A";

const NO_EXPECTATION: &str = "{word} is not an expectation";

/// A part of a line.
#[derive(Clone, Copy)]
struct Part<'a> {
    before: usize,
    text: &'a [u8],
}

impl<'a> Part<'a> {
    /// A part without the spaces at its ends.
    fn trimmed(self) -> Part<'a> {
        let first = self.text.iter().position(|byte| *byte != b' ');
        let first = first.unwrap_or(self.text.len());
        let last = self.text.iter().rposition(|byte| *byte != b' ');
        self.within(first, last.map_or(first, |last| last.saturating_add(1)))
    }

    /// From one byte of it to before another.
    fn within(self, first: usize, last: usize) -> Part<'a> {
        let last = last.min(self.text.len());
        let first = first.min(last);
        Part {
            before: self.before.saturating_add(first),
            text: &self.text[first..last],
        }
    }

    /// What stands behind some bytes of it, without spaces.
    fn behind(self, count: usize) -> Part<'a> {
        self.within(count, self.text.len()).trimmed()
    }

    /// What is said of it.
    fn slip(self, row: Row) -> Option<Slip> {
        Some(marked(self.before, self.text.len(), row))
    }

    /// What is said of it, with the number to write.
    fn meaning(self, row: Row, number: u32) -> Option<Slip> {
        Some(marked(self.before, self.text.len(), row).meaning(number))
    }
}

/// The number that digits spell, in decimal or behind `0x`, if it has 32 bits at most.
fn number_of(text: &[u8]) -> Option<u32> {
    match text {
        [b'0', b'x', digits @ ..] => number_in(digits, 16),
        _ => number_in(text, 10),
    }
}

/// What is said of a word, if it is none.
fn word_said(part: Part<'_>) -> Option<Slip> {
    if number_of(part.text).is_some() {
        return None;
    }
    let help = "write a number below 2^32, in decimal or as 0x and hexadecimal digits";
    match part.text {
        [] => part.slip(advice("a word is missing", help)),
        [b'0', b'X', ..] => {
            let says = "hexadecimal digits follow 0x, with a small x";
            part.within(0, 2).slip(mend(says, "write {fix}", "0x"))
        }
        [b'-', digits @ ..] if number_of(digits).is_some() => {
            let says = "a word is a number of 32 bits without a sign";
            let number = 0u32.wrapping_sub(number_of(digits).unwrap_or(0));
            part.meaning(mend(says, "write {fix}", "0x{hex}"), number)
        }
        _ => part.slip(advice("{word} is not a word", help)),
    }
}

/// What is said of what is expected to have a word, if it is nothing that may have one.
fn name_said(alloc: Global, name: Part<'_>) -> Result<Option<Slip>, AllocError> {
    let is_sent = name.text.starts_with(b"sends ");
    let register = name.behind(if is_sent { 6 } else { 0 });
    let is_place = matches!(name.text, [b'[', .., b']']) || name.text == b"out".as_slice();
    if is_place || register_of(register.text).is_some() {
        return Ok(None);
    }
    match register_meant(alloc, register.text)? {
        Some(number) => {
            let says = "an expectation names a register by its number";
            let row = mend(says, "write {fix}", "${number}");
            Ok(register.meaning(row, u32::from(number.get())))
        }
        None => Ok(name.slip(advice(NO_EXPECTATION, FORM))),
    }
}

/// What is said of the address behind `stops`, if it is none: that of the task that it names.
fn address_said(program: &Program, part: Part<'_>) -> Option<Slip> {
    if number_of(part.text).is_some() {
        return None;
    }
    let mut tasks = program.tasks().iter();
    match tasks.find(|task| task.name.bytes() == part.text) {
        Some(task) => {
            let row = mend("a task exits to an address", "write {fix}", "0x{hex}");
            part.meaning(row, address_of(task.entry.get()))
        }
        None => part.slip(advice(
            "{word} is not an address",
            "write the address of an instruction, as in stops 0x00400008",
        )),
    }
}

/// What is said of an expectation, if it is none.
fn part_said(alloc: Global, program: &Program, part: Part<'_>) -> Result<Option<Slip>, AllocError> {
    if part.text.is_empty() {
        return Ok(part.slip(advice("an expectation is missing", FORM)));
    }
    if part.text.starts_with(b"stops ") {
        return Ok(address_said(program, part.behind(6)));
    }
    if part.text.starts_with(b"ends ") {
        return Ok(None);
    }
    let Some(equals) = part.text.iter().position(|byte| *byte == b'=') else {
        return Ok(part.slip(advice(NO_EXPECTATION, FORM)));
    };
    let behind = equals.saturating_add(1);
    if matches!(part.text.get(behind), Some(b'=')) {
        let both = part.within(equals, behind.saturating_add(1));
        return Ok(both.slip(mend("an expectation has one =", "write {fix}", "=")));
    }
    let name = name_said(alloc, part.within(0, equals).trimmed())?;
    Ok(name.or(word_said(part.behind(behind))))
}

/// What is said of the first expectation of a line that is none, if there is one.
pub(crate) fn expectation_said(
    alloc: Global,
    program: &Program,
    line: &[u8],
) -> Result<Option<Slip>, AllocError> {
    let end = line.iter().position(|byte| *byte == b'#');
    let line = &line[..end.unwrap_or(line.len()).min(line.len())];
    let Some(colon) = line.iter().position(|byte| *byte == b':') else {
        return Ok(None);
    };
    let mut before = colon.saturating_add(1);
    for text in after(line, before).split(|byte| *byte == b',') {
        let part = Part { before, text }.trimmed();
        if let Some(slip) = part_said(alloc, program, part)? {
            return Ok(Some(slip));
        }
        before = before.saturating_add(text.len()).saturating_add(1);
    }
    Ok(None)
}
