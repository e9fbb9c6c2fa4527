//! The lines of a script that spell no event, and the part of each that is wrong.

ghost use Rattle.std.specs.Prelude.{◌≡◌, ◌≤◌, ◌++◌, [], ◌∷◌, IfOk, OnOk, length, position, take};
ghost use Rattle.event_script.specs.EventScript.{is_space, lines as lines_of, behind, first_word, from_word, word_at, bad_lines, bad_from};

use crate::fault::EventFault;
use crate::reading::{event_of, next_line};
use crate::task_names::TaskNames;
use std::alloc::{AllocError, Global};
use task_descriptor::program::Program;

/// A line of a script that spells no event.
#[derive(Clone, Copy, Debug, PartialEq, Eq)]
pub struct BadLine {
    /// The line, counted from 1.
    pub line: usize,
    /// Why it spells none.
    pub fault: EventFault,
}

/// How many bytes stand before the first space of a text.
fn space_in(text: &[u8]) -> Option<usize>
    ensures { result ≡ position is_space text.now }
{
    text.iter().position(|byte| *byte == b' ')
}

/// What stands after the first space of a text; nothing where there is none.
fn behind_space(text: &[u8]) -> &[u8]
    ensures value { result.now ≡ behind (position is_space text.now) text.now }
    ensures shorter { length result.now ≤ length text.now }
{
    match space_in(text) {
        Some(space) => &text[space + 1..],
        None => &text[text.len()..],
    }
}

/// The bytes of a text up to its first space, or all of them.
pub fn first_word(text: &[u8]) -> &[u8]
    ensures { result.now ≡ first_word text.now }
{
    match space_in(text) {
        Some(space) => &text[..space],
        None => text,
    }
}

/// A line from the word of this number on, counted from 0.
fn from_word(line: &[u8], number: usize) -> &[u8]
    ensures value { result.now ≡ from_word number line.now }
    ensures shorter { length result.now ≤ length line.now }
{
    let mut rest = line;
    for _ in 0..number {
        rest = behind_space(rest);
    }
    rest
}

/// A word of a line, and how many bytes stand before it.
fn word_at(line: &[u8], number: usize) -> (usize, &[u8])
    ensures before { result.0 ≡ (word_at number line.now).before }
    ensures bytes { result.1.now ≡ (word_at number line.now).bytes }
{
    let rest = from_word(line, number);
    (line.len() - rest.len(), first_word(rest))
}

impl EventFault {
    ghost use Rattle.std.specs.Prelude.{◌≡◌};
    ghost use Rattle.event_script.specs.EventScript.{wrong_part};

    /// The part of a line that has this fault: the offset in bytes at which it begins, and its bytes. It is the
    /// word that is wrong; where words are missing, the line's end, and where there are too many, all the extra
    /// words.
    pub fn part_of(self, line: &[u8]) -> (usize, &[u8])
        ensures before { result.0 ≡ (wrong_part self line.now).before }
        ensures bytes { result.1.now ≡ (wrong_part self line.now).bytes }
    {
        match self {
            EventFault::NoEvent => word_at(line, 0),
            EventFault::NoPosition | EventFault::NoName | EventFault::NoTask => word_at(line, 1),
            EventFault::NoRegister => word_at(line, 2),
            EventFault::TooFew => (line.len(), &line[line.len()..]),
            EventFault::TooMany(words) => {
                let rest = from_word(line, words);
                (line.len() - rest.len(), rest)
            }
        }
    }
}

/// Adds a line with a fault, if the list has fewer than `most`.
fn add_line(
    list: &mut Vec<BadLine>,
    most: usize,
    line: usize,
    fault: EventFault,
) -> Result<(), AllocError>
    requires { length list.old.items ≤ most }
    ensures room { OnOk result (length list.new.items ≤ most) }
    ensures added { OnOk result (list.new.items ≡ take most (list.old.items ++ record { line = line; fault = fault } ∷ [])) }
{
    if list.len() < most {
        list.push(BadLine { line, fault })?;
    }
    Ok(())
}

/// The lines of a text that spell no event for tasks of these names: the first of them, at most `most`, and how many
/// there are.
fn bad_among(
    alloc: Global,
    text: &[u8],
    names: &TaskNames,
    most: usize,
) -> Result<(Vec<BadLine>, usize), AllocError>
    requires { length names.now ≤ 1024 }
    ensures first { IfOk result (λ found. found.0.items ≡ take most (bad_from 1 names.now (lines_of text.now))) }
    ensures count { IfOk result (λ found. found.1 ≡ length (bad_from 1 names.now (lines_of text.now))) }
{
    let mut list = Vec::new(alloc);
    let mut count = 0;
    let mut rest = text;
    let mut line = 0;
    while !rest.is_empty() {
        line += 1;
        let (first, others) = next_line(rest);
        if let Err(fault) = event_of(names, first) {
            add_line(&mut list, most, line, fault)?;
            count += 1;
        }
        rest = others;
    }
    Ok((list, count))
}

/// The lines of a text that spell no event for the tasks of a program: the first `most` of them, and the number
/// of all. With none the script can be read; else it is refused for the first (`laws::refused_for_the_first`).
///
/// # Errors
///
/// `AllocError` where memory was refused.
pub fn bad_lines(
    alloc: Global,
    text: &[u8],
    program: &Program,
    most: usize,
) -> Result<(Vec<BadLine>, usize), AllocError>
    ensures first { IfOk result (λ found. found.0.items ≡ take most (bad_lines program.now text.now)) }
    ensures count { IfOk result (λ found. found.1 ≡ length (bad_lines program.now text.now)) }
{
    let names = TaskNames::of(alloc, program.tasks())?;
    bad_among(alloc, text, &names, most)
}
