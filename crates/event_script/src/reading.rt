//! Reading the text of an event script.

ghost use Rattle.std.specs.Prelude.{◌≡◌, ◌+◌, ◌^◌, ◌<◌, ◌≤◌, ◌==◌, ◌⊎◌, [], ◌∷◌, length, position, Ok, Err, MatchOption, MatchResult, OnSome, IfSome};
ghost use Rattle.std.specs.List.{slice_split};
ghost use Rattle.event_script.specs.EventScript.{lines as lines_of, number_in, register_in, operand_count, misfit, alone as alone_of, assigned as assigned_of, at_position as at_position_of, with_one as with_one_of, with_two as with_two_of, event_in, script_parse, script_of};

use crate::fault::{EventFault, ScriptFault};
use crate::task_names::TaskNames;
use machine_model::event::Event;
use mips_instructions::number::Reg;
use std::alloc::Global;
use task_descriptor::name::Name;
use task_descriptor::program::Program;
use text_pieces::cutting::cut;

/// The first line of a text that is not empty, without its LF, and the text of the lines after it.
pub fn next_line(text: &[u8]) -> (&[u8], &[u8])
    requires { 0 < length text.now }
    ensures lines { lines_of text.now ≡ result.0.now ∷ lines_of result.1.now }
    ensures shorter { length result.1.now < length text.now }
{
    match cut(b'\n', text) {
        Some(parts) => parts,
        None => (text, &text[text.len()..]),
    }
}

fn number_of(word: &[u8]) -> Option<u32>
    ensures { result ≡ number_in word.now }
{
    if word.is_empty() || word.len() > 3 || (word[0] == b'0' && word.len() > 1) {
        return None;
    }
    let mut number: u32 = 0;
    for digit in word {
        if !digit.is_ascii_digit() {
            return None;
        }
        number = number * 10 + u32::from(*digit - b'0');
    }
    Some(number)
}

/// The register that a word spells: `$` and its number, 0 to 33; `None` where it spells none.
pub fn register_of(word: &[u8]) -> Option<Reg>
    ensures { result ≡ register_in word.now }
{
    if word.is_empty() || word[0] != b'$' {
        return None;
    }
    let number = number_of(&word[1..])?;
    Reg::new(u8::try_from(number).ok()?)
}

/// How many words follow the first word of an event; `None`: no event begins with this word.
fn operand_count(verb: &[u8]) -> Option<usize>
    ensures { result ≡ operand_count verb.now }
{
    if verb == b"retire".as_slice() || verb == b"fault".as_slice() {
        Some(0)
    } else if verb == b"transfer".as_slice() || verb == b"drain".as_slice() {
        Some(2)
    } else if verb == b"assign".as_slice()
        || verb == b"exec".as_slice()
        || verb == b"squash".as_slice()
        || verb == b"drop".as_slice()
    {
        Some(1)
    } else {
        None
    }
}

/// What is wrong with this many words after a first word that make no event: no event begins so, they
/// are too few or too many, or else `wrong`.
#[cold]
fn misfit(verb: &[u8], count: usize, wrong: EventFault) -> EventFault
    ensures { result ≡ misfit (operand_count verb.now) count wrong }
{
    match operand_count(verb) {
        None => EventFault::NoEvent,
        Some(wanted) if count < wanted => EventFault::TooFew,
        Some(wanted) if wanted < count => EventFault::TooMany(wanted + 1),
        Some(_) => wrong,
    }
}

/// The event of a word that stands alone.
fn alone(verb: &[u8]) -> Result<Event, EventFault>
    ensures { result ≡ alone_of verb.now }
{
    if verb == b"retire".as_slice() {
        Ok(Event::Retire)
    } else if verb == b"fault".as_slice() {
        Ok(Event::Fault)
    } else {
        Err(misfit(verb, 0, EventFault::NoEvent))
    }
}

/// The assignment of the task of this name.
fn assigned(names: &TaskNames, name: &[u8]) -> Result<Event, EventFault>
    requires { length names.now ≤ 1024 }
    ensures { result ≡ assigned_of names.now name.now }
{
    let Some(name) = Name::new(name) else {
        return Err(EventFault::NoName);
    };
    match names.number_of(&name) {
        Some(task) => Ok(Event::Assign(task as u32)),
        None => Err(EventFault::NoTask),
    }
}

/// The event of a verb and a position.
fn at_position(verb: &[u8], k: u32) -> Result<Event, EventFault>
    ensures { result ≡ at_position_of verb.now (Some k) }
{
    if verb == b"exec".as_slice() {
        Ok(Event::Exec(k))
    } else if verb == b"squash".as_slice() {
        Ok(Event::Squash(k))
    } else if verb == b"drop".as_slice() {
        Ok(Event::Drop(k))
    } else {
        Err(misfit(verb, 1, EventFault::NoEvent))
    }
}

/// The event of a verb and one word after it.
fn with_one(names: &TaskNames, verb: &[u8], word: &[u8]) -> Result<Event, EventFault>
    requires { length names.now ≤ 1024 }
    ensures { result ≡ with_one_of names.now verb.now word.now }
{
    if verb == b"assign".as_slice() {
        return assigned(names, word);
    }
    match number_of(word) {
        Some(k) => at_position(verb, k),
        None => Err(misfit(verb, 1, EventFault::NoPosition)),
    }
}

/// The event of a verb, a position and a register.
fn with_both(verb: &[u8], k: u32, register: Reg) -> Result<Event, EventFault>
    ensures { result ≡ with_two_of verb.now (Some k) (Some register) }
{
    if verb == b"transfer".as_slice() {
        Ok(Event::Transfer(k, register))
    } else if verb == b"drain".as_slice() {
        Ok(Event::Drain(k, register))
    } else {
        Err(misfit(verb, 2, EventFault::NoEvent))
    }
}

/// The event of a verb and two words after it.
fn with_two(verb: &[u8], first: &[u8], second: &[u8]) -> Result<Event, EventFault>
    ensures { result ≡ with_two_of verb.now (number_in first.now) (register_in second.now) }
{
    let Some(k) = number_of(first) else {
        return Err(misfit(verb, 2, EventFault::NoPosition));
    };
    match register_of(second) {
        Some(register) => with_both(verb, k, register),
        None => Err(misfit(verb, 2, EventFault::NoRegister)),
    }
}

/// The event that a line spells; the line is given without its LF.
///
/// # Errors
///
/// The first fault of the line (see `EventFault`).
pub fn event_of(names: &TaskNames, line: &[u8]) -> Result<Event, EventFault>
    requires { length names.now ≤ 1024 }
    ensures { result ≡ event_in names.now line.now }
{
    let Some((verb, operands)) = cut(b' ', line) else {
        return alone(line);
    };
    let Some((first, second)) = cut(b' ', operands) else {
        return with_one(names, verb, operands);
    };
    if let Some(_) = cut(b' ', second) {
        return Err(misfit(verb, 3, EventFault::NoEvent));
    }
    with_two(verb, first, second)
}

/// The events that a text spells for tasks of these names, in order, or its first line that spells none.
fn events_of(alloc: Global, text: &[u8], names: &TaskNames) -> Result<Vec<Event>, ScriptFault>
    requires { length names.now ≤ 1024 }
    ensures { MatchResult result
        (λ events. script_parse text.now names.now ≡ Ok events.items)
        (λ fault. (fault ≡ ScriptFault.OutOfMemory) ⊎ (script_parse text.now names.now ≡ Err fault)) }
{
    let mut events = Vec::new(alloc);
    let mut rest = text;
    let mut line = 0;
    while !rest.is_empty() {
        line += 1;
        let (first, others) = next_line(rest);
        match event_of(names, first) {
            Ok(event) => events.push(event)?,
            Err(fault) => return Err(fault.at(line)),
        }
        rest = others;
    }
    Ok(events)
}

/// The events that a text spells for the tasks of a program, in order.
///
/// # Errors
///
/// The first line, counted from 1, that spells no event: `TaskName` where it assigns a task that the program
/// does not have, else `Line`. `OutOfMemory`, where memory was refused, may come in place of any other answer.
pub fn read(alloc: Global, text: &[u8], program: &Program) -> Result<Vec<Event>, ScriptFault>
    ensures { MatchResult result
        (λ events. script_of program.now text.now ≡ Ok events.items)
        (λ fault. (fault ≡ ScriptFault.OutOfMemory) ⊎ (script_of program.now text.now ≡ Err fault)) }
{
    let names = TaskNames::of(alloc, program.tasks())?;
    events_of(alloc, text, &names)
}
