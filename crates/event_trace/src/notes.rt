//! What each event of a run did, in a few words.

ghost use Rattle.std.specs.Prelude.{◌<◌, ◌≤◌};

use crate::change::Change;
use crate::places::places;
use crate::text::{write_ending, write_place, write_register};
use crate::told::Told;
use crate::unit_change::UnitChange;
use crate::walk::Walk;
use annotated_asm::position::Position;
use machine_model::event::Event;
use mark_checker::accept::Accepted;
use program_tokens::origin::{Origin, origin_of};
use std::alloc::{AllocError, Global};

/// A program text, and where it has its instructions and its lines.
#[derive(Drop)]
pub struct Source<'s> {
    text: &'s [u8],
    places: Vec<Position>,
    starts: Vec<usize>,
}

impl<'s> Source<'s> {
    /// The source of this text. An error means that memory was refused.
    pub fn new(alloc: Global, text: &'s [u8]) -> Result<Source<'s>, AllocError> {
        let places = places(alloc, text)?;
        let mut starts = vec![in alloc; 0; 1]?;
        for (index, byte) in text.iter().enumerate() {
            if *byte == b'\n' {
                starts.push(index.saturating_add(1))?;
            }
        }
        Ok(Source {
            text,
            places,
            starts,
        })
    }

    /// The text from where the instruction of this index stands on, if it is there.
    fn from_instruction(&self, index: u32) -> Option<&'s [u8]> {
        let place = self.places.get(index as usize)?;
        let line = (place.line as usize).checked_sub(1)?;
        let start = *self.starts.get(line)?;
        let first = start.saturating_add(place.column.saturating_sub(1));
        self.text.get(first..)
    }

    /// Writes the instruction of this index as the text has it, without a comment, with one blank where there are several.
    /// An error means that memory was refused.
    pub fn write_instruction(&self, text: &mut String, index: u32) -> Result<(), AllocError> {
        let mut is_apart = false;
        for byte in self.from_instruction(index).unwrap_or(&[]) {
            match *byte {
                b'#' | b'\n' | b'\r' => return Ok(()),
                b' ' | b'\t' => is_apart = true,
                byte => {
                    if is_apart {
                        text.push(' ')?;
                    }
                    is_apart = false;
                    text.push(char::from(byte))?;
                }
            }
        }
        Ok(())
    }

    // The line of C that the comment behind the instruction of this index names, if the file's name can be shown as it is.
    fn origin(&self, index: u32) -> Option<Origin<'s>> {
        let rest = self.from_instruction(index)?;
        let end = rest
            .iter()
            .position(|byte| *byte == b'\n')
            .unwrap_or(rest.len());
        let origin = origin_of(rest.get(..end)?)?;
        let is_plain = origin
            .file
            .as_bytes()
            .iter()
            .all(|byte| byte.is_ascii_graphic());
        if is_plain { Some(origin) } else { None }
    }

    /// Writes the line of the instruction of this index, and the line of C that it comes from, if a comment names it.
    ///
    /// # Errors
    ///
    /// `AllocError` where memory was refused; a part may have been added.
    pub fn write_line(&self, text: &mut String, index: u32) -> Result<(), AllocError> {
        write_place(text, &self.places, index)?;
        match self.origin(index) {
            Some(Origin { file, line }) => write!(text, ", {file}:{line}"),
            None => Ok(()),
        }
    }

    /// Writes what an event changed: an instruction with its line and its effects, or the value of a register that arrived or
    /// was sent. An error means that memory was refused.
    fn write_note(&self, text: &mut String, told: &Told) -> Result<(), AllocError> {
        let Told::Taken(changes) = told else {
            return Ok(());
        };
        for change in changes {
            if let Change::AtUnit { change, .. } = *change {
                self.write_unit_note(text, change)?;
            } else {
                write_effect(text, *change)?;
            }
        }
        Ok(())
    }

    /// Writes what changed at a unit.
    fn write_unit_note(&self, text: &mut String, change: UnitChange) -> Result<(), AllocError> {
        match change {
            UnitChange::Executed { index } => {
                self.write_instruction(text, index)?;
                text.push_str(" (")?;
                self.write_line(text, index)?;
                text.push_str(")")
            }
            UnitChange::Arrived { word, .. } | UnitChange::Drained { word, .. } => {
                write!(text, "its value is {word}")
            }
            _ => Ok(()),
        }
    }
}

/// Writes an effect of an instruction, after a semicolon; where the unit goes on is none. An error means that memory was
/// refused.
pub(crate) fn write_effect(text: &mut String, change: Change) -> Result<(), AllocError> {
    match change {
        Change::Wrote { register, word } => {
            text.push_str("; writes ")?;
            write_register(text, register, word)
        }
        Change::Sent { register, word } => {
            text.push_str("; sends ")?;
            write_register(text, register, word)
        }
        Change::Loaded { address, word } => write!(text, "; loads {word} from 0x{address:x}"),
        Change::Stored { address, word, .. } => write!(text, "; stores {word} at 0x{address:x}"),
        Change::PutOut { word } => write!(text, "; puts out {word}"),
        Change::Ended { standing } => {
            text.push_str("; ")?;
            write_ending(text, standing)
        }
        _ => Ok(()),
    }
}

/// What some events did, each in a few words, of those from the index `first` on: an instruction, its line and its effects, or
/// the value of a register that goes on. The events are of a machine of `units` units, 1 to 16, at the start of an accepted
/// program with this text. An error means that memory was refused.
pub fn notes(
    alloc: Global,
    accepted: &Accepted,
    units: u32,
    program_text: &[u8],
    events: &[Event],
    first: usize,
) -> Result<Vec<String>, AllocError>
    requires some { 0 < units }
    requires few { units ≤ 16 }
{
    let source = Source::new(alloc, program_text)?;
    let mut walk = Walk::new(alloc, accepted, units)?;
    let mut notes = Vec::new(alloc);
    for (index, event) in events.iter().enumerate() {
        let (next, told) = walk.step(alloc, event)?;
        walk = next;
        if index >= first {
            let mut note = String::new(alloc);
            source.write_note(&mut note, &told)?;
            notes.push(note)?;
        }
    }
    Ok(notes)
}
