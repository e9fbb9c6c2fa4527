//! What is told of a script in words.

use crate::departure::{Departed, Departure};
use crate::effect::write_missed;
use crate::expected::changes_of;
use crate::judging::{Played, Verdict};
use crate::reading::content;
use crate::site::site_of;
use crate::slip::{line_of, write_event_slip, write_expectation_slip, write_shown};
use crate::stand::stand;
use crate::writing::{write_list, write_refusal};
use annotated_asm::position::Position;
use event_script::writing::task_name;
use event_trace::ring::Ring;
use event_trace::text::{
    write_ending, write_exit, write_place, write_refused, write_taken, write_unit,
};
use event_trace::told::Told;
use jobs::job::Texts;
use json_text::Written;
use limits::ranges::Units;
use machine_model::event::{Event, Refused, Spot};
use mips_instructions::instruction::Op;
use std::alloc::{AllocError, Global};
use task_descriptor::program::Program;

/// A verdict on a script, with the texts and the program that it is about.
#[derive(Drop)]
pub(crate) struct Page<'p, 'a> {
    pub alloc: Global,
    pub program: &'p Program,
    pub places: &'p [Position],
    pub texts: &'p Texts,
    pub units: Units,
    pub verdict: &'p Verdict<'a>,
}

impl Page<'_, '_> {
    /// The verdict in words.
    pub(crate) fn text(&self) -> Result<Vec<u8>, AllocError> {
        let mut text = String::new(self.alloc);
        match &self.verdict.departed {
            Some(departed) => self.write_departed(&mut text, departed)?,
            None => self.write_as_expected(&mut text)?,
        }
        Ok(text.into_bytes())
    }

    // Adds that a script is as expected, how many events it has, how the run stands, and how many effects it does not list.
    fn write_as_expected(&self, text: &mut String) -> Written {
        let (machine, lacking) = (&self.verdict.scene.machine, self.verdict.lacking);
        let count = machine.length();
        let s = if count == 1 { "" } else { "s" };
        write!(text, "as expected: {count} event{s}; ")?;
        write_ending(text, machine.outcome())?;
        writeln!(text, "")?;
        if lacking > 0 {
            let s = if lacking == 1 { "" } else { "s" };
            writeln!(text, "not listed: {lacking} effect{s} of these events")?;
        }
        Ok(())
    }

    // Adds how a line departs, what its event was and did, and how the units stand after it.
    fn write_departed(&self, text: &mut String, departed: &Departed) -> Written {
        let line = departed.line;
        write!(text, "line {line}: ")?;
        self.write_sentence(text, departed)?;
        writeln!(text, "")?;
        if let Some(played) = &self.verdict.scene.played {
            self.write_site(text, played)?;
            self.write_told(text, line, played)?;
        }
        if matches!(departed.why, Departure::NoEvent(_)) {
            return Ok(());
        }
        let machine = &self.verdict.scene.machine;
        let ring = Ring::of(machine, self.units.get());
        let stand = stand(self.alloc, self.program, self.places, &ring, machine)?;
        text.push_str(stand.as_str())
    }

    /// Adds how a line departs.
    pub(crate) fn write_sentence(&self, text: &mut String, departed: &Departed) -> Written {
        let line = line_of(&self.texts.script, departed.line);
        match departed.why {
            Departure::NoEvent(fault) => {
                write!(text, "this spells no event: ")?;
                write_event_slip(text, line, fault)
            }
            Departure::NotAllowed(refusal) => {
                write!(text, "this event is not allowed")?;
                self.write_reason(text, refusal)
            }
            Departure::Unread(part) => {
                write!(text, "expectation {part} cannot be read")?;
                write_expectation_slip(text, line, part)
            }
            Departure::Missed { expected, .. } => match &self.verdict.scene.played {
                Some(played) => write_missed(text, expected, changes_of(&played.told)),
                None => write_missed(text, expected, &[]),
            },
            Departure::NotRefused(expected) => {
                write_refusal(text, "expected that this event is refused: ", expected)
            }
            Departure::NotListed(change) => {
                write!(text, "this line does not list ")?;
                write_list(text, "", &[change])
            }
            Departure::NotEnded => {
                write!(text, "the script ends here, and the run has not ended")
            }
        }
    }

    // Adds what a refusal is about: the address that waits for the head, or the targets.
    fn write_reason(&self, text: &mut String, refusal: Refused) -> Written {
        match refusal {
            Refused::NotHead => match self.address() {
                Some(address) => write!(text, ": 0x{address:x} waits until the unit is the head"),
                None => Ok(()),
            },
            Refused::NotListed | Refused::IsListed => self.write_targets(text, 0),
            Refused::NotATarget => {
                let tail = self.verdict.scene.machine.active().saturating_sub(1);
                self.write_targets(text, tail)
            }
            _ => Ok(()),
        }
    }

    // The address that the load or store of a refused event would have; `None` where it is no load or store.
    fn address(&self) -> Option<u32> {
        let scene = &self.verdict.scene;
        let site = site_of(scene.played.as_ref()?, &scene.machine)?;
        let op = self.program.code().get(site.index? as usize)?.op;
        let (Op::Load(_, _, _, offset) | Op::Store(_, _, _, offset)) = op else {
            return None;
        };
        let base = scene.machine.unit(site.position)?.value(op.sources().0?)?;
        Some(base.wrapping_add(i32::from(offset).cast_unsigned()))
    }

    // Adds the targets of the task of the unit at a position, and where the task left if it has stopped.
    fn write_targets(&self, text: &mut String, position: u32) -> Written {
        let Some(unit) = self.verdict.scene.machine.unit(position) else {
            return Ok(());
        };
        let Some(task) = self.program.tasks().get(unit.task() as usize) else {
            return Ok(());
        };
        let name = task.name.as_str();
        write!(text, ": ")?;
        if let Spot::Stopped(address) = unit.spot() {
            write!(text, "the exit of {name} is ")?;
            write_exit(text, self.program, self.places, address)?;
            write!(text, ", and ")?;
        }
        if task.targets.as_slice().is_empty() {
            return write!(text, "{name} has no target");
        }
        write!(text, "the targets of {name} are")?;
        let mut before = " ";
        for target in task.targets.as_slice() {
            text.push_str(before)?;
            match self.program.task_at(target.get()) {
                Some(task) => text.push_str(task_name(self.program, task))?,
                None => write_place(text, self.places, target.get())?,
            }
            before = ", ";
        }
        Ok(())
    }

    // Adds the unit of an event, and its instruction.
    fn write_site(&self, text: &mut String, played: &Played) -> Written {
        let Some(site) = site_of(played, &self.verdict.scene.machine) else {
            return Ok(());
        };
        let position = site.position;
        write!(text, "at position {position}: ")?;
        write_unit(text, self.program, site.unit, site.task)?;
        if let (Event::Exec(_), Some(index)) = (played.event, site.index) {
            write!(text, ", ")?;
            write_place(text, self.places, index)?;
            write!(text, ": ")?;
            write_shown(text, self.instruction_text(index))?;
        }
        writeln!(text, "")
    }

    /// The text of the instruction of an index, without its comment.
    pub(crate) fn instruction_text(&self, index: u32) -> &[u8] {
        match self.places.get(index as usize) {
            Some(place) => content(line_of(&self.texts.program, place.line as usize)),
            None => &[],
        }
    }

    // Adds an event, and what it changed or why it was refused.
    fn write_told(&self, text: &mut String, line: usize, played: &Played) -> Written {
        let Played { event, ring, told } = played;
        match told {
            Told::Taken(changes) => {
                write_taken(text, self.program, self.places, line, ring, *event, changes)
            }
            Told::Refused(refusal) => write_refused(text, self.program, line, *event, *refusal),
        }
    }
}
