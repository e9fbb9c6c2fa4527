//! What is told of a script, as an object of JSON.

use crate::departure::{Departed, Departure};
use crate::expectation::ExpectedRefusal;
use crate::expected::awaited;
use crate::site::{Site, site_of};
use crate::slip::write_shown;
use crate::text::Page;
use crate::writing::{write_expectation, write_list, write_refusal, write_standing};
use event_script::writing::{task_name, write_event};
use event_trace::told::Told;
use json_text::{JsonText, Written};
use std::alloc::AllocError;

impl Page<'_, '_> {
    /// The verdict as an object of JSON, on a line.
    pub(crate) fn object(&self) -> Result<Vec<u8>, AllocError> {
        let mut out = JsonText::new(self.alloc);
        out.begin()?;
        out.text("format", "multiscalar-verdict")?;
        out.number("version", 1)?;
        match &self.verdict.departed {
            Some(departed) => self.add_departed(&mut out, departed)?,
            None => self.add_as_expected(&mut out)?,
        }
        out.end()?;
        out.into_line()
    }

    // Adds that a script is as expected.
    fn add_as_expected(&self, out: &mut JsonText) -> Written {
        let machine = &self.verdict.scene.machine;
        let mut standing = String::new(self.alloc);
        write_standing(&mut standing, machine.outcome())?;
        out.text("verdict", "as expected")?;
        out.number("events", machine.length())?;
        out.text("standing", &standing)?;
        out.number("not_listed", self.verdict.lacking)
    }

    // Adds how a line departs.
    fn add_departed(&self, out: &mut JsonText, departed: &Departed) -> Written {
        let mut sentence = String::new(self.alloc);
        self.write_sentence(&mut sentence, departed)?;
        out.text("verdict", "departs")?;
        out.number("line", departed.line)?;
        out.text("departure", departure_name(departed.why))?;
        out.text("message", &sentence)?;
        if let Departure::Unread(part) | Departure::Missed { part, .. } = departed.why {
            out.number("part", part)?;
        }
        let Some(played) = &self.verdict.scene.played else {
            return Ok(());
        };
        let mut event = String::new(self.alloc);
        write_event(&mut event, self.program, played.event)?;
        out.text("event", &event)?;
        if let Some(site) = site_of(played, &self.verdict.scene.machine) {
            self.add_site(out, &site)?;
        }
        self.add_expectation(out, departed.why)?;
        self.add_told(out, &played.told)
    }

    // Adds the unit of an event: its position, its number round the ring, its task and its instruction.
    fn add_site(&self, out: &mut JsonText, site: &Site) -> Written {
        out.number("position", site.position as usize)?;
        out.number("unit", site.unit)?;
        out.text("task", task_name(self.program, site.task))?;
        let Some(index) = site.index else {
            return Ok(());
        };
        let mut text = String::new(self.alloc);
        write_shown(&mut text, self.instruction_text(index))?;
        out.object("instruction")?;
        out.number("index", index as usize)?;
        if let Some(place) = self.places.get(index as usize) {
            out.number("line", place.line as usize)?;
        }
        out.text("text", &text)?;
        out.end()
    }

    // Adds what was expected, as a script spells it, if one expectation departs.
    fn add_expectation(&self, out: &mut JsonText, why: Departure) -> Written {
        let mut text = String::new(self.alloc);
        match why {
            Departure::Missed { expected, .. } => write_expectation(&mut text, expected)?,
            Departure::NotRefused(expected) => write_refusal(&mut text, "refused ", expected)?,
            _ => return Ok(()),
        }
        out.text("expected", &text)
    }

    // Adds what the event did, or why it was refused, as a script spells it.
    fn add_told(&self, out: &mut JsonText, told: &Told) -> Written {
        let mut text = String::new(self.alloc);
        match told {
            Told::Taken(changes) => write_list(&mut text, "", changes)?,
            Told::Refused(refusal) => {
                let (number, register) = (refusal.number_and_name().0, awaited(*refusal));
                let number = u32::from(number);
                write_refusal(&mut text, "refused ", ExpectedRefusal { number, register })?;
            }
        }
        out.text("actual", &text)
    }
}

// What a departure is called.
fn departure_name(why: Departure) -> &'static str {
    match why {
        Departure::NoEvent(_) => "no event",
        Departure::NotAllowed(_) => "not allowed",
        Departure::Unread(_) => "unread",
        Departure::Missed { .. } => "missed",
        Departure::NotRefused(_) => "not refused",
        Departure::NotListed(_) => "not listed",
        Departure::NotEnded => "not ended",
    }
}
