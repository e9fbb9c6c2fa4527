//! The effects of an event in words: what was expected, and what the machine has in place of it.

use crate::expectation::Expectation;
use crate::expected::done_by;
use event_trace::change::Change;
use event_trace::text::{write_address, write_ending, write_register};
use json_text::Written;

/// Adds that this effect was wanted, but that an event with these changes had another one of its kind, or none.
pub(crate) fn write_missed(text: &mut String, wanted: Expectation, changes: &[Change]) -> Written {
    let (before, instead, missing) = match wanted {
        Expectation::Register { .. } => ("", "the machine has ", " gets no value here"),
        Expectation::Sends { .. } => ("that it sends ", "it sends ", " is not sent here"),
        Expectation::Memory { .. } => ("", "it is ", "there is no load or store here"),
        Expectation::Output { .. } => ("the output ", "it puts out ", "nothing is put out here"),
        Expectation::Stops { .. } => {
            let missing = "the unit does not stop here";
            ("a stop that leads to ", "it leads to ", missing)
        }
        Expectation::Ends { .. } => ("that ", "", "the run does not end here"),
    };
    write!(text, "expected {before}")?;
    write_effect(text, wanted)?;
    write!(text, ", but ")?;
    if let Some(done) = done_instead(changes, &wanted) {
        text.push_str(instead)?;
        return write_effect(text, done);
    }
    if let Expectation::Register { register, .. } | Expectation::Sends { register, .. } = wanted {
        let number = register.get();
        write!(text, "${number}")?;
    }
    text.push_str(missing)
}

// What an event did in place of what was wanted.
fn done_instead(changes: &[Change], wanted: &Expectation) -> Option<Expectation> {
    for change in changes {
        match done_by(*change) {
            Some(done) if is_instead(&done, wanted) => return Some(done),
            _ => {}
        }
    }
    None
}

// Whether this was done in place of what was wanted: it is of the same kind and, but for memory, with the same register.
fn is_instead(done: &Expectation, wanted: &Expectation) -> bool {
    match wanted {
        Expectation::Register { register, .. } => {
            matches!(done, Expectation::Register { register: other, .. } if other == register)
        }
        Expectation::Sends { register, .. } => {
            matches!(done, Expectation::Sends { register: other, .. } if other == register)
        }
        Expectation::Memory { .. } => matches!(done, Expectation::Memory { .. }),
        Expectation::Output { .. } => matches!(done, Expectation::Output { .. }),
        Expectation::Stops { .. } => matches!(done, Expectation::Stops { .. }),
        Expectation::Ends { .. } => matches!(done, Expectation::Ends { .. }),
    }
}

// Adds an effect.
fn write_effect(text: &mut String, effect: Expectation) -> Written {
    match effect {
        Expectation::Register { register, word } | Expectation::Sends { register, word } => {
            write_register(text, register, word)
        }
        Expectation::Memory { address, word } => write!(text, "{word} at 0x{address:x}"),
        Expectation::Output { word } => write!(text, "{word}"),
        Expectation::Stops { address } => write_address(text, address),
        Expectation::Ends { standing } => write_ending(text, standing),
    }
}
