//! The text of a script with expectations: events with what each of them did.

ghost use Rattle.std.specs.Prelude.{◌<◌, ◌≤◌};

use crate::expectation::{Expectation, ExpectedRefusal};
use crate::expected::{changes_of, to_list};
use event_script::writing::write_event;
use event_trace::change::Change;
use event_trace::told::Told;
use event_trace::walk::Walk;
use json_text::Written;
use machine_model::event::{Event, Standing};
use mark_checker::accept::Accepted;
use std::alloc::{AllocError, Global};

/// The script of some events on a machine of `units` units, 1 to 16, at the start of an accepted program: each event on a
/// line, with what it did. An event that is refused changes nothing, and is a comment.
///
/// # Errors
///
/// `AllocError` where memory was refused.
pub fn write_valued(
    alloc: Global,
    accepted: &Accepted,
    units: u32,
    events: &[Event],
) -> Result<Vec<u8>, AllocError>
    requires some { 0 < units }
    requires few { units ≤ 16 }
{
    let mut text = String::new(alloc);
    let mut walk = Walk::new(alloc, accepted, units)?;
    for event in events {
        let (next, told) = walk.step(alloc, event)?;
        walk = next;
        if matches!(told, Told::Refused(_)) {
            write!(text, "# refused: ")?;
        }
        write_event(&mut text, accepted.program(), *event)?;
        write_list(&mut text, " : ", changes_of(&told))?;
        writeln!(text, "")?;
    }
    Ok(text.into_bytes())
}

/// Adds what changes did: the first after these words, each other after a comma. That a register was taken over from the
/// unit before is not said.
pub(crate) fn write_list(text: &mut String, words: &str, changes: &[Change]) -> Written {
    let mut before = words;
    for change in changes {
        if let Some(done) = to_list(*change) {
            text.push_str(before)?;
            write_expectation(text, done)?;
            before = ", ";
        }
    }
    Ok(())
}

/// Adds an expectation, as a script spells it.
pub(crate) fn write_expectation(text: &mut String, expected: Expectation) -> Written {
    match expected {
        Expectation::Register { register, word } => {
            let number = register.get();
            write!(text, "${number}={word}")
        }
        Expectation::Sends { register, word } => {
            let number = register.get();
            write!(text, "sends ${number}={word}")
        }
        Expectation::Memory { address, word } => write!(text, "[0x{address:x}]={word}"),
        Expectation::Output { word } => write!(text, "out={word}"),
        Expectation::Stops { address } => write!(text, "stops 0x{address:x}"),
        Expectation::Ends { standing } => {
            write!(text, "ends ")?;
            write_standing(text, standing)
        }
    }
}

/// Adds the number of a refusal after these words, and the register that it names.
pub(crate) fn write_refusal(text: &mut String, words: &str, refusal: ExpectedRefusal) -> Written {
    let number = refusal.number;
    write!(text, "{words}{number}")?;
    if let Some(register) = refusal.register {
        let register = register.get();
        write!(text, " ${register}")?;
    }
    Ok(())
}

/// Adds how a run stands, as a script spells it.
pub(crate) fn write_standing(text: &mut String, standing: Standing) -> Written {
    match standing {
        Standing::Running => write!(text, "running"),
        Standing::Halted => write!(text, "halted"),
        Standing::Trapped(trap) => write!(text, "trapped {trap}"),
        Standing::Unlisted(address) => write!(text, "unlisted 0x{address:x}"),
    }
}
