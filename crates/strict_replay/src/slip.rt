//! What is wrong with a line that spells no event, or with an expectation that cannot be read.

use crate::reading::{behind_colon, content, event_text, trimmed, word_in};
use event_script::fault::EventFault;
use json_text::Written;
use text_pieces::cutting::cut;

/// The line of this number, from 1, of a text, without its LF; empty where there is none.
pub(crate) fn line_of(text: &[u8], number: usize) -> &[u8] {
    part_of(b'\n', text, number)
}

// The part of this number, from 1, of those that a byte separates; empty where there is none.
fn part_of(separator: u8, text: &[u8], number: usize) -> &[u8] {
    let mut parts = text.split(|byte| *byte == separator);
    match parts.nth(number.saturating_sub(1)) {
        Some(part) => part,
        None => &[],
    }
}

/// Adds the bytes of a text that can be shown; a tab is a space.
pub(crate) fn write_shown(text: &mut String, bytes: &[u8]) -> Written {
    for byte in bytes {
        match *byte {
            b'\t' => text.push(' ')?,
            b' '..=b'~' => text.push(char::from(*byte))?,
            _ => {}
        }
    }
    Ok(())
}

// What is wrong with the bytes of a line, whatever it is to spell.
fn bytes_slip(line: &[u8]) -> Option<&'static str> {
    if line.ends_with(b"\r") {
        return Some("the line ends with a carriage return, and lines end with LF alone");
    }
    if line.starts_with(b"\xef\xbb\xbf") {
        return Some("the line begins with a byte order mark");
    }
    if line.contains(&b'\t') {
        return Some("there is a tab, and words are separated by one space");
    }
    None
}

/// Adds why a line spells no event.
pub(crate) fn write_event_slip(text: &mut String, line: &[u8], fault: EventFault) -> Written {
    let content = content(line);
    let event = event_text(content);
    if let Some(slip) = bytes_slip(content) {
        return text.push_str(slip);
    }
    if event.windows(2).any(|pair| matches!(pair, [b' ', b' '])) {
        return text.push_str("there are two spaces, and words are separated by one");
    }
    if matches!(fault, EventFault::NoTask) {
        text.push_str("the program has no task ")?;
        return write_shown(text, fault.part_of(event).1);
    }
    write!(text, "{fault}")
}

/// Adds why the expectation of this number, from 1, cannot be read, where that is known, after a colon.
pub(crate) fn write_expectation_slip(text: &mut String, line: &[u8], number: usize) -> Written {
    let content = content(line);
    let part = trimmed(part_of(b',', behind_colon(content), number));
    let known = match bytes_slip(content) {
        Some(slip) => Some(slip),
        None => part_slip(part),
    };
    if let Some(slip) = known {
        return write!(text, ": {slip}");
    }
    let Some((_, word)) = cut(b'=', part) else {
        return Ok(());
    };
    let [b'-', digits @ ..] = trimmed(word) else {
        return Ok(());
    };
    text.push_str(": words have no sign")?;
    if let Some(size) = word_in(digits) {
        let meant = size.wrapping_neg();
        write!(text, ", and -{size} is {meant}")?;
    }
    Ok(())
}

// What is wrong with an expectation, but for the sign of its word.
fn part_slip(part: &[u8]) -> Option<&'static str> {
    if part.is_empty() {
        Some("it is empty")
    } else if part.windows(2).any(|pair| matches!(pair, [b'0', b'X'])) {
        Some("hexadecimal digits come after 0x")
    } else if matches!(part, [b'$', b'a'..=b'z' | b'A'..=b'Z', ..]) {
        Some("a register is $ and its number, from $0 to $33")
    } else {
        None
    }
}
