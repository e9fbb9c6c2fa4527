//! Whether an event did what was expected of it.

ghost use Rattle.std.specs.Prelude.{◌≡◌};
ghost use Rattle.std.specs.Option.{option_copied};
ghost use Rattle.std.specs.List.{find};
ghost use Rattle.strict_replay.specs.StrictScript.{expectation_in, expected_parts, trimmed};
ghost use Rattle.strict_replay.specs.StrictReplay.{awaited, done_by, first_unmet, content_departs, first_not_listed, is_listed, is_met, is_refused_so, lacks, refusal_told, refusal_unmet, to_list, unmet};

use crate::departure::Departure;
use crate::expectation::{Expectation, ExpectedRefusal};
use crate::reading::{behind, behind_colon, expectation_in, place_of, refusal_words_in, trimmed};
use event_trace::change::Change;
use event_trace::told::Told;
use event_trace::unit_change::UnitChange;
use machine_model::event::Refused;
use mips_instructions::number::Reg;
use text_pieces::cutting::cut;

/// What an event with this change has done, as a script can expect it.
pub(crate) fn done_by(change: Change) -> Option<Expectation>
    ensures { result ≡ done_by change }
{
    match change {
        Change::Wrote { register, word } | Change::Took { register, word } => {
            Some(Expectation::Register { register, word })
        }
        Change::Sent { register, word } => Some(Expectation::Sends { register, word }),
        Change::AtUnit { change, .. } => match change {
            UnitChange::Arrived { register, word } => Some(Expectation::Register {
                register,
                word,
            }),
            UnitChange::Drained { register, word } => Some(Expectation::Sends { register, word }),
            _ => None,
        },
        Change::Loaded { address, word } | Change::Stored { address, word, .. } => {
            Some(Expectation::Memory { address, word })
        }
        Change::PutOut { word } => Some(Expectation::Output { word }),
        Change::StoppedAt { address } => Some(Expectation::Stops { address }),
        Change::Ended { standing } => Some(Expectation::Ends { standing }),
        _ => None,
    }
}

/// Whether one of the changes is what was expected.
fn is_met(changes: &[Change], expected: Expectation) -> bool
    ensures { result ≡ is_met changes.now expected }
{
    changes
        .iter()
        .any(|change| done_by(*change) == Some(expected))
}

/// How a part departs, if it does.
fn unmet(changes: &[Change], number: usize, part: &[u8]) -> Option<Departure>
    ensures { result ≡ unmet changes.now number (expectation_in (trimmed part.now)) }
{
    match expectation_in(trimmed(part)) {
        Some(expected) if is_met(changes, expected) => None,
        Some(expected) => Some(Departure::Missed {
            part: number,
            expected,
        }),
        None => Some(Departure::Unread(number)),
    }
}

/// The first expectation of a line that is not met.
fn first_unmet(changes: &[Change], content: &[u8]) -> Option<Departure>
    ensures { result ≡ first_unmet changes.now 1 (expected_parts content.now) }
{
    let colon = place_of(b':', content)?;
    let mut rest = &content[colon + 1..];
    let mut number = 1;
    while let Some((part, others)) = cut(b',', rest) {
        if let Some(why) = unmet(changes, number, part) {
            return Some(why);
        }
        rest = others;
        number += 1;
    }
    unmet(changes, number, rest)
}

/// What a line of a complete script must list of a change.
pub(crate) fn to_list(change: Change) -> Option<Expectation>
    ensures { result ≡ to_list change }
{
    match change {
        Change::Took { .. } => None,
        _ => done_by(change),
    }
}

/// Whether a line lists this.
fn is_listed(content: &[u8], done: &Expectation) -> bool
    ensures { result ≡ is_listed (expected_parts content.now) done.now }
{
    let Some(colon) = place_of(b':', content) else {
        return false;
    };
    let mut rest = &content[colon + 1..];
    while let Some((part, others)) = cut(b',', rest) {
        if expectation_in(trimmed(part)) == Some(*done) {
            return true;
        }
        rest = others;
    }
    expectation_in(trimmed(rest)) == Some(*done)
}

/// Whether a line does not list a change that a complete script must list.
pub(crate) fn lacks(content: &[u8], change: &Change) -> bool
    ensures { result ≡ lacks (expected_parts content.now) change.now }
{
    match to_list(*change) {
        Some(done) => !is_listed(content, &done),
        None => false,
    }
}

/// The first change that a line does not list.
fn first_lacking<'a>(changes: &'a [Change], content: &[u8]) -> Option<&'a Change>
    ensures { option_copied result ≡ find (lacks (expected_parts content.now)) changes.now }
{
    changes.iter().find(|change| lacks(content, change))
}

/// How a line of a complete script departs at the first change that it does not list, if it does.
fn first_not_listed(is_complete: bool, changes: &[Change], content: &[u8]) -> Option<Departure>
    ensures { result ≡ first_not_listed is_complete changes.now (expected_parts content.now) }
{
    if !is_complete {
        return None;
    }
    let change = first_lacking(changes, content)?;
    Some(Departure::NotListed(*change))
}

/// What an event changed, if it was allowed.
pub(crate) fn changes_of(told: &Told) -> &[Change] {
    match told {
        Told::Taken(changes) => changes,
        Told::Refused(_) => &[],
    }
}

/// The register that is waited for.
pub(crate) fn awaited(refusal: Refused) -> Option<Reg>
    ensures { result ≡ awaited refusal }
{
    match refusal {
        Refused::Waiting(register) | Refused::NotYet(register) | Refused::Unfinished(register) => {
            Some(register)
        }
        _ => None,
    }
}

/// Whether a refusal is the one that was expected.
fn is_refused_so(refusal: Refused, expected: &ExpectedRefusal) -> bool
    ensures { result ≡ is_refused_so refusal expected.now }
{
    u32::from(refusal.number_and_name().0) == expected.number
        && match (expected.register, awaited(refusal)) {
            (Some(register), Some(waited)) => waited.get() == register.get(),
            (register, _) => register.is_none(),
        }
}

/// How a line departs that expects a refusal, if it does.
fn refusal_unmet(expected: Option<ExpectedRefusal>, told: &Told) -> Option<Departure>
    ensures { result ≡ refusal_unmet expected (refusal_told told.now) }
{
    match (expected, told) {
        (None, _) => Some(Departure::Unread(1)),
        (Some(expected), Told::Refused(refusal)) if is_refused_so(*refusal, &expected) => None,
        (Some(expected), _) => Some(Departure::NotRefused(expected)),
    }
}

/// How a line departs by what is told of its event, if it does.
pub(crate) fn content_departs(is_complete: bool, content: &[u8], told: &Told) -> Option<Departure>
    ensures { result ≡ content_departs is_complete content.now told.now }
{
    if let Some(words) = behind(b"refused ", behind_colon(content)) {
        return refusal_unmet(refusal_words_in(words), told);
    }
    match told {
        Told::Refused(refusal) => Some(Departure::NotAllowed(*refusal)),
        Told::Taken(changes) => match first_unmet(changes, content) {
            Some(why) => Some(why),
            None => first_not_listed(is_complete, changes, content),
        },
    }
}
