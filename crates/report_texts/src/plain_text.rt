//! The text of a run of the sequential machine.
ghost use Rattle.std.specs.Prelude.{◌≡◌, ◌++◌, OnOk};
ghost use Rattle.std.specs.String.{string_bytes};
ghost use Rattle.report_texts.specs.OutputTexts.{words_text, closing_text, closing_status};

use mips_plain::outcome::Outcome;
use std::alloc::AllocError;

/// Adds output words to a text, unsigned and decimal, each on a line of its own.
///
/// # Errors
///
/// `AllocError` where memory was refused; a part may have been added.
pub fn write_words(text: &mut String, words: &[u32]) -> Result<(), AllocError>
    ensures { OnOk result (string_bytes text.new ≡ string_bytes text.old ++ words_text words.now) }
{
    for word in words {
        writeln!(text, "{word}")?;
    }
    Ok(())
}

/// Adds the last line on a sequential run of `count` instructions.
///
/// # Errors
///
/// `AllocError` where memory was refused; a part may have been added.
pub fn write_closing(text: &mut String, outcome: Outcome, count: u64) -> Result<(), AllocError>
    ensures { OnOk result (string_bytes text.new ≡ string_bytes text.old ++ closing_text outcome count) }
{
    match outcome {
        Outcome::Running => writeln!(text, "out of budget after {count} instructions"),
        Outcome::Halted => writeln!(text, "halted after {count} instructions"),
        Outcome::Trapped(trap) => writeln!(text, "trapped {trap} after {count} instructions"),
    }
}

/// The exit status for a sequential run: 0 if it halted, 1 if it trapped, 3 if it is out of budget.
pub fn closing_status_of(outcome: Outcome) -> u8
    ensures { result ≡ closing_status outcome }
{
    match outcome {
        Outcome::Running => 3,
        Outcome::Halted => 0,
        Outcome::Trapped(_) => 1,
    }
}
