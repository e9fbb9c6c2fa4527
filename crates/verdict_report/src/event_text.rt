//! The reports on a script that is refused, and the text of a machine's answers to events.
ghost use Rattle.std.specs.Prelude.{◌≡◌, ◌++◌, OnOk, IfOk};
ghost use Rattle.std.specs.String.{string_bytes};
ghost use Rattle.verdict_report.specs.ReplayText.{answer_line, answers_text, script_refused};

use event_script::fault::ScriptFault;
use machine_model::event::Refused;
use report_texts::report::JobReport;
use std::alloc::{AllocError, Global};

/// The report of `replay` on a text that is no event script, for this fault.
///
/// # Errors
///
/// `AllocError` where memory was refused.
pub fn refused_script(alloc: Global, fault: ScriptFault) -> Result<JobReport, AllocError>
    ensures { IfOk result (λ report. report ≡ script_refused fault) }
{
    let mut text = String::new(alloc);
    writeln!(text, "script refused: {fault}")?;
    Ok(JobReport::new(text.into_bytes(), 1))
}

/// Adds the machine's answer to each event of a script, in order.
///
/// # Errors
///
/// `AllocError` where memory was refused; a part may have been added.
pub fn write_answers(text: &mut String, answers: &[Result<(), Refused>]) -> Result<(), AllocError>
    ensures { OnOk result (string_bytes text.new ≡ string_bytes text.old ++ answers_text answers.now) }
{
    for (index, answer) in answers.iter().enumerate() {
        write_answer(text, index + 1, *answer)?;
    }
    Ok(())
}

// Adds what a machine answers to the event of this number.
fn write_answer(
    text: &mut String,
    number: usize,
    answer: Result<(), Refused>,
) -> Result<(), AllocError>
    ensures { OnOk result (string_bytes text.new ≡ string_bytes text.old ++ answer_line (number, answer)) }
{
    match answer {
        Ok(()) => writeln!(text, "{number} ok"),
        Err(refusal) => writeln!(text, "{number} refused {refusal}"),
    }
}
