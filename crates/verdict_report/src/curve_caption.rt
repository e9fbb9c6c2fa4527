//! The caption above the picture of a curve.

use jobs::job::Prediction;
use run_picture::title::write_name;
use std::alloc::AllocError;
use step_picture::predictor_text::write_predictor;

/// Writes the program, if it has a name, the budget, and the predictor: `program: count.s; budget: 1000 events;
/// predictor: first`.
pub(crate) fn write_caption(
    text: &mut String,
    name: &str,
    budget: u32,
    predict: &Prediction,
) -> Result<(), AllocError> {
    if !name.is_empty() {
        text.push_str("program: ")?;
        write_name(text, name.as_bytes())?;
        text.push_str("; ")?;
    }
    write!(text, "budget: {budget} events; predictor: ")?;
    write_predictor(text, predict)
}
