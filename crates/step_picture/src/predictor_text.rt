//! The name of a predictor.

use jobs::job::Prediction;
use std::alloc::AllocError;

/// How many numbers of a list a picture names.
const MOST_NAMED: usize = 24;

/// Adds the name of a predictor; of a long list, the first numbers.
///
/// # Errors
///
/// `AllocError` where memory was refused; a part may have been added.
pub fn write_predictor(text: &mut String, predict: &Prediction) -> Result<(), AllocError> {
    let numbers = match predict {
        Prediction::First => return text.push_str("first"),
        Prediction::Last => return text.push_str("last"),
        Prediction::List(list) => list.as_slice(),
    };
    let shown = &numbers[..numbers.len().min(MOST_NAMED)];
    write_numbers(text, shown)?;
    if numbers.len() > MOST_NAMED {
        text.push_str(",&#8230;")?;
    }
    Ok(())
}

/// Writes a predictor as the command line takes it: `first`, `last`, or the whole list. An error means that memory was refused.
pub fn write_whole(text: &mut String, predict: &Prediction) -> Result<(), AllocError> {
    match predict {
        Prediction::First => text.push_str("first"),
        Prediction::Last => text.push_str("last"),
        Prediction::List(list) => write_numbers(text, list.as_slice()),
    }
}

/// Writes numbers, separated by commas.
fn write_numbers(text: &mut String, numbers: &[u32]) -> Result<(), AllocError> {
    for (index, number) in numbers.iter().enumerate() {
        let comma = if index == 0 { "" } else { "," };
        write!(text, "{comma}{number}")?;
    }
    Ok(())
}
