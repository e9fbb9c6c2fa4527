//! What changes at a time.

use crate::header::{PER_UNIT, RING_SIGNALS};
use std::alloc::AllocError;
use task_descriptor::program::Program;

/// Adds a time, its step, and each signal that shows something else than before, in binary digits; z is no number. A task is
/// also shown by its name. At time 0 all signals have their first values.
pub(crate) fn write_time(
    text: &mut String,
    program: &Program,
    time: u32,
    before: &[Option<u64>],
    shown: &[Option<u64>],
) -> Result<(), AllocError> {
    writeln!(text, "#{time}")?;
    if time == 0 {
        text.push_str("$dumpvars\n")?;
    }
    let step = u64::from(time) + 1;
    writeln!(text, "b{step:b} step")?;
    for (signal, now) in shown.iter().enumerate() {
        if before.get(signal).is_some_and(|old| *old == *now) {
            continue;
        }
        match *now {
            None => writeln!(text, "bz {signal}")?,
            Some(number) => writeln!(text, "b{number:b} {signal}")?,
        }
        if signal >= RING_SIGNALS && (signal - RING_SIGNALS) % PER_UNIT == 0 {
            write_name(text, program, (signal - RING_SIGNALS) / PER_UNIT, *now)?;
        }
    }
    if time == 0 {
        text.push_str("$end\n")?;
    }
    Ok(())
}

/// Adds the name of the task of a unit; `-` where it has none.
fn write_name(
    text: &mut String,
    program: &Program,
    unit: usize,
    task: Option<u64>,
) -> Result<(), AllocError> {
    let number = task.unwrap_or(u64::MAX);
    let name = match program.tasks().get(number as usize) {
        Some(descriptor) => descriptor.name.as_str(),
        None => "-",
    };
    writeln!(text, "s{name} name{unit}")
}
