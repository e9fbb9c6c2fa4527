//! The header of a dump: what the numbers mean, and which signals there are.

ghost use Rattle.std.specs.Prelude.{◌<◌, ◌≤◌};

use std::alloc::AllocError;
use task_descriptor::program::Program;

/// What the numbers mean.
const LEGEND: &str = "$version multiscalar $end
$comment one unit of time is one step, which step numbers from 1; a value is that with which the step begins $end
$comment state: 0 free, 1 inside its task, 2 stopped $end
$comment waits: 0 no, 1 needs a register that is not sent, 2 needs a register on its way, 3 needs to be the head, 4 has to pass a register on, 5 has finished $end
$comment arrived, sent: bit r is register r, 32 is HI, 33 is LO $end
";

/// The signals of the ring: T, C and H are those of a report.
const RING: &str = "$timescale 1 ns $end
$scope module ring $end
$var integer 32 0 head $end
$var integer 32 1 T $end
$var integer 32 2 C $end
$var integer 32 3 H $end
$var integer 32 4 words $end
$var integer 32 5 word $end
$var integer 32 step step $end
";

/// How many signals the ring has that are numbered.
pub(crate) const RING_SIGNALS: usize = 6;

/// How many numbered signals a unit has, its task the first of them.
pub(crate) const PER_UNIT: usize = 7;

/// Adds the header of a dump for a program on `units` units. The identifier of a signal is its number, but for the step and the names of tasks.
pub(crate) fn write_header(
    text: &mut String,
    program: &Program,
    units: u32,
) -> Result<(), AllocError>
    requires { units ≤ 16 }
{
    text.push_str(LEGEND)?;
    write_tasks(text, program)?;
    text.push_str(RING)?;
    for unit in 0..units {
        write_unit(text, unit)?;
    }
    text.push_str("$upscope $end\n$enddefinitions $end\n")
}

/// Adds the names of the tasks.
fn write_tasks(text: &mut String, program: &Program) -> Result<(), AllocError> {
    for (task, descriptor) in program.tasks().iter().enumerate() {
        let name = descriptor.name.as_str();
        writeln!(text, "$comment task {task} is {name} $end")?;
    }
    Ok(())
}

/// Adds the signals of a unit.
fn write_unit(text: &mut String, unit: u32) -> Result<(), AllocError>
    requires { unit < 16 }
{
    let first = 6 + 7 * unit;
    writeln!(text, "$scope module unit{unit} $end")?;
    write_signal(text, "integer 32", first, unit, "task")?;
    write_signal(text, "integer 32", first + 1, unit, "index")?;
    write_signal(text, "wire 2", first + 2, unit, "state")?;
    write_signal(text, "wire 3", first + 3, unit, "waits")?;
    write_signal(text, "integer 32", first + 4, unit, "register")?;
    write_signal(text, "wire 34", first + 5, unit, "arrived")?;
    write_signal(text, "wire 34", first + 6, unit, "sent")?;
    writeln!(text, "$var string 1 name{unit} unit{unit}_name $end")?;
    text.push_str("$upscope $end\n")
}

/// Adds a signal of a unit: its kind with its width, its number, and its name, which begins with the unit, since viewers
/// show the name alone.
fn write_signal(
    text: &mut String,
    kind: &str,
    signal: u32,
    unit: u32,
    name: &str,
) -> Result<(), AllocError> {
    writeln!(text, "$var {kind} {signal} unit{unit}_{name} $end")
}
