//! Writing the text of an event script.

ghost use Rattle.std.specs.Prelude.{◌≡◌, ◌++◌, ◌<◌, replicate, slice_get, Ok, IfOk, OnOk};
ghost use Rattle.std.specs.List.{All, concat};
ghost use Rattle.std.specs.String.{string_bytes};
ghost use Rattle.machine_model.specs.Runs.{events_of};
ghost use Rattle.event_script.specs.EventScript.{script_of};
ghost use Rattle.event_script.specs.ScriptText.{IsTold, NamesRegister, event_text, line_text, name_at, script_text};

use crate::laws::written_is_read;
use machine_model::event::{Event, EventRun};
use std::alloc::{AllocError, Global};
use task_descriptor::program::Program;

/// The name of task `task`, counted from 0; empty where there is no such task.
pub fn task_name(program: &Program, task: u32) -> &str
    ensures { result.now ≡ name_at (slice_get program.now.tasks task) }
{
    match program.tasks().get(task as usize) {
        Some(descriptor) => descriptor.name.as_str(),
        None => "",
    }
}

/// Appends the line of an event to a text, without its LF.
///
/// # Errors
///
/// `AllocError` where memory was refused; what the text holds then is not known.
pub fn write_event(text: &mut String, program: &Program, event: Event) -> Result<(), AllocError>
    ensures text { OnOk result (string_bytes text.new ≡ string_bytes text.old ++ event_text program.now event) }
    ensures register { OnOk result (NamesRegister event) }
{
    match event {
        Event::Assign(task) => {
            let name = task_name(program, task);
            write!(text, "assign {name}")
        }
        Event::Exec(k) => write!(text, "exec {k}"),
        Event::Transfer(k, register) => {
            let number = register.get();
            write!(text, "transfer {k} ${number}")
        }
        Event::Drain(k, register) => {
            let number = register.get();
            write!(text, "drain {k} ${number}")
        }
        Event::Squash(k) => write!(text, "squash {k}"),
        Event::Retire => write!(text, "retire"),
        Event::Fault => write!(text, "fault"),
        Event::Drop(k) => write!(text, "drop {k}"),
    }
}

// Adds an event with its LF.
fn write_line(text: &mut String, program: &Program, event: Event) -> Result<(), AllocError>
    ensures text { OnOk result (string_bytes text.new ≡ string_bytes text.old ++ line_text program.now event) }
    ensures register { OnOk result (NamesRegister event) }
{
    write_event(text, program, event)?;
    writeln!(text, "")
}

// Adds a line the given number of times.
fn repeat_line(text: &mut String, line: &str, times: u32) -> Result<(), AllocError>
    ensures { OnOk result (string_bytes text.new ≡ string_bytes text.old ++ concat (replicate times line.now)) }
{
    for _ in 0..times {
        text.push_str(line)?;
    }
    Ok(())
}

/// The script of a history for its program: each event on a line of its own, as often as its run states. It is
/// read as these events, if they are of the program's tasks and of positions up to 999, as a machine's are.
///
/// # Errors
///
/// `AllocError` where memory was refused.
pub fn write(alloc: Global, runs: &[EventRun], program: &Program) -> Result<Vec<u8>, AllocError>
    ensures text { IfOk result (λ text. text.items ≡ script_text program.now (events_of runs.now)) }
    ensures read { IfOk result (λ text. All (IsTold program.now) (events_of runs.now)
        → script_of program.now text.items ≡ Ok (events_of runs.now)) }
{
    written_is_read(program);
    let mut text = String::new(alloc);
    let mut line = String::new(alloc);
    for run in runs {
        line.clear();
        write_line(&mut line, program, run.event)?;
        repeat_line(&mut text, line.as_str(), run.count)?;
    }
    Ok(text.into_bytes())
}
