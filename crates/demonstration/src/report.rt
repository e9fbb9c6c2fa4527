//! The job `demonstrate`.

ghost use Rattle.std.specs.Prelude.{◌≡◌, ◌≤◌, ◌≢◌, IfOk, IfSome};
ghost use Rattle.task_graph.specs.Soundness.{Sound};
ghost use Rattle.demonstration.specs.Found.{IsDemonstration, IsNoneFound};
ghost use Rattle.demonstration.specs.DemonstrateText.{FindsNothing, IsDemonstrateReport, IsDemonstrated, TellsOfRun};

use crate::first_finding::write_first_finding;
use crate::harm_text::write_harm;
use crate::picture::drawn;
use crate::search;
use crate::search::Demonstration;
use annotated_asm::assembler::assemble;
use annotated_asm::fault::AsmFault;
use annotated_asm::position::Position;
use annotator::soundness::is_sound;
use event_script::writing::write_event;
use event_trace::places::places;
use jobs::job::DemonstrateEmit;
use limits::ranges::{Budget, Units};
use mips_plain::outcome::OutOfMemory;
use report_texts::report::{JobReport, refused_program};
use report_texts::unlisted::unlisted_exit;
use std::alloc::{AllocError, Global};
use task_descriptor::program::Program;

/// The report of `demonstrate` on a program text: for a program with wrong marks, a run on 2 units, on 3, and so on, at
/// most `units`, that shows the harm, if one is found among runs of up to `steps` events. The run is written in words or
/// drawn; all else is in words. The status is 0 where the marks are right, 1 where a run is shown or the text is refused,
/// and 3 where none is found.
///
/// # Errors
///
/// `AllocError` where memory was refused.
pub fn demonstrate(
    alloc: Global,
    units: Units,
    steps: Budget,
    emit: DemonstrateEmit,
    text: &[u8],
) -> Result<JobReport, AllocError>
    ensures { IfOk result (IsDemonstrateReport units steps text.now) }
{
    match assemble(alloc, text) {
        Ok(program) => {
            let places = places(alloc, text)?;
            demonstrate_program(alloc, units, steps, emit, text, &places, &program)
        }
        Err(AsmFault::OutOfMemory) => Err(AllocError),
        Err(fault) => refused_program(alloc, fault),
    }
}

/// What is written of a program.
fn demonstrate_program(
    alloc: Global,
    units: Units,
    steps: Budget,
    emit: DemonstrateEmit,
    text: &[u8],
    places: &[Position],
    program: &Program,
) -> Result<JobReport, AllocError>
    ensures { IfOk result (IsDemonstrated units steps program.now) }
{
    if is_sound(alloc, program)? {
        return Ok(JobReport::new(nothing_wrong(alloc, text)?, 0));
    }
    let found = search::demonstrate(alloc, program, units.get(), steps.get()).map_err(
        |_: OutOfMemory| AllocError,
    )?;
    match found {
        Some(found) => tell_of_run(alloc, units, emit, places, program, &found),
        None => nothing_found(alloc, units, steps, places, program),
    }
}

/// What is written of a text whose marks are right; where its run ends as unlisted, that it does, too.
fn nothing_wrong(alloc: Global, text: &[u8]) -> Result<Vec<u8>, AllocError> {
    let mut said = String::from_str(alloc, "the marks are right: no run shows anything\n")?;
    if let Some(exit) = unlisted_exit(alloc, text)? {
        writeln!(said, "but the run ends as unlisted: {exit}")?;
    }
    Ok(said.into_bytes())
}

/// What is written where no run is found.
fn nothing_found(
    alloc: Global,
    units: Units,
    steps: Budget,
    places: &[Position],
    program: &Program,
) -> Result<JobReport, AllocError>
    requires { IsNoneFound program.now units steps }
    ensures { IfOk result (FindsNothing units steps program.now) }
{
    let mut text = String::new(alloc);
    let (units, steps) = (units.get(), steps.get());
    let unit_s = plural(units);
    let event_s = plural(steps);
    writeln!(
        text,
        "no run found on up to {units} unit{unit_s}, of up to {steps} event{event_s}; explain reports which marks are wrong"
    )?;
    write_first_finding(alloc, &mut text, program, places)?;
    Ok(JobReport::new(text.into_bytes(), 3))
}

/// What is written of a run that shows something.
fn tell_of_run(
    alloc: Global,
    units: Units,
    emit: DemonstrateEmit,
    places: &[Position],
    program: &Program,
    found: &Demonstration,
) -> Result<JobReport, AllocError>
    requires shown { IsDemonstration program.now found.now }
    requires few { found.now.units ≤ units }
    ensures { IfOk result (TellsOfRun units program.now) }
{
    // Only the contract needs how many units there may be.
    let _ = units;
    let text = match emit {
        DemonstrateEmit::Events => shown(alloc, places, program, found)?,
        DemonstrateEmit::Picture => drawn(alloc, places, program, found)?,
    };
    Ok(JobReport::new(text.into_bytes(), 1))
}

/// A run that shows something, in words: how many units the machine has, the events, one on a line, and what they show.
fn shown(
    alloc: Global,
    places: &[Position],
    program: &Program,
    found: &Demonstration,
) -> Result<String, AllocError> {
    let mut text = String::new(alloc);
    let units = found.units;
    let s = plural(units);
    writeln!(text, "on {units} unit{s}:")?;
    for event in &found.events {
        write_event(&mut text, program, *event)?;
        writeln!(text, "")?;
    }
    write_harm(alloc, &mut text, program, places, &found.evidence)?;
    writeln!(text, "")?;
    Ok(text)
}

fn plural(count: u32) -> &'static str {
    if count == 1 { "" } else { "s" }
}
