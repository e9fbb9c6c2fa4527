//! The job `print --listing`: a program's instructions, with their addresses, lines, tasks and masks.
ghost use Rattle.std.specs.Prelude.{◌≡◌, IfOk};
ghost use Rattle.annotated_asm.specs.ProgramText.{parse};
ghost use Rattle.report_texts.specs.PrintText.{IsListed};

use crate::report::{JobReport, refused_program};
use annotated_asm::assembler::assemble;
use annotated_asm::fault::AsmFault;
use annotated_asm::reading::source_map;
use annotator::certify::certify;
use canonical_text::print::write_create;
use mask_certificate::certificate::Cert;
use mips_instructions::number::{Place, RegSet};
use std::alloc::{AllocError, Global};
use task_descriptor::program::Program;

/// The report of `print --listing` on a program text: a row for each instruction of each task. The column `mask` has the
/// mask of the instruction in the least certificate: the registers that the task may still write from there on.
///
/// # Errors
///
/// `AllocError` where memory was refused.
pub fn listing(alloc: Global, text: &[u8]) -> Result<JobReport, AllocError>
    ensures { IfOk result (IsListed (parse text.now)) }
{
    match assemble(alloc, text) {
        Ok(program) => Ok(JobReport::new(table(alloc, text, &program)?, 0)),
        Err(AsmFault::OutOfMemory) => Err(AllocError),
        Err(fault) => refused_program(alloc, fault),
    }
}

/// The lines of the instructions of a text, index 0 first; none where it spells no program.
pub(crate) fn line_numbers(alloc: Global, text: &[u8]) -> Result<Vec<u32>, AllocError> {
    match source_map(alloc, text) {
        Ok(map) => map.code.iter().map(|position| position.line).collect(alloc),
        Err(AsmFault::OutOfMemory) => Err(AllocError),
        Err(_) => Ok(Vec::new(alloc)),
    }
}

// The table of a program with this text.
fn table(alloc: Global, text: &[u8], program: &Program) -> Result<Vec<u8>, AllocError> {
    let least = certify(alloc, program)?;
    let mut table = String::from_str(alloc, "index  address      line  task  mask\n")?;
    for (index, line) in line_numbers(alloc, text)?.iter().enumerate() {
        let index = u32::try_from(index).unwrap_or(u32::MAX);
        write_rows(&mut table, program, &least, index, *line)?;
    }
    Ok(table.into_bytes())
}

// Adds the rows of an instruction on this line: one for each task that has it, or one that no task has it.
fn write_rows(
    table: &mut String,
    program: &Program,
    least: &Cert,
    index: u32,
    line: u32,
) -> Result<(), AllocError> {
    let Some(place) = Place::new(index) else {
        return Ok(());
    };
    let address = program.address(place);
    let mut is_reached = false;
    for (number, task) in program.tasks().iter().enumerate() {
        let number = u32::try_from(number).unwrap_or(u32::MAX);
        if let Some(mask) = least.mask(number, index) {
            write_row(table, index, address, line, task.name.as_str(), mask)?;
            is_reached = true;
        }
    }
    if is_reached {
        return Ok(());
    }
    write_row(table, index, address, line, "-", RegSet::empty())
}

// Adds a row.
fn write_row(
    table: &mut String,
    index: u32,
    address: u32,
    line: u32,
    task: &str,
    mask: RegSet,
) -> Result<(), AllocError> {
    write!(table, "{index:>5}  0x{address:08x}  {line:>5}  {task}  ")?;
    write_create(table, mask)?;
    writeln!(table, "")
}
