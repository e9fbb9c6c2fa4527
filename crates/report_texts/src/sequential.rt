//! The job `seq`.
ghost use Rattle.std.specs.Prelude.{◌≡◌, IfOk};
ghost use Rattle.report_texts.specs.SeqText.{run_report, seq_text};

use crate::plain_text::{closing_status_of, write_closing, write_words};
use crate::report::{JobReport, refused_program};
use annotated_asm::assembler::assemble;
use annotated_asm::fault::AsmFault;
use limits::ranges::Budget;
use mips_plain::outcome::OutOfMemory;
use std::alloc::{AllocError, Global};
use task_descriptor::program::Program;

/// The report of `seq` on a program text: the output words and the end of a sequential run of at most `budget` instructions.
///
/// # Errors
///
/// `AllocError` where memory was refused.
pub fn seq(alloc: Global, budget: Budget, text: &[u8]) -> Result<JobReport, AllocError>
    ensures { IfOk result (λ report. report ≡ seq_text budget text.now) }
{
    match assemble(alloc, text) {
        Ok(program) => run(alloc, budget, &program),
        Err(AsmFault::OutOfMemory) => Err(AllocError),
        Err(fault) => refused_program(alloc, fault),
    }
}

// What `seq` writes for a program.
fn run(alloc: Global, budget: Budget, program: &Program) -> Result<JobReport, AllocError>
    ensures { IfOk result (λ report. report ≡ run_report budget program.now) }
{
    let mut machine = program.plain(alloc).map_err(|_: OutOfMemory| AllocError)?;
    machine
        .run(u64::from(budget.get()))
        .map_err(|_: OutOfMemory| AllocError)?;
    let mut text = String::new(alloc);
    write_words(&mut text, machine.output())?;
    let outcome = machine.outcome();
    write_closing(&mut text, outcome, machine.count())?;
    Ok(JobReport::new(text.into_bytes(), closing_status_of(outcome)))
}
