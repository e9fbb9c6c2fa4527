//! The marks of a program that cost speed, in order.

ghost use Rattle.std.specs.Prelude.{◌≡◌, ◌<◌, ◌++◌, [], ◌∷◌, if◌then◌else◌, length, IfOk, OnOk};
ghost use Rattle.annotator.specs.Least.{IsLeast};
ghost use Rattle.finding_paths.specs.Costly.{IsCostly};
ghost use Rattle.finding_paths.specs.Candidates.{candidates, of_task, of_instruction, of_release, of_place, up_to, Picked};
ghost use Rattle.finding_paths.specs.Steps.{Adds, AreReaching, AreUnsent, marks_of};

use crate::last_update::is_not_forwarded;
use crate::mark::CostlyMark;
use crate::production::{is_release, spare};
use crate::reaching::{begins_unreached, created_by_all, reaching_tasks};
use crate::table::{is_sent_before, unsent_table};
use mask_certificate::certificate::Cert;
use mips_instructions::number::{REGISTERS, Reg};
use std::alloc::{AllocError, Global};
use task_descriptor::program::Program;

/// The marks of any well-formed program that cost speed, and code that no task reaches: what is reported of
/// tasks by task and register, of instructions by code index and register, and last where code that no task
/// reaches begins, by code index. `least` is the program's least certificate.
///
/// # Errors
///
/// `AllocError` where memory was refused.
pub fn costly_marks(
    alloc: Global,
    program: &Program,
    least: &Cert,
) -> Result<Vec<CostlyMark>, AllocError>
    requires { IsLeast program.now least.now }
    ensures { IfOk result (λ list. Picked (IsCostly program.now) (candidates program.now) list.items) }
{
    let reaching = reaching_tasks(alloc, program, least)?;
    let table = unsent_table(alloc, program)?;
    let mut list = Vec::new(alloc);
    add_of_tasks(program, least, &mut list)?;
    add_of_instructions(program, least, &reaching, &table, &mut list)?;
    add_unreached(program, &reaching, &mut list)?;
    Ok(list)
}

/// Adds a mark where it costs speed.
fn add(list: &mut Vec<CostlyMark>, mark: CostlyMark, is_costly: bool) -> Result<(), AllocError>
    ensures { OnOk result (list.new.items ≡ list.old.items ++ (if is_costly then mark ∷ [] else [])) }
{
    if is_costly {
        list.push(mark)?;
    }
    Ok(())
}

/// Adds what is reported of the tasks.
fn add_of_tasks(
    program: &Program,
    cert: &Cert,
    list: &mut Vec<CostlyMark>,
) -> Result<(), AllocError>
    requires { IsLeast program.now cert.now }
    ensures { OnOk result (Adds program.now (up_to of_task (length program.now.tasks)) list.old.items list.new.items) }
{
    for task in 0..program.tasks().len() {
        add_of_task(program, cert, task as u32, list)?;
    }
    Ok(())
}

/// Adds the registers of a task's create mask that it never produces.
fn add_of_task(
    program: &Program,
    cert: &Cert,
    task: u32,
    list: &mut Vec<CostlyMark>,
) -> Result<(), AllocError>
    requires least { IsLeast program.now cert.now }
    requires there { task < length program.now.tasks }
    ensures { OnOk result (Adds program.now (of_task task) list.old.items list.new.items) }
{
    let spare = spare(program, cert, task);
    for number in 0..REGISTERS as u8 {
        let Some(register) = Reg::new(number) else {
            unreachable!()
        };
        let is_costly = spare.has(register);
        add(
            list,
            CostlyMark::NeverProduced { task, register },
            is_costly,
        )?;
    }
    Ok(())
}

/// Adds what is reported of the instructions.
fn add_of_instructions(
    program: &Program,
    cert: &Cert,
    reaching: &[Option<u32>],
    table: &[Vec<bool>],
    list: &mut Vec<CostlyMark>,
) -> Result<(), AllocError>
    requires least { IsLeast program.now cert.now }
    requires reaching { AreReaching program.now (length program.now.tasks) reaching.now }
    requires table { AreUnsent program.now 34 (marks_of table.now) }
    ensures { OnOk result (Adds program.now (up_to of_instruction (length program.now.code)) list.old.items list.new.items) }
{
    let common = created_by_all(program);
    for i in 0..program.code().len() {
        let index = i as u32;
        let is_costly = is_not_forwarded(program, cert, reaching, common, index);
        add(list, CostlyMark::NotForwarded { index }, is_costly)?;
        add_sent_before(program, reaching, table, index, list)?;
    }
    Ok(())
}

/// Adds the registers that the instruction releases though they were sent before.
fn add_sent_before(
    program: &Program,
    reaching: &[Option<u32>],
    table: &[Vec<bool>],
    index: u32,
    list: &mut Vec<CostlyMark>,
) -> Result<(), AllocError>
    requires reaching { AreReaching program.now (length program.now.tasks) reaching.now }
    requires table { AreUnsent program.now 34 (marks_of table.now) }
    requires there { index < length program.now.code }
    ensures { OnOk result (Adds program.now (of_release index) list.old.items list.new.items) }
{
    if !is_release(&program.code()[index as usize].op) {
        return Ok(());
    }
    for number in 0..REGISTERS as u8 {
        let Some(register) = Reg::new(number) else {
            unreachable!()
        };
        let is_costly = is_sent_before(program, reaching, table, index, register);
        add(list, CostlyMark::SentBefore { index, register }, is_costly)?;
    }
    Ok(())
}

/// Adds where code that no task reaches begins.
fn add_unreached(
    program: &Program,
    reaching: &[Option<u32>],
    list: &mut Vec<CostlyMark>,
) -> Result<(), AllocError>
    requires { AreReaching program.now (length program.now.tasks) reaching.now }
    ensures { OnOk result (Adds program.now (up_to of_place (length program.now.code)) list.old.items list.new.items) }
{
    for i in 0..program.code().len() {
        let index = i as u32;
        let is_costly = begins_unreached(program, reaching, index);
        add(list, CostlyMark::Unreached { index }, is_costly)?;
    }
    Ok(())
}
