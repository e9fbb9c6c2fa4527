//! The reports on a certificate that is refused, and the verdicts of the checker.
ghost use Rattle.std.specs.Prelude.{◌≡◌, ◌++◌, slice_get, OnOk, IfOk};
ghost use Rattle.std.specs.String.{string_bytes};
ghost use Rattle.report_texts.specs.VerdictTexts.{certificate_refused, finding_text, name_at, program_accepted, program_found, register_text};
ghost use Rattle.std.specs.List.{flat_map};

use crate::report::JobReport;
use mark_checker::finding::Finding;
use mask_certificate::fault::CertFault;
use mips_instructions::number::Reg;
use std::alloc::{AllocError, Global};
use task_descriptor::program::Program;

/// The report of every job with a certificate on a text that spells none, for this fault; its status is 1.
///
/// # Errors
///
/// `AllocError` where memory was refused.
pub fn refused_certificate(alloc: Global, fault: CertFault) -> Result<JobReport, AllocError>
    ensures { IfOk result (λ report. report ≡ certificate_refused fault) }
{
    let mut text = String::new(alloc);
    writeln!(text, "certificate refused: {fault}")?;
    Ok(JobReport::new(text.into_bytes(), 1))
}

// The name of the task of this number.
fn task_name(program: &Program, task: u32) -> &str
    ensures { result.now ≡ name_at (slice_get program.now.tasks task) }
{
    match program.tasks().get(task as usize) {
        Some(descriptor) => descriptor.name.as_str(),
        None => "",
    }
}

// Adds the register of a finding, or `-` where its rule has none.
fn write_register(text: &mut String, register: Option<Reg>) -> Result<(), AllocError>
    ensures { OnOk result (string_bytes text.new ≡ string_bytes text.old ++ register_text register) }
{
    match register {
        Some(register) => {
            let number = register.get();
            write!(text, "${number}")
        }
        None => write!(text, "-"),
    }
}

// Adds one finding: the task, the index, the rule and the register.
fn write_finding(text: &mut String, program: &Program, finding: &Finding) -> Result<(), AllocError>
    ensures { OnOk result (string_bytes text.new ≡ string_bytes text.old ++ finding_text program.now finding.now) }
{
    let name = task_name(program, finding.task);
    let index = finding.index;
    let rule = finding.rule.number();
    write!(text, "{name} {index} rule {rule} ")?;
    write_register(text, finding.reg)?;
    writeln!(text, "")
}

// Adds findings, one on a line.
fn write_findings(
    text: &mut String,
    program: &Program,
    findings: &[Finding],
) -> Result<(), AllocError>
    ensures { OnOk result (string_bytes text.new ≡ string_bytes text.old ++ flat_map (finding_text program.now) findings.now) }
{
    for finding in findings {
        write_finding(text, program, finding)?;
    }
    Ok(())
}

/// The report of every job with a certificate on findings of the checker, of which there is at least one; its status is 1.
///
/// # Errors
///
/// `AllocError` where memory was refused.
pub fn found_program(
    alloc: Global,
    program: &Program,
    findings: &[Finding],
) -> Result<JobReport, AllocError>
    ensures { IfOk result (λ report. report ≡ program_found program.now findings.now) }
{
    let mut text = String::new(alloc);
    write_findings(&mut text, program, findings)?;
    let count = findings.len();
    writeln!(text, "refused {count}")?;
    Ok(JobReport::new(text.into_bytes(), 1))
}

/// The report of `check` on a program without findings; its status is 0.
///
/// # Errors
///
/// `AllocError` where memory was refused.
pub fn accepted_program(alloc: Global, program: &Program) -> Result<JobReport, AllocError>
    ensures { IfOk result (λ report. report ≡ program_accepted program.now) }
{
    let tasks = program.tasks().len();
    let instructions = program.code().len();
    let mut text = String::new(alloc);
    writeln!(text, "accepted {tasks} tasks {instructions} instructions")?;
    Ok(JobReport::new(text.into_bytes(), 0))
}
