//! The checker's first finding, with the path that shows it.

use annotated_asm::position::Position;
use annotator::certify::certify;
use event_script::writing::task_name;
use event_trace::text::write_place;
use finding_paths::shown::shown_findings;
use mark_checker::finding::Finding;
use std::alloc::{AllocError, Global};
use task_descriptor::program::Program;

/// How many places of a path are named.
const MOST_PLACES: usize = 12;

/// Adds what the checker says first of a program, if it finds something, and the path that shows it.
pub(crate) fn write_first_finding(
    alloc: Global,
    text: &mut String,
    program: &Program,
    places: &[Position],
) -> Result<(), AllocError> {
    let least = certify(alloc, program)?;
    let first = shown_findings(alloc, program, &least, 1)?;
    for shown in &first.list {
        text.push_str("the first of them: ")?;
        write_finding(text, program, places, &shown.finding)?;
        if let Some(path) = &shown.path {
            write_path(text, places, path.as_slice())?;
        }
    }
    Ok(())
}

// Where a finding is, of which task, and the rule that it breaks, with which register.
fn write_finding(
    text: &mut String,
    program: &Program,
    places: &[Position],
    finding: &Finding,
) -> Result<(), AllocError> {
    write_place(text, places, finding.index)?;
    let task = task_name(program, finding.task);
    let rule = finding.rule.number();
    write!(text, " of task {task}, rule {rule}")?;
    if let Some(register) = finding.reg {
        let number = register.get();
        write!(text, ", ${number}")?;
    }
    writeln!(text, "")
}

fn write_path(text: &mut String, places: &[Position], path: &[u32]) -> Result<(), AllocError> {
    text.push_str("its path: ")?;
    for (count, index) in path.iter().take(MOST_PLACES).enumerate() {
        if count > 0 {
            text.push_str(", ")?;
        }
        write_place(text, places, *index)?;
    }
    let left_out = path.len().saturating_sub(MOST_PLACES);
    if left_out > 0 {
        write!(text, ", and {left_out} more")?;
    }
    writeln!(
        text,
        "; perhaps no run takes it, or no task reads a wrong value after it"
    )
}
