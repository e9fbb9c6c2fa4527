//! The first findings of a program, and how many there are.

ghost use Rattle.std.specs.Prelude.{◌≡◌, ◌≤◌, ◌-◌, ◌++◌, take, length, IfOk, OnOk};
ghost use Rattle.mark_checker.specs.Rules.{all_rules};
ghost use Rattle.annotator.specs.Least.{IsLeast};

use mark_checker::check::check_surveyed;
use mark_checker::finding::Finding;
use mark_checker::survey::Surveyed;
use mask_certificate::certificate::Cert;
use std::alloc::{AllocError, Global};
use task_descriptor::program::Program;

/// The first findings of a program, in the checker's order, and how many there are.
#[derive(Drop)]
pub(crate) struct FirstFindings {
    /// The first findings.
    pub(crate) list: Vec<Finding>,
    /// How many findings there are, including the first ones.
    pub(crate) count: usize,
}

/// The first findings of a program with its least certificate, at most `most` of them, and how many there
/// are. It holds the findings of one task at a time.
// Not inlined: a caller that needs no finding does not pay for the room on the stack.
#[inline(never)]
pub(crate) fn first_findings(
    alloc: Global,
    program: &Program,
    cert: &Cert,
    most: usize,
) -> Result<FirstFindings, AllocError>
    requires { IsLeast program.now cert.now }
    ensures list { IfOk result (λ first. first.list.items ≡ take most (all_rules program.now cert.now)) }
    ensures count { IfOk result (λ first. first.count ≡ length (all_rules program.now cert.now)) }
{
    let surveyed = Surveyed::new(alloc, program)?;
    let survey = surveyed.survey();
    let mut list = Vec::new(alloc);
    let mut count = 0;
    for task in 0..program.tasks().len() {
        let found = check_surveyed(alloc, &survey, cert, task as u32)?;
        append_first(&mut list, &found, most)?;
        count += found.len();
    }
    Ok(FirstFindings { list, count })
}

/// Appends the first of some findings, as many as there is room for in a list of at most `most`.
fn append_first(list: &mut Vec<Finding>, found: &[Finding], most: usize) -> Result<(), AllocError>
    requires { length list.old.items ≤ most }
    ensures { OnOk result (list.new.items ≡ list.old.items ++ take (most - length list.old.items) found.now) }
{
    let room = most - list.len();
    list.extend_from_slice(&found[..room.min(found.len())])
}
