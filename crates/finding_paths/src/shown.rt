//! The findings of a program's marks, each with a path that shows it.

ghost use Rattle.std.specs.Prelude.{◌≡◌, ◌<◌, ◌↔◌, true, [], List, length, IfOk, IfSome, IfNone};
ghost use Rattle.task_graph.specs.Soundness.{Sound};
ghost use Rattle.annotator.specs.Least.{IsLeast};
ghost use Rattle.finding_paths.specs.Witnesses.{NoneShorter};
ghost use Rattle.finding_paths.specs.Queries.{IsFoundBy, CanBeFound};
ghost use Rattle.finding_paths.specs.Shown.{IsFinding, IsShown, AreShown};

use crate::first::first_findings;
use crate::paths::{path_onward, path_to};
use crate::query::{Query, query_of};
use mark_checker::accept::accepts;
use mark_checker::finding::Finding;
use mask_certificate::certificate::Cert;
use std::alloc::{AllocError, Global};
use task_descriptor::program::Program;

/// A finding with a path that shows it.
#[derive(Debug, Drop)]
pub struct ShownFinding {
    /// The finding that the path shows.
    pub finding: Finding,
    /// The code indices that the path visits, in order; `None` where the rule concerns masks or targets alone.
    pub path: Option<Vec<u32>>,
}

/// The first findings of a program, each with the path that shows it, and the number of the others.
#[derive(Debug, Drop)]
pub struct ShownFindings {
    /// The first findings, in order of task, code index, rule and register.
    pub list: Vec<ShownFinding>,
    /// The number of findings after these.
    pub more: usize,
}

impl ShownFindings {
    /// Whether the program has no findings: the marks are sound.
    pub fn is_empty(&self) -> bool
        ensures { (result ≡ true) ↔ ((self.now.list.items ≡ []) × (self.now.more ≡ 0)) }
    {
        self.list.is_empty() && self.more == 0
    }
}

/// A shortest path of those that a query asks for, if there is one.
fn found(alloc: Global, program: &Program, query: &Query) -> Result<Option<Vec<u32>>, AllocError>
    requires { query.now.start < length program.now.code }
    ensures found { IfOk result (λ answer. IfSome answer (λ path. IsFoundBy program.now query.now path.items)) }
    ensures shortest { IfOk result (λ answer. IfSome answer (λ path. NoneShorter (IsFoundBy program.now query.now) path.items)) }
    ensures none { IfOk result (λ answer. IfNone answer (CanBeFound program.now query.now → ⊥)) }
{
    if query.onward {
        path_onward(alloc, program, query.start, &query.sought)
    } else {
        path_to(alloc, program, query.start, &query.sought)
    }
}

/// A shortest path that shows a finding, as the code indices that it visits: `None` exactly where the finding's
/// rule concerns masks or targets alone. The checker has the finding with the program's least certificate.
///
/// # Errors
///
/// `AllocError` where memory was refused.
pub fn path_of(
    alloc: Global,
    program: &Program,
    finding: &Finding,
) -> Result<Option<Vec<u32>>, AllocError>
    requires { IsFinding program.now finding.now }
    ensures { IfOk result (λ answer. IsShown program.now finding.now answer) }
{
    let Some(descriptor) = program.tasks().get(finding.task as usize) else {
        return Ok(None);
    };
    match query_of(descriptor.entry.get(), finding) {
        Some(query) => found(alloc, program, &query),
        None => Ok(None),
    }
}

/// The first findings of a program's marks, at most `most` of them, in order of task, code index, rule and
/// register, each with a shortest path that shows it, and the number of the others. They are findings with
/// `least`, the least certificate, so there is none exactly where the marks are sound.
///
/// Findings that are not shown are counted, task by task, without looking for a path: they take no more memory
/// than one task's findings.
///
/// # Errors
///
/// `AllocError` where memory was refused.
pub fn shown_findings(
    alloc: Global,
    program: &Program,
    least: &Cert,
    most: usize,
) -> Result<ShownFindings, AllocError>
    requires { IsLeast program.now least.now }
    ensures shown { IfOk result (λ shown. AreShown program.now most shown.list.items shown.more) }
    ensures sound { IfOk result (λ shown. ((shown.list.items ≡ []) × (shown.more ≡ 0)) ↔ Sound program.now) }
{
    // A program is well-formed, as its accessors state.
    let _ = program.tasks();
    let mut list = Vec::new(alloc);
    if accepts(program, least) {
        return Ok(ShownFindings { list, more: 0 });
    }
    let first = first_findings(alloc, program, least, most)?;
    for finding in &first.list {
        let path = path_of(alloc, program, finding)?;
        list.push(ShownFinding {
            finding: *finding,
            path,
        })?;
    }
    let more = first.count - list.len();
    Ok(ShownFindings { list, more })
}
