//! The checker's verdict by several workers.

ghost use Rattle.std.specs.Prelude.{◌≡◌, ◌↔◌, ◌+◌, ◌<◌, ◌^◌, ◌⊎◌, [], true, length, OnOk, IfOk, IfErr, Err};
ghost use Rattle.std.specs.List.{All};
ghost use Rattle.mark_checker.specs.Rules.{all_rules};
ghost use Rattle.parallel_check.specs.Shares.{MayStop};

use crate::fault::ShareFault;
use crate::found::{Found, Share, by_task, fill, in_order};
use crate::gate::CheckGate;
use crate::numbers::{End, Numbers};
use limits::ranges::{MOST_WORKERS, Workers};
use mark_checker::finding::{Finding, Findings, Verdict};
use mark_checker::survey::{Survey, Surveyed};
use mask_certificate::certificate::Cert;
use std::alloc::{AllocError, Global};
use std::thread;
use std::thread::Threads;
use task_descriptor::program::Program;

/// The findings of all tasks, task 0 first, by several workers: for every number of workers and every gate the
/// same as `mark_checker::check::verdict` gives. One worker works without a thread of its own.
///
/// # Errors
///
/// `Workers` exactly where the number of workers is not 1 to 16; `OutOfMemory` where memory was refused.
pub fn verdict_shared<G: CheckGate, R: Threads + Sync>(
    rt: &R,
    alloc: Global,
    program: &Program,
    cert: &Cert,
    workers: u32,
    gate: &G,
) -> Result<Verdict, ShareFault>
    ensures verdict { IfOk result (λ v. v.findings ≡ all_rules program.now cert.now) }
    ensures workers { (result ≡ Err ShareFault.Workers) ↔ ((workers ≡ 0) ⊎ (16 < workers)) }
{
    if workers == 0 || workers > MOST_WORKERS {
        return Err(ShareFault::Workers);
    }
    let workers = Workers::of(workers);
    Ok(verdict_by(rt, alloc, program, cert, workers, gate)?)
}

/// The findings of all tasks, as `verdict_shared` gives them, by 1 to 16 workers.
///
/// # Errors
///
/// `AllocError` where memory was refused.
pub fn verdict_by<G: CheckGate, R: Threads + Sync>(
    rt: &R,
    alloc: Global,
    program: &Program,
    cert: &Cert,
    workers: Workers,
    gate: &G,
) -> Result<Verdict, AllocError>
    ensures { IfOk result (λ v. v.findings ≡ all_rules program.now cert.now) }
{
    let surveyed = Surveyed::new(alloc, program)?;
    let found = found_by(rt, alloc, &surveyed.survey(), cert, workers.get(), gate)?;
    Ok(Verdict {
        findings: Findings::new(found),
    })
}

/// Whether the rules find nothing, by several workers: for every number of workers and every gate the answer of
/// `mark_checker::accept::accepts`.
///
/// # Errors
///
/// `Workers` exactly where the number of workers is not 1 to 16; `OutOfMemory` where memory was refused.
pub fn accepts_shared<G: CheckGate, R: Threads + Sync>(
    rt: &R,
    alloc: Global,
    program: &Program,
    cert: &Cert,
    workers: u32,
    gate: &G,
) -> Result<bool, ShareFault>
    ensures accepts { IfOk result (λ yes. (yes ≡ true) ↔ (all_rules program.now cert.now ≡ [])) }
    ensures workers { (result ≡ Err ShareFault.Workers) ↔ ((workers ≡ 0) ⊎ (16 < workers)) }
{
    match verdict_shared(rt, alloc, program, cert, workers, gate) {
        Ok(verdict) => Ok(verdict.findings.as_slice().is_empty()),
        Err(fault) => Err(fault),
    }
}

/// The findings of all tasks, by 1 to 16 workers. What they left, for want of memory, is checked here.
fn found_by<G: CheckGate, R: Threads + Sync>(
    rt: &R,
    alloc: Global,
    survey: &Survey<'_>,
    cert: &Cert,
    workers: u32,
    gate: &G,
) -> Result<Vec<Finding>, AllocError>
    ensures { IfOk result (λ v. v.items ≡ all_rules survey.now cert.now) }
{
    let tasks = survey.program().tasks().len();
    let numbers = &Numbers::below(tasks);
    let shares = thread::map_indices(
        rt,
        alloc,
        workers as usize,
        &|worker|
            requires { numbers.now.count < 2 ^ 32 }
        { draw(alloc, survey, cert, numbers, gate, worker) },
    )?;
    let one_each = shares.len() == workers as usize;
    prove!(one_each);
    let mut places = by_task(alloc, survey, cert, shares, tasks)?;
    fill(alloc, survey, cert, gate, workers, &mut places)?;
    in_order(alloc, survey, cert, &places)
}

/// What one worker finds: it draws the number of the next task and checks that task, until no task is
/// left. Where memory is refused it stops, and what is missing is found out later.
fn draw<'a, 'p, G: CheckGate>(
    alloc: Global,
    survey: &'a Survey<'p>,
    cert: &'a Cert,
    numbers: &Numbers,
    gate: &G,
    worker: usize,
) -> Share<'a, 'p>
    requires { numbers.now.count < 2 ^ 32 }
    ensures of { All (λ f. (f.survey.now ≡ survey.now) × (f.cert.now ≡ cert.now)) result.found.items }
    ensures stop { MayStop numbers.now.count (length result.found.items) result.end }
{
    let worker = u32::try_from(worker).unwrap_or(MOST_WORKERS);
    let mut found = Vec::new(alloc);
    for _ in 0..numbers.count() {
        if let Err(end) = check_next(alloc, survey, cert, numbers, gate, worker, &mut found) {
            return Share { found, end };
        }
    }
    Share {
        found,
        end: End::AllDrawn,
    }
}

/// Draws the number of the next task and checks that task.
///
/// # Errors
///
/// Why the worker stops.
fn check_next<'a, 'p, G: CheckGate>(
    alloc: Global,
    survey: &'a Survey<'p>,
    cert: &'a Cert,
    numbers: &Numbers,
    gate: &G,
    worker: u32,
    list: &mut Vec<Found<'a, 'p>>,
) -> Result<(), End>
    requires few { numbers.now.count < 2 ^ 32 }
    requires of { All (λ f. (f.survey.now ≡ survey.now) × (f.cert.now ≡ cert.now)) list.old.items }
    ensures of { All (λ f. (f.survey.now ≡ survey.now) × (f.cert.now ≡ cert.now)) list.new.items }
    ensures more { OnOk result (length list.new.items ≡ length list.old.items + 1) }
    ensures stop { IfErr result (λ end. MayStop numbers.now.count (length list.new.items) end) }
{
    let drawn = numbers.draw()?;
    let found = Found::new(alloc, survey, cert, gate, worker, drawn)?;
    match list.push(found) {
        Ok(()) => Ok(()),
        Err(failed) => Err(AllocError::from(failed).into()),
    }
}
