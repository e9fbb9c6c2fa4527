//! The run of a program by threads.

ghost use Rattle.std.specs.Prelude.{◌≡◌, ◌≢◌, ◌<◌, ◌≤◌, ◌⊎◌, ◌↔◌, length, IfOk};
ghost use Rattle.threaded_runner.specs.Reports.{IsThreadsReportOf};
ghost use Rattle.threaded_runner.specs.Shares.{IsShareOf};

use crate::deeds::Deeds;
use crate::desk::Desk;
use crate::gate::RunGate;
use crate::held::{Ended, Stopped, let_go_stopped, take};
use crate::hold::Worker;
use crate::naming::Naming;
use crate::patience::Patience;
use crate::report::{Report, RunFault};
use crate::share::Share;
use crate::worker::serve;
use limits::ranges::{Budget, MOST_BUDGET, MOST_UNITS, Units, Workers};
use mark_checker::accept::Accepted;
use sequencer::machine::Machine;
use sequencer::predict::Predict;
use std::alloc::{AllocError, Global};
use std::marker::Brand;
use std::sync::{Mutex, Wait};
use std::thread;
use std::thread::{JoinHandle, Scope, Threads};
use unit_turns::bell::Bell;

/// Runs the accepted program on a machine with 1 to 16 units, with one thread for each unit, until the run has
/// ended or the history has `budget` events, 1 to 1,000,000; a burst that is handed in late may go beyond. The
/// predictor chooses after a task that has not stopped, and the gate is called around each burst. The calling
/// thread waits until all others have ended.
///
/// # Errors
///
/// `Units` exactly where there are not 1 to 16 units, else `Budget` exactly where the budget is not 1 to
/// 1,000,000, else `OutOfMemory` where memory or a thread was refused. The predictor and the machine are gone
/// then.
pub fn run_threads<'a, P: Predict, G: RunGate, R: Threads + Wait + Sync>(
    rt: &R,
    alloc: Global,
    accepted: &'a Accepted,
    units: u32,
    budget: u32,
    predictor: P,
    gate: &G,
) -> Result<Report<'a>, RunFault>
    ensures units { (result ≡ Err RunFault.Units) ↔ ((units ≡ 0) ⊎ (16 < units)) }
    ensures budget { (result ≡ Err RunFault.Budget) ↔ ((0 < units) × (units ≤ 16) × ((budget ≡ 0) ⊎ (1000000 < budget))) }
    ensures own { result ≢ Err RunFault.Foreign }
    ensures report { IfOk result (IsThreadsReportOf accepted.now units units budget) }
{
    run_workers(rt, alloc, accepted, units, units, budget, predictor, gate)
}

/// Like `run_threads`, with 1 to `units` threads: worker j, from 0, serves the units whose number on the ring
/// is j modulo `workers`, from the head on. With one worker only the head's task is worked on.
///
/// # Errors
///
/// `Units` exactly where there are not 1 to 16 units, or not 1 to `units` workers; else `Budget` exactly where
/// the budget is not 1 to 1,000,000; else `OutOfMemory` where memory or a thread was refused. The predictor and
/// the machine are gone then.
pub fn run_workers<'a, P: Predict, G: RunGate, R: Threads + Wait + Sync>(
    rt: &R,
    alloc: Global,
    accepted: &'a Accepted,
    units: u32,
    workers: u32,
    budget: u32,
    predictor: P,
    gate: &G,
) -> Result<Report<'a>, RunFault>
    ensures units { (result ≡ Err RunFault.Units) ↔ ((units ≡ 0) ⊎ (16 < units) ⊎ (workers ≡ 0) ⊎ (units < workers)) }
    ensures budget { (result ≡ Err RunFault.Budget) ↔ ((units ≤ 16) × (0 < workers) × (workers ≤ units) × ((budget ≡ 0) ⊎ (1000000 < budget))) }
    ensures own { result ≢ Err RunFault.Foreign }
    ensures report { IfOk result (IsThreadsReportOf accepted.now units workers budget) }
{
    if units == 0 || units > MOST_UNITS || workers == 0 || workers > units {
        return Err(RunFault::Units);
    }
    if budget == 0 || budget > MOST_BUDGET {
        return Err(RunFault::Budget);
    }
    let size = Units::of(units);
    let threads = Workers::of(workers);
    let most = Budget::of(budget);
    match run_by(rt, alloc, accepted, size, threads, most, predictor, gate) {
        Ok(report) => Ok(report),
        Err(AllocError) => Err(RunFault::OutOfMemory),
    }
}

/// Runs the accepted program, as `run_workers` does, on a machine of so many units, by so many threads, up to
/// this budget; there are no more threads than units.
///
/// # Errors
///
/// `AllocError` where memory or a thread was refused; the predictor and the machine are gone then.
pub fn run_by<'a, P: Predict, G: RunGate, R: Threads + Wait + Sync>(
    rt: &R,
    alloc: Global,
    accepted: &'a Accepted,
    units: Units,
    workers: Workers,
    budget: Budget,
    predictor: P,
    gate: &G,
) -> Result<Report<'a>, AllocError>
    requires { workers ≤ units }
    ensures { IfOk result (IsThreadsReportOf accepted.now units workers budget) }
{
    let threads = workers.get();
    let most = budget.get();
    match run_named::<P, Brand, G, R>(rt, alloc, accepted, units, threads, most, predictor, gate) {
        Ok(report) => Ok(report),
        Err(AllocError) => Err(AllocError),
    }
}

/// The run over the program and certificate that its types name.
fn run_named<'a, P: Predict, J: Naming + Deeds + Send + Sync, G: RunGate, R: Threads + Wait + Sync>(
    rt: &R,
    alloc: Global,
    accepted: &'a Accepted,
    units: Units,
    workers: u32,
    budget: u32,
    predictor: P,
    gate: &G,
) -> Result<Report<'a>, AllocError>
    requires named { accepted.now ≡ J.accepted }
    requires units { units ≡ J.units }
    requires workers { (0 < workers) × (workers ≤ units) × (workers ≡ J.workers) }
    requires budget { budget ≡ J.budget }
    ensures { IfOk result (IsThreadsReportOf accepted.now units workers budget) }
{
    let size = units.get();
    let bells = match new_bells(alloc, workers) {
        Ok(bells) => bells,
        Err(AllocError) => return Err(AllocError),
    };
    let desk: Desk<'a, P, J> = new_desk(alloc, accepted, units, workers, predictor)?;
    let shared = Mutex::new(desk);
    work(rt, &shared, bells.as_slice(), gate, size, workers, budget);
    shared.into_inner().report(budget)
}

/// A desk with a machine at its start.
fn new_desk<'a, P: Predict, J: Naming + Deeds>(
    alloc: Global,
    accepted: &'a Accepted,
    units: Units,
    workers: u32,
    predictor: P,
) -> Result<Desk<'a, P, J>, AllocError>
    requires named { accepted.now ≡ J.accepted }
    requires units { units ≡ J.units }
    requires workers { (0 < workers) × (workers ≡ J.workers) }
{
    let machine = match Machine::with_units(alloc, accepted, units) {
        Ok(machine) => machine,
        Err(AllocError) => return Err(AllocError),
    };
    Desk::new(alloc, machine, predictor, workers)
}

/// A bell for each worker.
fn new_bells(alloc: Global, workers: u32) -> Result<Vec<Bell>, AllocError>
    ensures { IfOk result (λ bells. length bells.items ≡ workers) }
{
    let mut bells = Vec::with_capacity(alloc, workers as usize)?;
    for _ in 0..workers {
        bells.push(Bell::new())?;
    }
    Ok(bells)
}

/// One thread for each worker; returns when all have ended.
fn work<'a, 't, P: Predict, J: Naming + Deeds + Send + Sync, G: RunGate, R: Threads + Wait + Sync>(
    rt: &'t R,
    shared: &'t Mutex<Desk<'a, P, J>>,
    bells: &'t [Bell],
    gate: &'t G,
    units: u32,
    workers: u32,
    budget: u32,
)
    requires units { units ≡ J.units }
    requires workers { (workers ≤ 16) × (workers ≡ J.workers) }
    requires budget { budget ≡ J.budget }
    requires bells { workers ≤ length bells.now }
{
    thread::scope(
        thread::scope_env(),
        rt,
        |scope|
            requires { (units ≡ J.units) × (workers ≤ 16) × (workers ≡ J.workers) × (budget ≡ J.budget) × (workers ≤ length bells.now) }
        {
            start_all(scope, rt, shared, bells, gate, units, workers, budget);
        },
    );
}

/// Makes the thread of each worker.
fn start_all<
    'a,
    's,
    't: 's,
    P: Predict,
    J: Naming + Deeds + Send + Sync,
    G: RunGate,
    R: Threads + Wait + Sync,
>(
    scope: &Scope<'s, &'t ()>,
    rt: &'t R,
    shared: &'t Mutex<Desk<'a, P, J>>,
    bells: &'t [Bell],
    gate: &'t G,
    units: u32,
    workers: u32,
    budget: u32,
)
    requires units { units ≡ J.units }
    requires workers { (workers ≤ 16) × (workers ≡ J.workers) }
    requires budget { budget ≡ J.budget }
    requires bells { workers ≤ length bells.now }
{
    let patience = Patience::of(rt, workers);
    for worker in 0..workers {
        let share = Share {
            units,
            workers,
            worker,
        };
        let _ = start(scope, rt, shared, bells, gate, patience, share, budget);
    }
}

/// Makes the thread of a worker. Where it cannot be made, the run is stopped.
///
/// # Errors
///
/// That the run was stopped.
fn start<
    'a,
    's,
    't: 's,
    P: Predict,
    J: Naming + Deeds + Send + Sync,
    G: RunGate,
    R: Threads + Wait + Sync,
>(
    scope: &Scope<'s, &'t ()>,
    rt: &'t R,
    shared: &'t Mutex<Desk<'a, P, J>>,
    bells: &'t [Bell],
    gate: &'t G,
    patience: Patience,
    share: Share,
    budget: u32,
) -> Result<JoinHandle<Ended>, Stopped>
    requires share { IsShareOf J.units J.workers share }
    requires budget { budget ≡ J.budget }
    requires bells { J.workers ≤ length bells.now }
{
    let worker = Worker::new(share, budget);
    let bell = &bells[share.worker as usize];
    match scope.spawn(
        move || -> Ended
            requires { J.workers ≤ length bells.now }
        { serve(rt, shared, bells, bell, gate, patience, worker) },
    ) {
        Ok(thread) => Ok(thread),
        Err(_) => Err(give_up(rt, shared, bells, patience, share, budget)),
    }
}

/// Notes that the thread of a worker could not be made, and rings for all others.
fn give_up<P: Predict, J: Naming + Deeds, R: Wait>(
    rt: &R,
    shared: &Mutex<Desk<'_, P, J>>,
    bells: &[Bell],
    patience: Patience,
    share: Share,
    budget: u32,
) -> Stopped
    requires share { IsShareOf J.units J.workers share }
    requires budget { budget ≡ J.budget }
    requires bells { J.workers ≤ length bells.now }
{
    let mut held = take(rt, shared, patience);
    held.desk.stop();
    let_go_stopped(held, bells, share, budget)
}
