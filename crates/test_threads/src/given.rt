//! Gates at which workers meet, and a program of many tasks.

use parallel_check::gate::{CheckGate, ReadGate};
use std::alloc::Global;
use std::process::Abort;
use std::sync::Wait;
use std::sync::atomic::{AtomicBool, AtomicU32, Ordering};
use std::thread::Threads;
use std::time::Duration;
use std::{fmt, thread};
use threaded_runner::gate::RunGate;

/// What a test's runtime may do: stop, wait, and make threads.
pub(crate) trait Bench: Abort + Threads + Wait + Sync {}

impl<R: Abort + Threads + Wait + Sync> Bench for R {}

/// Holds up whoever comes until as many have come as are to meet, for ten seconds at most. Nobody comes again before.
#[derive(Drop)]
pub(crate) struct Meeting {
    rt: HostRuntime,
    expected: u32,
    come: AtomicU32,
    is_late: AtomicBool,
    first_steps: AtomicU32,
    second_steps: AtomicU32,
}

impl Meeting {
    /// A gate at which so many workers are to meet.
    pub(crate) fn new(rt: HostRuntime, expected: u32) -> Meeting {
        Meeting {
            rt,
            expected,
            come: AtomicU32::new(0),
            is_late: AtomicBool::new(false),
            first_steps: AtomicU32::new(0),
            second_steps: AtomicU32::new(0),
        }
    }

    /// Whether all were there in time.
    pub(crate) fn all_met(&self) -> bool {
        self.come.load(Ordering::SeqCst) >= self.expected && !self.is_late.load(Ordering::SeqCst)
    }

    /// How many instructions the bursts of the first worker had, and those of the others.
    pub(crate) fn steps(&self) -> (u32, u32) {
        (
            self.first_steps.load(Ordering::SeqCst),
            self.second_steps.load(Ordering::SeqCst),
        )
    }

    fn holds_up(&self) {
        self.come.fetch_add(1, Ordering::SeqCst);
        for _ in 0..10_000 {
            if self.come.load(Ordering::SeqCst) >= self.expected {
                return;
            }
            thread::sleep(&self.rt, Duration::from_millis(1));
        }
        self.is_late.store(true, Ordering::SeqCst);
    }
}

impl CheckGate for Meeting {
    fn before(&self, _worker: u32, _task: u32) {
        self.holds_up();
    }

    fn after(&self, _worker: u32, _task: u32) {}
}

impl ReadGate for Meeting {
    fn before_block(&self, _worker: u32, _piece: usize, _start: usize) {
        self.holds_up();
    }

    fn after_block(&self, _worker: u32, _piece: usize, _start: usize) {}
}

impl RunGate for Meeting {
    fn before(&self, _worker: u32) {
        self.holds_up();
    }

    fn after(&self, worker: u32, steps: u32) {
        if worker == 0 {
            self.first_steps.fetch_add(steps, Ordering::SeqCst);
        } else {
            self.second_steps.fetch_add(steps, Ordering::SeqCst);
        }
    }
}

/// Holds the second worker up before each of its bursts, until any other with nothing to do has fallen asleep.
#[derive(Drop)]
pub(crate) struct Nap {
    pub(crate) rt: HostRuntime,
}

impl RunGate for Nap {
    fn before(&self, worker: u32) {
        if worker == 1 {
            thread::sleep(&self.rt, Duration::from_millis(300));
        }
    }

    fn after(&self, _worker: u32, _steps: u32) {}
}

/// A program of 32 tasks, T10 to T41, each of which halts, and a certificate for it with no entry.
pub(crate) fn halts(alloc: Global) -> Result<(String, String), fmt::Error> {
    let mut program = String::new(alloc);
    let mut cert = String::new(alloc);
    writeln!(cert, "cert 2")?;
    for task in 10..42 {
        writeln!(program, ".task T{task} create=- targets=-")?;
        writeln!(cert, "task T{task}")?;
    }
    for task in 10..42 {
        writeln!(program, "T{task}: halt")?;
    }
    Ok((program, cert))
}
