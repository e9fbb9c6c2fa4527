//! That the workers share the work: each task is checked, and each block of a certificate is read, by one of them.

use crate::given::{Bench, Meeting, halts};
use parallel_check::checking::verdict_shared;
use parallel_check::gate::{CheckGate, ReadGate};
use parallel_check::reading::read_shared;
use std::alloc::{AllocError, Global};
use std::fmt;
use std::process::Abort;
use std::sync::atomic::{AtomicBool, AtomicU32, Ordering};
use test_programs::acceptance::parts;
use test_programs::certificates::DIAMOND_CERTIFICATE;
use test_programs::programs::DIAMOND;
use text_pieces::text::Text;

/// Notes how each task or block stands, 0 where it is not begun, and what each worker has begun, 0 where there is nothing.
#[derive(Drop)]
struct Works {
    works: Vec<AtomicU32>,
    workers: Vec<AtomicU32>,
    is_wrong: AtomicBool,
}

const BEGUN: u32 = 1;

const ENDED: u32 = 2;

// So many numbers, each 0.
fn zeros(alloc: Global, count: usize) -> Result<Vec<AtomicU32>, AllocError> {
    let mut zeros = Vec::new(alloc);
    for _ in 0..count {
        zeros.push(AtomicU32::new(0))?;
    }
    Ok(zeros)
}

fn is_each_ended(works: &[AtomicU32]) -> bool {
    works
        .iter()
        .all(|work| work.load(Ordering::SeqCst) == ENDED)
}

// The number of a task or block, from 1.
fn number_of(work: usize) -> u32 {
    u32::try_from(work).unwrap_or(u32::MAX).saturating_add(1)
}

impl Works {
    fn new(alloc: Global, workers: u32, works: usize) -> Result<Works, AllocError> {
        Ok(Works {
            works: zeros(alloc, works)?,
            workers: zeros(alloc, workers as usize)?,
            is_wrong: AtomicBool::new(false),
        })
    }

    fn begins(&self, worker: u32, work: usize) {
        self.changes(&self.works, work, 0, BEGUN);
        self.changes(&self.workers, worker as usize, 0, number_of(work));
    }

    fn ends(&self, worker: u32, work: usize) {
        self.changes(&self.works, work, BEGUN, ENDED);
        self.changes(&self.workers, worker as usize, number_of(work), 0);
    }

    // There the first number stood, and now the second.
    fn changes(&self, numbers: &[AtomicU32], at: usize, from: u32, to: u32) {
        let stood = match numbers.get(at) {
            Some(number) => number.swap(to, Ordering::SeqCst) == from,
            None => false,
        };
        if !stood {
            self.is_wrong.store(true, Ordering::SeqCst);
        }
    }

    // Each task or block came once, under the number of a worker that ended it before it began anything else.
    fn expect_each_once(&self, rt: &impl Abort) {
        assert!(rt; !self.is_wrong.load(Ordering::SeqCst));
        assert!(rt; is_each_ended(&self.works));
    }
}

impl CheckGate for Works {
    fn before(&self, worker: u32, task: u32) {
        self.begins(worker, task as usize);
    }

    fn after(&self, worker: u32, task: u32) {
        self.ends(worker, task as usize);
    }
}

#[test]
fn each_task_is_checked_once(rt: HostRuntime) {
    let (program, cert) = parts(rt.alloc(), DIAMOND, DIAMOND_CERTIFICATE).expect(&rt, "parts");
    for workers in [1, 2, 4, 16] {
        let gate = Works::new(rt.alloc(), workers, 4).ok();
        let gate = gate.expect(&rt, "room for a gate");
        let verdict = verdict_shared(&rt, rt.alloc(), &program, &cert, workers, &gate);
        assert!(rt; verdict.is_ok());
        gate.expect_each_once(&rt);
    }
}

/// How many tasks a piece has below.
const TASKS: usize = 16;

/// How many entries a list has below, from index 1000 on.
const ENTRIES: usize = 100;

/// How many bytes a task has below: its line `task T10`, and its entries of 22 bytes.
const TASK: usize = 9 + ENTRIES * 22;

/// A certificate for `halts` in two pieces, in which the blocks begin after the lines of the tasks. Four workers have 16
/// shares of `TASK + 1` bytes in the first piece. So the eighth of its tasks, whose line begins after 7 + 7 * TASK bytes,
/// begins just where the eighth share does.
fn long_text(alloc: Global) -> Result<Text, fmt::Error> {
    let mut text = Text::new(alloc, tasks_text(alloc, "cert 2\n", 10)?.into_bytes());
    text.append(tasks_text(alloc, "", 10 + TASKS)?.into_bytes())?;
    Ok(text)
}

fn tasks_text(alloc: Global, first: &str, task: usize) -> Result<String, fmt::Error> {
    let mut text = String::new(alloc);
    text.push_str(first)?;
    for task in task..task.saturating_add(TASKS) {
        writeln!(text, "task T{task}")?;
        for index in 1000..1000 + ENTRIES {
            writeln!(text, "{index} 0000000000000000")?;
        }
    }
    Ok(text)
}

// The number of the block of `long_text` that begins at this offset of a piece.
fn block_number(piece: usize, start: usize) -> usize {
    piece.saturating_mul(TASKS).saturating_add(start / TASK)
}

impl ReadGate for Works {
    fn before_block(&self, worker: u32, piece: usize, start: usize) {
        self.begins(worker, block_number(piece, start));
    }

    fn after_block(&self, worker: u32, piece: usize, start: usize) {
        self.ends(worker, block_number(piece, start));
    }
}

fn read_by(rt: &impl Bench, alloc: Global, workers: u32, gate: &impl ReadGate) {
    let (program, cert) = halts(alloc).ok().expect(rt, "room for texts");
    let parts = parts(alloc, program.as_str(), cert.as_str());
    let (program, _) = parts.expect(rt, "parts");
    let text = long_text(alloc).ok().expect(rt, "room for a text");
    let cert = read_shared(rt, alloc, &text, &program, workers, gate);
    assert!(rt; cert.is_ok());
}

#[test]
fn each_block_is_read_once(rt: HostRuntime) {
    for workers in [2, 4, 16] {
        let gate = Works::new(rt.alloc(), workers, 2 * TASKS).ok();
        let gate = gate.expect(&rt, "room for a gate");
        read_by(&rt, rt.alloc(), workers, &gate);
        gate.expect_each_once(&rt);
    }
}

#[test]
fn two_workers_read_at_the_same_time(rt: HostRuntime) {
    let gate = Meeting::new(rt.clone().expect(&rt, "another handle"), 2);
    read_by(&rt, rt.alloc(), 2, &gate);
    assert!(rt; gate.all_met());
}
