//! Calls around the work of the workers.

use std::marker::Sync;

/// Is called around the check of each task, by whoever checks it, so that a caller can watch the workers or
/// hold them up. Nothing that a gate does changes the answer.
pub trait CheckGate: Sync {
    /// Called before a worker checks a task. Workers and tasks are counted from 0. A task that no worker
    /// checked, because memory was refused, is checked at the end under the number after the last worker's.
    fn before(&self, worker: u32, task: u32);

    /// Called after a worker has checked a task; the numbers are as with `before`.
    fn after(&self, worker: u32, task: u32);
}

/// Is called around the reading of each block of a certificate's text ahead of its turn, by the worker that
/// reads it. Nothing that a gate does changes the answer.
pub trait ReadGate: Sync {
    /// Called before a worker reads the block that begins at byte `start` of a piece. Workers and pieces are
    /// counted from 0.
    fn before_block(&self, worker: u32, piece: usize, start: usize);

    /// Called after a worker has read the block; the numbers are as with `before_block`.
    fn after_block(&self, worker: u32, piece: usize, start: usize);
}

/// The gate that holds up no worker.
#[derive(Debug, Drop)]
pub struct Open;

impl CheckGate for Open {
    fn before(&self, _worker: u32, _task: u32) {}

    fn after(&self, _worker: u32, _task: u32) {}
}

impl ReadGate for Open {
    fn before_block(&self, _worker: u32, _piece: usize, _start: usize) {}

    fn after_block(&self, _worker: u32, _piece: usize, _start: usize) {}
}
