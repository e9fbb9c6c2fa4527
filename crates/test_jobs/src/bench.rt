//! The operations of a test's runtime.

use std::process::Abort;
use std::sync::Wait;
use std::thread::Threads;

/// A runtime that can stop the process, wait, and make threads.
pub trait Bench: Abort + Threads + Wait + Sync {}

impl<R: Abort + Threads + Wait + Sync> Bench for R {}
