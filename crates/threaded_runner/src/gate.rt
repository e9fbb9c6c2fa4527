//! The calls around each burst.

ghost use Rattle.std.specs.Prelude.{ℕ};

/// Is called by each worker around each of its bursts, while it does not hold the lock: to watch the workers,
/// or to hold one up.
pub trait RunGate: Sync {
    /// It was called before a burst of this worker. Code that is proved for each gate can show it only by the call.
    ghost was_before: { Self → (worker : ℕ) → Type 0 } = { λ gate worker. Unit {0} };

    /// It was called after a burst of this worker of this many instructions.
    ghost was_after: { Self → (worker steps : ℕ) → Type 0 } = { λ gate worker steps. Unit {0} };

    /// Called when worker `worker`, from 0, is about to make a burst.
    fn before(&self, worker: u32)
        ensures { was_before self.now worker };

    /// Called when worker `worker`, from 0, has made a burst of `steps` instructions, at most 65,536.
    fn after(&self, worker: u32, steps: u32)
        ensures { was_after self.now worker steps };
}

/// The gate that does nothing.
#[derive(Clone, Copy, Debug, PartialEq, Eq)]
pub struct Open;

impl RunGate for Open {
    fn before(&self, _worker: u32) {}

    fn after(&self, _worker: u32, _steps: u32) {}
}
