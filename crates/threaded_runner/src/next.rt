//! What a worker does once it lets go of the lock.

ghost use Rattle.std.specs.Prelude.{◌≤◌};

/// That a worker has nothing to do. It has no `Drop`, so the worker cannot just ask again: `let_go_to_wait` alone
/// takes it.
pub(crate) struct Idle {
    /// The number of the worker.
    pub(crate) worker: u32,
}

/// The burst that is made next of a unit.
#[derive(Drop)]
pub(crate) struct NextBurst {
    /// The number of the unit.
    pub(crate) unit: u32,
    /// How many instructions at most.
    pub(crate) most: u32,
    ghost few: { most ≤ 65536 },
}

/// What a worker does once it lets go of the lock.
pub(crate) enum Then {
    /// Makes a burst on the unit, which is to be lent.
    Burst(NextBurst),
    /// Continues with the head in place, by as many events as the burst may have instructions.
    BurstInPlace(NextBurst),
    /// Waits until the machine has changed.
    Wait(Idle),
    /// Takes the lock again, since there may be more to do.
    GoOn,
    /// Ends.
    End,
}
