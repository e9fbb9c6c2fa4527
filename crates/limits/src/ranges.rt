//! The numbers of units, of workers and of events, each with its range in its type.
ghost use Rattle.std.specs.Prelude.{◌≡◌, ◌≤◌, ◌↔◌, IsSome, IfSome};
ghost use Rattle.limits.specs.Limits.{IsUnits, IsWorkers, IsBudget};

use std::marker::Model;

/// The most units that a machine has.
pub const MOST_UNITS: u32 = 16;

/// The most worker threads that share a check or serve a run.
pub const MOST_WORKERS: u32 = 16;

/// The largest budget: the most instructions of `seq`, and the most events that a run may ask for.
pub const MOST_BUDGET: u32 = 1_000_000;

/// The most events in a machine's history: once it has so many, every further event is refused.
pub const MOST_EVENTS: usize = 1_000_000;

/// The number of units of a machine, 1..=16 (the paper's circular queue of units, section 2, has no fixed
/// length).
#[derive(Clone, Copy, Debug, PartialEq, Eq)]
pub struct Units {
    size: u32,
}

impl Model for Units {
    ghost use Rattle.std.specs.Prelude.{ℕ};
    ghost use Rattle.limits.specs.Limits.{IsUnits};

    ghost Value = { ℕ };

    ghost view = { λ u. u.size };

    ghost invariant = { λ u. IsUnits u.size };

    ghost inverse = { λ n. record { size = n } };
}

impl Units {
    /// A machine size of `size` units; `None` outside 1..=16.
    pub fn new(size: u32) -> Option<Units>
        ensures some { IsSome result ↔ IsUnits size }
        ensures value { IfSome result (λ units. units ≡ size) }
    {
        if (1..=MOST_UNITS).contains(&size) {
            Some(Units { size })
        } else {
            None
        }
    }

    /// A machine size of `size` units, which the caller knows to be 1..=16.
    pub fn of(size: u32) -> Units
        requires { IsUnits size }
        ensures { result ≡ size }
    {
        Units { size }
    }

    /// The number of units, 1..=16.
    pub fn get(self) -> u32
        ensures value { result ≡ self }
        ensures least { 1 ≤ result }
        ensures most { result ≤ 16 }
    {
        self.size
    }
}

/// The number of worker threads that share a check or serve a run, 1..=16.
#[derive(Clone, Copy, Debug, PartialEq, Eq)]
pub struct Workers {
    count: u32,
}

impl Model for Workers {
    ghost use Rattle.std.specs.Prelude.{ℕ};
    ghost use Rattle.limits.specs.Limits.{IsWorkers};

    ghost Value = { ℕ };

    ghost view = { λ w. w.count };

    ghost invariant = { λ w. IsWorkers w.count };

    ghost inverse = { λ n. record { count = n } };
}

impl Workers {
    /// `count` workers; `None` outside 1..=16.
    pub fn new(count: u32) -> Option<Workers>
        ensures some { IsSome result ↔ IsWorkers count }
        ensures value { IfSome result (λ workers. workers ≡ count) }
    {
        if (1..=MOST_WORKERS).contains(&count) {
            Some(Workers { count })
        } else {
            None
        }
    }

    /// `count` workers, which the caller knows to be 1..=16.
    pub fn of(count: u32) -> Workers
        requires { IsWorkers count }
        ensures { result ≡ count }
    {
        Workers { count }
    }

    /// The number of workers, 1..=16.
    pub fn get(self) -> u32
        ensures value { result ≡ self }
        ensures least { 1 ≤ result }
        ensures most { result ≤ 16 }
    {
        self.count
    }
}

/// The most that a run may do, 1..=1,000,000: instructions for `seq`, events for `run`, `replay` and `curve`.
#[derive(Clone, Copy, Debug, PartialEq, Eq)]
pub struct Budget {
    most: u32,
}

impl Model for Budget {
    ghost use Rattle.std.specs.Prelude.{ℕ};
    ghost use Rattle.limits.specs.Limits.{IsBudget};

    ghost Value = { ℕ };

    ghost view = { λ b. b.most };

    ghost invariant = { λ b. IsBudget b.most };

    ghost inverse = { λ n. record { most = n } };
}

impl Budget {
    /// A budget of `most` instructions or events; `None` outside 1..=1,000,000.
    pub fn new(most: u32) -> Option<Budget>
        ensures some { IsSome result ↔ IsBudget most }
        ensures value { IfSome result (λ budget. budget ≡ most) }
    {
        if (1..=MOST_BUDGET).contains(&most) {
            Some(Budget { most })
        } else {
            None
        }
    }

    /// A budget of `most` instructions or events, which the caller knows to be 1..=1,000,000.
    pub fn of(most: u32) -> Budget
        requires { IsBudget most }
        ensures { result ≡ most }
    {
        Budget { most }
    }

    /// The most instructions or events, 1..=1,000,000.
    pub fn get(self) -> u32
        ensures value { result ≡ self }
        ensures least { 1 ≤ result }
        ensures most { result ≤ 1000000 }
    {
        self.most
    }
}
