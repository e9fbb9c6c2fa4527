//! Which run the threads make, as the types of what they share state it.

ghost use Rattle.std.specs.Prelude.{ℕ, []};
ghost use Rattle.mark_checker.specs.Places.{Checked};

use std::marker::Brand;

/// The program and certificate of a run, its number of units, its number of workers and its budget. They exist
/// in the proofs alone, and each run picks its own. The type of what lies under the lock states that its machine is
/// that of this run, so neither a burst nor the machine that comes out has to be compared with anything.
pub(crate) trait Naming {
    ghost accepted: { Checked };

    ghost units: { ℕ };

    ghost workers: { ℕ };

    ghost budget: { ℕ };
}

impl Naming for Brand {
    ghost accepted = { record { program = record { code = []; bytes = []; fixed = []; tasks = []; start = 0 }; cert = [] } };

    ghost units = { 1 };

    ghost workers = { 1 };

    ghost budget = { 1 };
}
