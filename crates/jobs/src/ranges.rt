//! The predictions that a job takes, each in its range. The other numbers are those of `limits`.
ghost use Rattle.std.specs.Prelude.{◌≡◌, ◌≤◌, ◌↔◌, IsSome, IfSome};

use std::marker::Model;

/// The most numbers that a list of predictions may have.
pub const MOST_PREDICTIONS: usize = 64;

/// The greatest number in a list of predictions: the position, from 0, of the last of 16 targets.
pub const GREATEST_PREDICTION: u32 = 15;

/// The list of `--predict`: the positions of targets, from 0, in the order in which they are used; 1 to 64 numbers, each
/// 0..=15.
#[derive(Debug, Drop)]
pub struct PredictionList {
    numbers: Vec<u32>,
}

impl Model for PredictionList {
    ghost use Rattle.std.specs.Prelude.{ℕ, List, length, All, ◌≤◌};

    ghost Value = { List ℕ };

    ghost view = { λ l. l.numbers.items };

    ghost invariant = { λ l. (1 ≤ length l.numbers.items) × (length l.numbers.items ≤ 64) × All (λ n. n ≤ 15) l.numbers.items };
}

impl PredictionList {
    ghost use Rattle.std.specs.Prelude.{List, length, All};

    /// The list of these numbers; `None` where there are none or more than 64, or one is above 15.
    pub fn new(numbers: Vec<u32>) -> Option<PredictionList>
        ensures some { IsSome result ↔ ((1 ≤ length numbers.items) × (length numbers.items ≤ 64)
            × All (λ n. n ≤ 15) numbers.items) }
        ensures value { IfSome result (λ list. list ≡ numbers.items) }
    {
        if (1..=MOST_PREDICTIONS).contains(&numbers.len())
            && numbers.iter().all(|&n| n <= GREATEST_PREDICTION)
        {
            Some(PredictionList { numbers })
        } else {
            None
        }
    }

    /// The numbers, in order.
    pub fn as_slice(&self) -> &[u32]
        ensures value { result.now ≡ self.now }
    {
        self.numbers.as_slice()
    }

    /// The numbers as a `Vec`, in order; takes no memory.
    pub fn into_vec(self) -> Vec<u32>
        ensures value { result.items ≡ self }
    {
        let PredictionList { numbers } = self;
        numbers
    }
}
