//! Prediction of the next task: which target the sequencer follows after a running tail (Sohi, Breach,
//! Vijaykumar, "Multiscalar Processors", ISCA 1995, section 2.1: it predicts the next task; how is the caller's
//! choice).

use mips_instructions::number::Place;
use std::marker::Model;

/// A predictor: chooses among the targets of a running tail.
pub trait Predict: Send + Drop {
    ghost use Rattle.std.specs.Prelude.{◌<◌, length};

    /// The number of a target in the list, from 0, taken modulo the number of targets: the next task begins
    /// there. There is at least one target; each is a code index.
    fn choose(&mut self, targets: &[Place]) -> u32
        requires { 0 < length targets.now };
}

/// The position of the first target.
const FIRST_TARGET: u32 = 0;

/// The predictor that chooses the first target.
#[derive(Clone, Copy, Debug, PartialEq, Eq)]
pub struct First;

impl Predict for First {
    ghost use Rattle.std.specs.Prelude.{◌≡◌};

    fn choose(&mut self, _targets: &[Place]) -> u32
        ensures { result ≡ 0 }
    {
        FIRST_TARGET
    }
}

/// The predictor that chooses the last target.
#[derive(Clone, Copy, Debug, PartialEq, Eq)]
pub struct Last;

impl Predict for Last {
    ghost use Rattle.std.specs.Prelude.{◌≡◌, ◌-◌, ◌^◌, ◌<◌, min, length};

    fn choose(&mut self, targets: &[Place]) -> u32
        requires { 0 < length targets.now }
        ensures { result ≡ min (length targets.now - 1) (2 ^ 32 - 1) }
    {
        u32::try_from(targets.len() - 1).unwrap_or(u32::MAX)
    }
}

/// The predictor that chooses by a list of positions, over and over; the first target where the list is empty.
#[derive(Debug, Drop)]
pub struct Script {
    numbers: Vec<u32>,
    at: usize,
}

impl Model for Script {
    ghost use Rattle.std.specs.Prelude.{◌<◌, ◌⊎◌, ◌≡◌, vec_len};
    ghost use Rattle.sequencer.specs.Scripts.{ScriptView};

    ghost Value = { ScriptView };

    ghost view = { λ s. record { list = s.numbers.items; at = s.at } };

    ghost invariant = { λ s. (s.at < vec_len s.numbers) ⊎ (s.at ≡ 0) };
}

impl Script {
    ghost use Rattle.std.specs.Prelude.{◌≡◌};

    /// A predictor that begins with the first position of the list.
    pub fn new(numbers: Vec<u32>) -> Script
        ensures list { result.list ≡ numbers.items }
        ensures at { result.at ≡ 0 }
    {
        Script { numbers, at: 0 }
    }
}

impl Predict for Script {
    ghost use Rattle.std.specs.Prelude.{◌≡◌, slice_index};
    ghost use Rattle.sequencer.specs.Scripts.{ScriptView, answered};

    fn choose(&mut self, _targets: &[Place]) -> u32
        ensures number { result ≡ slice_index self.old.list self.old.at }
        ensures after { self.new ≡ answered self.old }
    {
        match self.numbers.get(self.at) {
            Some(number) => {
                let number = *number;
                self.at = if self.at + 1 < self.numbers.len() {
                    self.at + 1
                } else {
                    0
                };
                number
            }
            None => 0,
        }
    }
}
