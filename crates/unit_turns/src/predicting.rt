//! What the predictors answer.

use crate::predictor::Predictor;
use mips_instructions::number::Place;
use sequencer::predict::{First, Last, Predict};

impl Predict for Predictor {
    ghost use Rattle.std.specs.Prelude.{◌≡◌, ◌<◌, length};
    ghost use Rattle.unit_turns.specs.Predictions.{answer_for, asked};

    fn choose(&mut self, targets: &[Place]) -> u32
        requires { 0 < length targets.now }
        ensures number { result ≡ answer_for self.old targets.now }
        ensures after { self.new ≡ asked self.old }
    {
        match self {
            Predictor::First => First.choose(targets),
            Predictor::Last => Last.choose(targets),
            Predictor::Script(script) => script.choose(targets),
        }
    }
}
