//! How a desk asks a predictor.

ghost use Rattle.unit_turns.specs.Turns.{MayChoose};

use sequencer::machine::Machine;
use sequencer::predict::Predict;

/// Answers which target comes next. (A predictor can do so; that it may go to another thread is left to the run.)
pub(crate) trait Choose: Drop {
    /// A number: the unit's task begins at the target at this position, modulo the number of targets.
    fn answer(&mut self, machine: &Machine<'_>, unit: u32) -> u32
        requires { MayChoose machine.now unit };
}

impl<P: Predict> Choose for P {
    fn answer(&mut self, machine: &Machine<'_>, _unit: u32) -> u32 {
        self.choose(machine.choices())
    }
}
