//! The units of a machine, as they are read.

use crate::machine::Machine;
use unit_core::unit::Unit;

impl<'a> Machine<'a> {
    ghost use Rattle.std.specs.Prelude.{◌≡◌, ◌≤◌, length, slice_get};
    ghost use Rattle.std.specs.Option.{option_copied, option_map};
    ghost use Rattle.unit_core.specs.Units.{active_of};
    ghost use Rattle.sequencer.specs.Machines.{state};

    /// The number of units at work, at most 16.
    pub fn active(&self) -> u32
        ensures active { result ≡ length (state self.now).queue }
        ensures within { result ≤ 16 }
    {
        // The ring's capacity gives its range.
        let _ = self.processor.capacity();
        self.processor.active()
    }

    /// The unit at a position, counted from the head, which is 0: its task, its place, what arrived and what it
    /// sent. `None` past the tail.
    pub fn unit(&self, position: u32) -> Option<&Unit>
        ensures { option_map active_of (option_copied result) ≡ slice_get (state self.now).queue position }
    {
        self.processor.unit(position)
    }
}
