//! The numbers of units round the ring.

use sequencer::machine::Machine;
use std::marker::Model;

/// The ring of a machine's units: the number of the head there, from 0, and how many units there are.
#[derive(Debug, Drop)]
pub struct Ring {
    head: u32,
    units: u32,
}

impl Model for Ring {
    ghost use Rattle.std.specs.Prelude.{◌<◌};
    ghost use Rattle.event_trace.specs.Ring.{RingView};

    ghost Value = { RingView };

    ghost view = { λ r. record { head = r.head; units = r.units } };

    ghost invariant = { λ r. 0 < r.units };
}

ghost use Rattle.std.specs.Prelude.{◌≡◌, ◌<◌};
ghost use Rattle.sequencer.specs.Machines.{state};
ghost use Rattle.event_trace.specs.Ring.{number_at, ring_in};

impl Ring {
    /// A ring of `units` units, where the head has this number.
    pub(crate) fn new(head: u32, units: u32) -> Ring
        requires { 0 < units }
        ensures { result ≡ record { head = head; units = units } }
    {
        Ring { head, units }
    }

    /// The ring of a machine of `units` units, at least one, as its events so far leave it.
    pub fn of(machine: &Machine<'_>, units: u32) -> Ring
        requires { 0 < units }
        ensures { result ≡ ring_in units (state machine.now) }
    {
        let retired = machine.commits().len();
        let head = (retired % units as usize) as u32;
        Ring::new(head, units)
    }

    /// The number round the ring, from 0, of the unit at a position in the queue, 0 for the head.
    pub fn number_at(&self, position: u32) -> usize
        ensures { result ≡ number_at self.now position }
    {
        (self.head as usize + position as usize) % self.units as usize
    }
}
