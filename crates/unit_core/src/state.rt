//! The state of a unit, with only the length of its log.

ghost use Rattle.std.specs.Prelude.{◌≡◌};
ghost use Rattle.unit_core.specs.Units.{unlogged};

use machine_model::event::Spot;
use register_ring::held::RegisterWords;
use register_ring::port::Port;

/// The state of a unit, with only the length of its log: its task and serial number, its place, what arrived
/// and what it sent, what it wrote itself, and how much it has read. A burst is made on a copy of it.
#[derive(Clone, Copy, Debug)]
pub struct UnitState {
    pub(crate) task: u32,
    pub(crate) serial: u32,
    pub(crate) spot: Spot,
    pub(crate) port: Port,
    pub(crate) local: RegisterWords,
    pub(crate) reads: usize,
}

impl UnitState {
    /// The number, from 0, of the unit's task.
    #[inline]
    pub fn task(&self) -> u32
        ensures { result ≡ (unlogged self.now).task }
    {
        self.task
    }

    /// The unit's serial number, which tells it from other units of the same task.
    #[inline]
    pub fn serial(&self) -> u32
        ensures { result ≡ (unlogged self.now).serial }
    {
        self.serial
    }
}
