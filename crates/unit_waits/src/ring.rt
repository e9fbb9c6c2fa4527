//! The signals of the ring.

ghost use Rattle.std.specs.Prelude.{◌≡◌, ◌<◌};
ghost use Rattle.sequencer.specs.Machines.{state};
ghost use Rattle.unit_waits.specs.Signals.{last_word as last_word_of, ring_signals as ring_signals_of};

use crate::reasons::unit_at;
use sequencer::machine::Machine;

/// How many signals the ring has.
pub(crate) const OF_RING: usize = 6;

/// The last word that was put out.
fn last_word(machine: &Machine<'_>) -> Option<u64>
    ensures { result ≡ last_word_of (state machine.now) }
{
    match machine.output().last() {
        Some(word) => Some(u64::from(*word)),
        None => None,
    }
}

/// What the signals of the ring show.
pub(crate) fn ring_signals(machine: &Machine<'_>, units: u32) -> [Option<u64>; OF_RING]
    requires { 0 < units }
    ensures { result ≡ ring_signals_of units (state machine.now) }
{
    let head = unit_at(machine, units, 0);
    let (retired, executed) = machine.counts();
    [
        Some(u64::from(head)),
        Some(machine.commits().len() as u64),
        Some(retired),
        Some(executed),
        Some(machine.output().len() as u64),
        last_word(machine),
    ]
}
