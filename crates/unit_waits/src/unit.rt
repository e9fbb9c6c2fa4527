//! The signals of a unit.

ghost use Rattle.std.specs.Prelude.{◌≡◌, ◌<◌, ◌≤◌, Some, slice_get, if◌then◌else◌};
ghost use Rattle.machine_model.specs.Machine.{State};
ghost use Rattle.sequencer.specs.Machines.{state, units_of};
ghost use Rattle.unit_core.specs.Units.{active_of};
ghost use Rattle.unit_waits.specs.Signals.{by_reason as by_reason_of, index_of as index_of_spot, mask_of, phase_of as phase_of_spot, position_of as position_of_unit, signals_at_work as signals_at_work_of, signals_free as signals_free_are, unit_signals as unit_signals_of, wait_of as wait_of_unit};

use crate::acting::acts;
use crate::reasons::{reason, unit_at};
use crate::waiting::{Owed, Reason};
use machine_model::event::{Event, Spot};
use mark_checker::accept::Accepted;
use sequencer::machine::Machine;
use unit_core::unit::Unit;

/// How many signals a unit has.
pub(crate) const OF_UNIT: usize = 7;

/// The registers that have arrived: register r is bit r.
fn arrived(unit: &Unit) -> u64
    ensures { result ≡ mask_of (active_of unit.now).arrived }
{
    unit.arrived_set().bits()
}

/// The registers that were sent: register r is bit r.
fn sent(unit: &Unit) -> u64
    ensures { result ≡ mask_of (active_of unit.now).sent }
{
    unit.sent_set().bits()
}

/// The index of the instruction where a unit stands; `None` where it has stopped.
fn index_of(spot: &Spot) -> Option<u64>
    ensures { result ≡ index_of_spot spot.now }
{
    match *spot {
        Spot::Inside(index) => Some(u64::from(index)),
        Spot::Stopped(_) => None,
    }
}

/// 1 for a unit inside its task, 2 for one that has stopped.
fn phase_of(spot: &Spot) -> u64
    ensures { result ≡ phase_of_spot spot.now }
{
    match *spot {
        Spot::Inside(_) => 1,
        Spot::Stopped(_) => 2,
    }
}

/// The number of the reason of a unit whose next instruction needs a register, by whether the register is on its way.
fn number_of_need(owed: &Owed) -> u64
    ensures { result ≡ (if owed.now.is_sent then 2 else 1) }
{
    if owed.is_sent { 2 } else { 1 }
}

/// The number of a reason to wait, and the register that is waited for.
fn by_reason(reason: &Reason) -> (u64, Option<u64>)
    ensures { result ≡ by_reason_of reason.now }
{
    match *reason {
        Reason::NeedsRegister(register, owed) => {
            (number_of_need(&owed), Some(u64::from(register.get())))
        }
        Reason::NeedsHead => (3, None),
        Reason::HasToPass(register, _) => (4, Some(u64::from(register.get()))),
        Reason::HasFinished => (5, None),
        Reason::CouldGoOn => (0, None),
    }
}

/// Why the unit at a position waits in a step with these events, as `by_reason` gives it. The head and a unit that
/// does one of them do not wait.
fn wait_of(
    accepted: &Accepted,
    machine: &Machine<'_>,
    units: u32,
    events: &[Event],
    position: u32,
    unit: &Unit,
) -> (u64, Option<u64>)
    requires over { machine.now.accepted ≡ accepted.now }
    requires some { 0 < units }
    requires at { slice_get (state machine.now).queue position ≡ Some (active_of unit.now) }
    ensures { result ≡ wait_of_unit accepted.now.program units (state machine.now) events.now position (active_of unit.now) }
{
    if position == 0 {
        return (0, None);
    }
    if acts(machine.active(), position, events) {
        return (0, None);
    }
    by_reason(&reason(accepted, machine, units, position, unit))
}

/// The signals of a unit at work that waits for this reason and register.
fn signals_at_work(unit: &Unit, number: u64, register: Option<u64>) -> [Option<u64>; OF_UNIT]
    ensures { result ≡ signals_at_work_of (active_of unit.now) (number, register) }
{
    let spot = unit.spot();
    [
        Some(u64::from(unit.task())),
        index_of(&spot),
        Some(phase_of(&spot)),
        Some(number),
        register,
        Some(arrived(unit)),
        Some(sent(unit)),
    ]
}

/// What the signals of a free unit show.
fn signals_free() -> [Option<u64>; OF_UNIT]
    ensures { result ≡ signals_free_are }
{
    [None, None, Some(0), Some(0), None, None, None]
}

/// The position of the unit with a given number round the ring.
fn position_of(machine: &Machine<'_>, units: u32, unit: u32) -> u32
    requires some { 0 < units }
    requires few { units ≤ 16 }
    requires within { unit < units }
    ensures { result ≡ position_of_unit units (state machine.now) unit }
{
    (unit + units.saturating_sub(unit_at(machine, units, 0))) % units
}

/// What the signals of the unit with a given number round the ring show, in a step with these events.
pub(crate) fn unit_signals(
    accepted: &Accepted,
    machine: &Machine<'_>,
    units: u32,
    events: &[Event],
    unit: u32,
) -> [Option<u64>; OF_UNIT]
    requires over { machine.now.accepted ≡ accepted.now }
    requires some { 0 < units }
    requires few { units ≤ 16 }
    requires within { unit < units }
    ensures { result ≡ unit_signals_of accepted.now.program units (state machine.now) events.now unit }
{
    let position = position_of(machine, units, unit);
    match machine.unit(position) {
        Some(found) => {
            let (number, register) = wait_of(accepted, machine, units, events, position, found);
            signals_at_work(found, number, register)
        }
        None => signals_free(),
    }
}
