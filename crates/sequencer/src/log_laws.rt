//! Laws about the logs of a machine's units: each function does nothing, and its contract is a theorem about the
//! definitions alone.

ghost use Rattle.sequencer.specs.Logs.{LengthTellsLog, LogsGrow};

use machine_model::laws::{next_is_after, replays_join};

/// Law: a unit's log only grows: later in the same machine the log of the unit with its serial number is its
/// log with reads appended.
pub fn logs_grow()
    ensures { LogsGrow }
{
    replays_join();
    next_is_after();
}

/// Law: in one machine a serial number and the length of a log tell the log. So a burst whose unit has the
/// serial number and the length of the log that it was lent with has the log too, which is not compared.
pub fn length_tells_log()
    ensures { LengthTellsLog }
{
    logs_grow();
}
