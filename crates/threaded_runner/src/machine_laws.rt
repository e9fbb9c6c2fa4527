//! Laws of every machine: each call does nothing.

ghost use Rattle.std.specs.Prelude.{◌≡◌, ℕ, ◌<◌, ◌≤◌, length, Ok};
ghost use Rattle.machine_model.specs.declared.event.Event.TheVariants.{Drop, Exec};
ghost use Rattle.machine_model.specs.declared.event.Standing.TheVariants as standing;
ghost use Rattle.machine_model.specs.Answer.{most_events};
ghost use Rattle.machine_model.specs.Replay.{Replays};
ghost use Rattle.sequencer.specs.Machines.{answer_to, state, units_of};
ghost use Rattle.sequencer.specs.Rings.{unit_for};
ghost use Rattle.threaded_runner.specs.Counts.{retired_by, active_by};
ghost use Rattle.unit_turns.specs.Turns.{turn_of};
ghost use Rattle.unit_turns.specs.declared.turn.Turn.TheVariants.{Wait};

use crate::laws::history_counts;
use sequencer::machine::Machine;
use unit_turns::laws::law_goes_on;

/// The machine is the replay of its history, which has room for itself and gives how many tasks have
/// retired and how many units are at work.
pub(crate) fn law_replay(machine: &Machine<'_>)
    ensures replay { Replays machine.now.accepted.program (units_of machine.now) machine.now.history (state machine.now) }
    ensures room { length machine.now.history ≤ most_events }
    ensures retired { retired_by machine.now.history ≡ length (state machine.now).commits }
    ensures active { active_by machine.now.history ≡ length (state machine.now).queue }
{
    history_counts();
    let _ = machine.history();
}

/// The unit at position 0 waits only where all units do.
pub(crate) fn law_head_waits(machine: &Machine<'_>)
    ensures { turn_of machine.now (unit_for machine.now (Exec 0)) ≡ Wait → (unit : ℕ) → turn_of machine.now unit ≡ Wait }
{
    law_goes_on(machine);
}

/// A unit at work ahead of the head may always be dropped.
pub(crate) fn law_drop(machine: &Machine<'_>, position: u32)
    requires running { (state machine.now).outcome ≡ standing.Running }
    requires room { length machine.now.history < most_events }
    requires ahead { 0 < position }
    requires within { position < length (state machine.now).queue }
    ensures { answer_to machine.now (Drop position) ≡ Ok tt }
{
    machine.law_answers();
}
