//! What a worker does to a machine and to its bursts.

ghost use Rattle.std.specs.Prelude.{◌≡◌, ℕ, ◌<◌, ◌≤◌, Result, IfOk, IfErr, IsOk, IsSomeAnd, IsTrue, OnOk, OnErr, false};
ghost use Rattle.machine_model.specs.declared.event.Event.{Event};
ghost use Rattle.machine_model.specs.declared.event.Refused.{Refused};
ghost use Rattle.machine_model.specs.declared.event.Standing.TheVariants as standing;
ghost use Rattle.machine_model.specs.Machine.{Active};
ghost use Rattle.unit_core.specs.Bursts.{BurstView, IsBurstToSend, lent};
ghost use Rattle.sequencer.specs.Machines.{MachineView, state, Applies, IsAnswered, SameRing};
ghost use Rattle.sequencer.specs.Bursts.{IsAtWork, IsFresh, IsRefusedBurst, Takes};
ghost use Rattle.threaded_runner.specs.Lending.{IsLent};

use machine_model::event::{Event, Refused};
use sequencer::machine::Machine;
use std::marker::Brand;
use unit_core::burst::Burst;

/// What a worker does to a machine and to its bursts. Nothing is known of the four relations but that these functions
/// establish them. So a contract that states one of them, of code that is proved for each implementation, says
/// that the function was called, with these arguments, and answered this.
pub(crate) trait Deeds {
    /// A machine was asked to apply an event, and answered this.
    ghost was_asked: { MachineView → Event → Result (Unit {0}) Refused → Type 0 };

    /// A burst was handed in to a machine, which answered this.
    ghost was_handed_in: { MachineView → BurstView → Result ℕ Refused → Type 0 };

    /// The unit with this number was lent by a machine, as this burst without a step.
    ghost was_lent: { MachineView → (unit : ℕ) → BurstView → Type 0 };

    /// At most this many instructions were executed on a burst without a step, which became this one.
    ghost was_made: { BurstView → (most : ℕ) → BurstView → Type 0 };

    /// Applies an event.
    fn apply(machine: &mut Machine<'_>, event: Event) -> Result<(), Refused>
        ensures answer { IsAnswered machine.old event result }
        ensures ok { OnOk result (Applies machine.old event machine.new) }
        ensures err { OnErr result (machine.new ≡ machine.old) }
        ensures kept { SameRing machine.old machine.new }
        ensures asked { was_asked machine.old event result };

    /// Hands in a burst.
    fn hand_in(machine: &mut Machine<'_>, burst: &mut Burst<'_>) -> Result<u32, Refused>
        requires { burst.old.accepted ≡ machine.old.accepted }
        ensures running { IsOk result → (state machine.old).outcome ≡ standing.Running }
        ensures taken { IfOk result (λ events. 0 < events → (events ≡ burst.old.steps) × Takes machine.old burst.old machine.new) }
        ensures stale { IfOk result (λ events. events ≡ 0 → (IsFresh machine.old burst.old → ⊥) × (machine.new ≡ machine.old)) }
        ensures refused { IfErr result (λ why. (machine.new ≡ machine.old) × IsRefusedBurst machine.old burst.old why) }
        ensures kept { SameRing machine.old machine.new }
        ensures handed_in { was_handed_in machine.old burst.old result };

    /// Lends a unit into the slot, which keeps the room of the previous burst; answers whether it did.
    fn lend<'a>(machine: &Machine<'a>, unit: u32, slot: &mut Option<Burst<'a>>) -> bool
        ensures lent { IsTrue result → IsSomeAnd slot.new (λ burst. IsLent machine.now unit burst × was_lent machine.now unit burst) }
        ensures none { result ≡ false → (u : Active) → IsAtWork machine.now unit u → ⊥ };

    /// Executes instructions on the unit that was lent, up to the first that sends a register, so that the next unit
    /// gets it soon.
    fn make(burst: &mut Burst<'_>, most: u32)
        requires few { most ≤ 65536 }
        requires none { burst.old.steps ≡ 0 }
        ensures burst { IsBurstToSend (lent burst.old) most burst.new }
        ensures made { was_made burst.old most burst.new };
}

impl Deeds for Brand {
    ghost was_asked = { λ m e answer. IsAnswered m e answer };

    ghost was_handed_in = { λ m b answer. Unit {0} };

    ghost was_lent = { λ m unit burst. IsLent m unit burst };

    ghost was_made = { λ begun most burst. IsBurstToSend (lent begun) most burst };

    #[inline]
    fn apply(machine: &mut Machine<'_>, event: Event) -> Result<(), Refused> {
        machine.apply(event)
    }

    #[inline]
    fn hand_in(machine: &mut Machine<'_>, burst: &mut Burst<'_>) -> Result<u32, Refused> {
        machine.take_own_burst(burst)
    }

    #[inline]
    fn lend<'a>(machine: &Machine<'a>, unit: u32, slot: &mut Option<Burst<'a>>) -> bool {
        match slot {
            Some(burst) => machine.lend(unit, burst),
            None => lend_first(machine, unit, slot),
        }
    }

    #[inline]
    fn make(burst: &mut Burst<'_>, most: u32) {
        burst.go_to_send(most);
    }
}

/// Lends a unit into the empty slot; out of line, since it moves the burst there.
#[inline(never)]
fn lend_first<'a>(machine: &Machine<'a>, unit: u32, slot: &mut Option<Burst<'a>>) -> bool
    ensures lent { IsTrue result → IsSomeAnd slot.new (λ burst. IsLent machine.now unit burst) }
    ensures none { result ≡ false → (u : Active) → IsAtWork machine.now unit u → ⊥ }
{
    match machine.lease(unit) {
        Some(lease) => {
            *slot = Some(Burst::new(lease));
            true
        }
        None => false,
    }
}
