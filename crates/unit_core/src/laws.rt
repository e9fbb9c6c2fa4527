//! Laws: each function does nothing, and its contract is a theorem about the definitions alone.

ghost use Rattle.std.specs.Prelude.{◌≡◌, ℕ, Some, slice_get};
ghost use Rattle.task_descriptor.specs.Listing.{IsWellFormed};
ghost use Rattle.task_descriptor.specs.declared.descriptor.Marked.{Marked};
ghost use Rattle.mark_checker.specs.Places.{Checked, IsAccepted};
ghost use Rattle.machine_model.specs.Machine.{Active};
ghost use Rattle.machine_model.specs.Unit.{after_exec};
ghost use Rattle.machine_model.specs.declared.event.Spot.TheVariants.{Inside};
ghost use Rattle.unit_core.specs.Units.{IsPlaced};
ghost use Rattle.unit_core.specs.SentRegisters.{KeepsSent, SentStays};

/// Law: where none of a unit's sent registers is in the mask of the unit's place, this holds after each Exec
/// too, whatever its operands and memory are, and each keeps its value.
pub fn sent_registers_kept()
    ensures { (c : Checked) → IsWellFormed c.program → IsAccepted c.program c.cert → (u : Active) → IsPlaced c u → KeepsSent c u
        → (index : ℕ) (m : Marked) (a b : ℕ) (memory : ℕ → ℕ) → u.place ≡ Inside index → slice_get c.program.code index ≡ Some m
        → SentStays c u (after_exec c.program u m index a b memory) }
{}
