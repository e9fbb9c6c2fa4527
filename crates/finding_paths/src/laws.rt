//! Laws: each function does nothing, and its contract is a theorem about the definitions alone.

ghost use Rattle.std.specs.Prelude.{ℕ, List};
ghost use Rattle.task_descriptor.specs.Listing.{Listing};
ghost use Rattle.task_graph.specs.Soundness.{Sound};
ghost use Rattle.mark_checker.specs.declared.finding.Finding.{Finding};
ghost use Rattle.finding_paths.specs.Shown.{Shows};

/// Law: where a path shows a finding, the marks are not sound.
pub fn shown_is_unsound()
    ensures { (p : Listing) (f : Finding) (path : List ℕ) → Shows p f path → Sound p → ⊥ }
{}
