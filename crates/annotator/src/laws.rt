//! Laws: each function does nothing, and its contract is a theorem about the definitions alone.

ghost use Rattle.std.specs.Prelude.{◌≡◌, ◌↔◌, ℕ, true, Some, List, slice_get};
ghost use Rattle.mips_instructions.specs.Words.{has};
ghost use Rattle.task_descriptor.specs.Listing.{Listing, IsWellFormed};
ghost use Rattle.task_descriptor.specs.declared.descriptor.Descriptor.{Descriptor};
ghost use Rattle.task_graph.specs.Soundness.{Sound};
ghost use Rattle.mask_certificate.specs.Lists.{mask_at, list_of};
ghost use Rattle.mark_checker.specs.Places.{IsAccepted};
ghost use Rattle.annotator.specs.Least.{IsLeast, IsWithin};

/// Law: the least certificate is accepted exactly where the program's annotations are sound. So where it is
/// refused no certificate helps, and the marks themselves are wrong.
pub fn least_decides()
    ensures { (p : Listing) (cert : List (List (ℕ × ℕ))) → IsWellFormed p → IsLeast p cert → (IsAccepted p cert ↔ Sound p) }
{}

/// Law: where any certificate of a program is accepted, the least one is.
pub fn least_is_accepted()
    ensures { (p : Listing) (cert other : List (List (ℕ × ℕ))) → IsWellFormed p → IsLeast p cert → IsAccepted p other → IsAccepted p cert }
{}

/// Law: each least mask lies within the mask of any certificate that is accepted.
pub fn least_is_within()
    ensures { (p : Listing) (cert other : List (List (ℕ × ℕ))) → IsWellFormed p → IsLeast p cert → IsAccepted p other
        → (t : ℕ) (d : Descriptor) → slice_get p.tasks t ≡ Some d → IsWithin (list_of cert t) (list_of other t) }
{}
