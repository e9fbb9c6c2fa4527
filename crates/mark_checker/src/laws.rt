//! Laws: each function does nothing, and its contract is a theorem about the definitions alone.

ghost use Rattle.std.specs.Prelude.{◌≡◌, ℕ, Some, List, slice_get};
ghost use Rattle.task_descriptor.specs.Listing.{Listing, IsWellFormed};
ghost use Rattle.task_descriptor.specs.declared.descriptor.Marked.{Marked};
ghost use Rattle.task_descriptor.specs.declared.descriptor.Descriptor.{Descriptor};
ghost use Rattle.mask_certificate.specs.Lists.{mask_at, list_of};
ghost use Rattle.mark_checker.specs.Places.{IsAccepted, PlaceSays};

/// Law: at one place of an accepted program, the mask has every destination and every register of its inner
/// successors' masks, and lies in the create mask where the place is reached from the entry.
pub fn accepted_place()
    ensures { (p : Listing) (cert : List (List (ℕ × ℕ))) → IsWellFormed p → IsAccepted p cert → (t i mask : ℕ) (d : Descriptor) (m : Marked)
        → slice_get p.tasks t ≡ Some d → slice_get p.code i ≡ Some m → mask_at (list_of cert t) i ≡ Some mask
        → PlaceSays p d (list_of cert t) i m mask }
{}

/// Law: the entry of each task of an accepted program has a mask.
pub fn accepted_entry()
    ensures { (p : Listing) (cert : List (List (ℕ × ℕ))) → IsWellFormed p → IsAccepted p cert → (t : ℕ) (d : Descriptor)
        → slice_get p.tasks t ≡ Some d → (mask : ℕ) × (mask_at (list_of cert t) d.entry ≡ Some mask) }
{}
