//! Laws: each function does nothing, and its contract is a theorem about the definitions alone.

ghost use Rattle.std.specs.Prelude.{◌≡◌, ℕ, List, Ok};
ghost use Rattle.task_descriptor.specs.Listing.{Listing};
ghost use Rattle.annotated_asm.specs.ProgramText.{parse};
ghost use Rattle.annotated_asm.specs.Sources.{Sources, HasPlacesOf, sources_of};

/// Law: a text that spells a program has a source map, which has a position and a width for each instruction
/// and the positions of each task of the program, and of no other.
pub fn map_fits()
    ensures { (text : List ℕ) (p : Listing) → parse text ≡ Ok p
        → (s : Sources) × (sources_of text ≡ Ok s) × HasPlacesOf s p }
{}
