//! Lists of code indices.

use mips_instructions::number::Place;
use std::marker::Model;

/// A list of code indices, such as a descriptor's targets.
#[derive(Debug, Drop)]
pub struct Places {
    items: Vec<Place>,
}

impl Model for Places {
    ghost use Rattle.std.specs.Prelude.{ℕ, List};

    ghost Value = { List ℕ };

    ghost view = { λ places. places.items.items };
}

impl Places {
    ghost use Rattle.std.specs.Prelude.{◌≡◌};

    /// The list with these code indices, in the same order.
    pub fn new(items: Vec<Place>) -> Places
        ensures { result ≡ items.items }
    {
        Places { items }
    }

    /// The code indices, in their order.
    pub fn as_slice(&self) -> &[Place]
        ensures { result.now ≡ self.now }
    {
        &self.items
    }

    /// The code indices as a `Vec`, in their order.
    pub fn into_vec(self) -> Vec<Place>
        ensures { result.items ≡ self }
    {
        self.items
    }
}
