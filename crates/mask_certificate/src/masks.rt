//! The masks of one list, each found by its index in one step.

use mips_instructions::number::RegSet;
use std::marker::Model;

/// The masks of one task, each found by its code index in one step. Takes no memory from the allocator.
#[derive(Drop)]
pub struct Masks<'a> {
    entries: &'a [(u32, RegSet)],
    // At the index of an entry, its position. Any other index holds an arbitrary number: a position is
    // trusted only where the entry there has the index.
    positions: [u16; 4096],
}

impl<'a> Model for Masks<'a> {
    ghost use Rattle.std.specs.Prelude.{◌≡◌, ℕ, List, length};

    ghost Value = { List (ℕ × ℕ) };

    ghost use Rattle.mask_certificate.specs.Lists.{ArePositions, Rises};

    ghost view = { λ m. m.entries.now };

    ghost invariant = { λ m. Rises m.entries.now × ArePositions m.entries.now m.positions };
}

impl<'a> Masks<'a> {
    ghost use Rattle.std.specs.Prelude.{◌≡◌};
    ghost use Rattle.mask_certificate.specs.Lists.{Rises, mask_at};

    /// The masks of a list of entries, which rises, as each list of a certificate does.
    pub fn new(entries: &'a [(u32, RegSet)]) -> Masks<'a>
        requires { Rises entries.now }
        ensures { result ≡ entries.now }
    {
        let mut positions = [0; 4096];
        for (position, entry) in entries.iter().enumerate() {
            positions[entry.0 as usize] = position as u16;
        }
        Masks { entries, positions }
    }

    /// The entries, by rising code index.
    pub fn entries(&self) -> &'a [(u32, RegSet)]
        ensures { result.now ≡ self.now }
    {
        self.entries
    }

    /// The mask at a code index; `None` where there is none.
    #[inline]
    pub fn at(&self, index: u32) -> Option<RegSet>
        ensures { result ≡ mask_at self.now index }
    {
        let position = *self.positions.get(index as usize)?;
        let entry = self.entries.get(position as usize)?;
        if entry.0 == index {
            Some(entry.1)
        } else {
            None
        }
    }
}
