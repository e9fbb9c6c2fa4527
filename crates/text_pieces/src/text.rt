//! A text that is held in pieces.

use crate::piece::Piece;
use std::alloc::{AllocError, Global};
use std::marker::Model;
use std::mem;

/// A text, cut after LFs into pieces. A contract sees its bytes, one after another.
#[derive(Debug, Drop)]
pub struct Text {
    lines: Vec<Piece>,
    last: Piece,
}

impl Model for Text {
    ghost use Rattle.std.specs.Prelude.{ℕ, List, ◌++◌};

    ghost Value = { List ℕ };

    ghost use Rattle.std.specs.List.{All};
    ghost use Rattle.text_pieces.specs.Pieces.{joined, IsLines};

    ghost view = { λ t. joined t.lines.items ++ t.last };

    ghost invariant = { λ t. All (λ piece. IsLines piece) t.lines.items };
}

impl Text {
    ghost use Rattle.std.specs.Prelude.{◌≡◌, ◌≤◌, ◌++◌, ◌↔◌, length, map, true, OnOk, IfOk};
    ghost use Rattle.text_pieces.specs.Pieces.{joined, AreCut};

    /// The text of these bytes, in one piece.
    pub fn new(alloc: Global, bytes: Vec<u8>) -> Text
        ensures { result ≡ bytes.items }
    {
        Text {
            lines: Vec::new(alloc),
            last: Piece::new(bytes, 0),
        }
    }

    /// Adds bytes at the end. Those that complete the last line join its piece; the others become a piece of
    /// their own.
    ///
    /// # Errors
    ///
    /// `AllocError` where memory was refused; what the text is then is not known.
    pub fn append(&mut self, bytes: Vec<u8>) -> Result<(), AllocError>
        ensures { OnOk result (self.new ≡ self.old ++ bytes.items) }
    {
        let count = self.last.complete(&bytes)?;
        if count < bytes.len() {
            let last = mem::replace(&mut self.last, Piece::new(bytes, count));
            self.lines.push(last)?;
        }
        Ok(())
    }

    /// Whether the text has at most `most` bytes.
    pub fn is_within(&self, most: usize) -> bool
        ensures { (result ≡ true) ↔ (length self.now ≤ most) }
    {
        let mut left = most;
        for piece in &self.lines {
            let count = piece.as_slice().len();
            if left < count {
                return false;
            }
            left -= count;
        }
        self.last.as_slice().len() <= left
    }

    /// The pieces in order, cut after LFs; together they are the text.
    ///
    /// # Errors
    ///
    /// `AllocError` where memory was refused.
    pub fn pieces(&self, alloc: Global) -> Result<Vec<&[u8]>, AllocError>
        ensures joined { IfOk result (λ pieces. joined (map (λ piece. piece.now) pieces.items) ≡ self.now) }
        ensures cut { IfOk result (λ pieces. AreCut (map (λ piece. piece.now) pieces.items)) }
    {
        let mut pieces = Vec::with_capacity(alloc, self.lines.len() + 1)?;
        for piece in &self.lines {
            pieces.push(piece.as_slice())?;
        }
        pieces.push(self.last.as_slice())?;
        Ok(pieces)
    }
}
