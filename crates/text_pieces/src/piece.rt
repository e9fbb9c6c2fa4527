//! One piece of a text.

use std::alloc::{AllocError, Global};
use std::marker::Model;

/// One piece of a text. The front of its memory may hold bytes that complete the last line of the piece before
/// and belong to it; removing them here would move all the others.
#[derive(Debug, Drop)]
pub struct Piece {
    memory: Vec<u8>,
    from: usize,
}

impl Model for Piece {
    ghost use Rattle.std.specs.Prelude.{ℕ, List, ◌≤◌, drop, vec_len};

    ghost Value = { List ℕ };

    ghost view = { λ p. drop p.from p.memory.items };

    ghost invariant = { λ p. p.from ≤ vec_len p.memory };
}

impl Piece {
    ghost use Rattle.std.specs.Prelude.{◌≡◌, ℕ, ◌+◌, ◌≤◌, ◌<◌, ◌++◌, length, take, drop, slice_index, vec_len, IfOk};
    ghost use Rattle.text_pieces.specs.Pieces.{IsLines};

    /// The piece with the bytes of `memory` from byte `from` on.
    pub fn new(memory: Vec<u8>, from: usize) -> Piece
        requires { from ≤ vec_len memory }
        ensures { result ≡ drop from memory.items }
    {
        Piece { memory, from }
    }

    /// The bytes of the piece.
    pub fn as_slice(&self) -> &[u8]
        ensures { result.now ≡ self.now }
    {
        &self.memory[self.from..]
    }

    /// Completes the piece's last line from `more`, which follows it in the text, and returns how many bytes it
    /// took: none if the piece ends with LF, all of them if `more` has no LF.
    ///
    /// # Errors
    ///
    /// `AllocError` where memory was refused; what the piece is then is not known.
    pub fn complete(&mut self, more: &[u8]) -> Result<usize, AllocError>
        ensures within { IfOk result (λ count. count ≤ length more.now) }
        ensures bytes { IfOk result (λ count. self.new ≡ self.old ++ take count more.now) }
        ensures lines { IfOk result (λ count. count < length more.now → IsLines self.new) }
        ensures none { IfOk result (λ count. IsLines self.old → count ≡ 0) }
        ensures first { IfOk result (λ count. (i : ℕ) → i + 1 < count → slice_index more.now i ≡ 10 → ⊥) }
    {
        let count = if is_lines(self.as_slice()) {
            0
        } else {
            first_line_length(more)
        };
        self.memory.extend_from_slice(&more[..count])?;
        Ok(count)
    }
}

ghost use Rattle.std.specs.Prelude.{◌≡◌, ℕ, ◌+◌, ◌≤◌, ◌<◌, ◌-◌, ◌↔◌, true, length, slice_index};
ghost use Rattle.text_pieces.specs.Pieces.{IsLines};

/// Whether nothing follows the last LF.
fn is_lines(bytes: &[u8]) -> bool
    ensures { (result ≡ true) ↔ IsLines bytes.now }
{
    bytes.is_empty() || bytes[bytes.len() - 1] == b'\n'
}

/// How long the first line is with its LF; the whole length where there is no LF.
fn first_line_length(bytes: &[u8]) -> usize
    ensures within { result ≤ length bytes.now }
    ensures line { result < length bytes.now → (0 < result) × (slice_index bytes.now (result - 1) ≡ 10) }
    ensures first { (i : ℕ) → i + 1 < result → slice_index bytes.now i ≡ 10 → ⊥ }
{
    match bytes.iter().position(|byte| *byte == b'\n') {
        Some(place) => place + 1,
        None => bytes.len(),
    }
}
