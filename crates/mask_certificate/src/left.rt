//! How far a text in parts has been read.

use crate::block::Block;
use crate::fault::MaskSpelling;
use crate::part::CertificatePart;
use crate::reading::list_at;
use mips_instructions::number::RegSet;
use std::alloc::{AllocError, Global};
use std::marker::Model;
use std::vec::IntoIter;

/// What is still to be read of a text in parts, cut after LFs: the rest of one part, and the parts after
/// it. At the end of a part the next one begins.
#[derive(Drop)]
pub(crate) struct Left<'a> {
    text: &'a [u8],
    rest: &'a [u8],
    blocks: Vec<Block<'a>>,
    behind: IntoIter<CertificatePart<'a>>,
}

impl<'a> Model for Left<'a> {
    ghost use Rattle.std.specs.Vec.Iter.{into_iter_items};
    ghost use Rattle.mask_certificate.specs.Left.{Left as LeftOf, IsLeft};

    ghost Value = { LeftOf };

    ghost view = { λ l. record { rest = l.rest.now; behind = into_iter_items l.behind } };

    ghost invariant = { λ l. IsLeft l.text.now l.blocks.items l.rest.now (into_iter_items l.behind) };
}

impl<'a> Left<'a> {
    ghost use Rattle.std.specs.Prelude.{◌≡◌, ◌+◌, ◌++◌, [], ◌∷◌, length, drop, true, false, IfOk};
    ghost use Rattle.mask_certificate.specs.CertificateReading.{lines_in, entries_in};
    ghost use Rattle.text_pieces.specs.Pieces.{joined, AreCut};
    ghost use Rattle.mask_certificate.specs.Blocks.{IsEnd, TellsOf};
    ghost use Rattle.mask_certificate.specs.Left.{left_of};

    /// All of a text.
    pub(crate) fn all(alloc: Global, parts: Vec<CertificatePart<'a>>) -> Left<'a>
        requires { AreCut parts.items }
        ensures { left_of result ≡ joined parts.entry.items }
    {
        from(&[], &[], Vec::new(alloc), parts.into_iter())
    }

    /// What is left of the part; it is empty only where nothing is left.
    pub(crate) fn rest(&self) -> &'a [u8]
        ensures rest { result.now ≡ self.now.rest }
        ensures end { length self.now.rest ≡ 0 → left_of self.now ≡ [] }
        ensures cut { AreCut (self.now.rest ∷ self.now.behind) }
    {
        self.rest
    }

    /// This text, read further, so that `rest` is what is left of the part.
    pub(crate) fn with_rest(self, rest: &'a [u8]) -> Left<'a>
        requires { IsEnd self.rest rest.now }
        ensures { left_of result ≡ rest.now ++ joined self.entry.behind }
    {
        let Left {
            text,
            rest: _,
            blocks,
            behind,
        } = self;
        from(text, rest, blocks, behind)
    }

    /// The list at the front of what is left of the part, whether it is right, whether it reaches the
    /// end of the part, and what is left of the text after it: taken from a block if one begins there, and
    /// otherwise read.
    ///
    /// # Errors
    ///
    /// `AllocError` where memory was refused.
    pub(crate) fn list(
        self,
        alloc: Global,
        spelling: MaskSpelling,
    ) -> Result<(Vec<(u32, RegSet)>, bool, bool, Left<'a>), AllocError>
        ensures entries { IfOk result (λ found. found.0.items ++ entries_in (lines_in spelling (left_of found.3)) ≡ entries_in (lines_in spelling (left_of self.entry))) }
        ensures rest { IfOk result (λ found. lines_in spelling (left_of found.3) ≡ drop (length found.0.items) (lines_in spelling (left_of self.entry))) }
        ensures told { IfOk result (λ found. TellsOf found.0.items found.1) }
        ensures stays { IfOk result (λ found. found.2 ≡ false → entries_in (lines_in spelling (left_of found.3)) ≡ []) }
        ensures goes_on { IfOk result (λ found. found.2 ≡ true → length self.entry.rest + length (left_of found.3) ≡ length (left_of self.entry)) }
    {
        let Left {
            text,
            rest,
            mut blocks,
            behind,
        } = self;
        let (list, right, after) = list_at(alloc, spelling, text, rest, &mut blocks)?;
        let left = from(text, after, blocks, behind);
        Ok((list, right, after.is_empty(), left))
    }
}

ghost use Rattle.std.specs.Prelude.{◌≡◌, ◌++◌, ◌∷◌};
ghost use Rattle.std.specs.Vec.Iter.{into_iter_items};
ghost use Rattle.text_pieces.specs.Pieces.{joined, AreCut};
ghost use Rattle.mask_certificate.specs.Blocks.{IsEnd, AreOf};
ghost use Rattle.mask_certificate.specs.Left.{left_of};

/// What is left if `rest` is left of the part; if that is empty, the next part that is not empty begins.
fn from<'a>(
    mut text: &'a [u8],
    mut rest: &'a [u8],
    mut blocks: Vec<Block<'a>>,
    mut behind: IntoIter<CertificatePart<'a>>,
) -> Left<'a>
    requires end { IsEnd text.now rest.now }
    requires blocks { AreOf text.now blocks.items }
    requires cut { AreCut (text.now ∷ into_iter_items behind) }
    ensures { left_of result ≡ rest.now ++ joined (into_iter_items behind.entry) }
{
    while rest.is_empty() {
        let Some(part) = behind.next() else {
            break;
        };
        (text, blocks) = part.into_parts();
        rest = text;
    }
    Left {
        text,
        rest,
        blocks,
        behind,
    }
}
