//! A text in parts, and what was read of each before.

use crate::block::Block;
use std::alloc::Global;
use std::marker::Model;

/// A part of a certificate's text, and blocks of it that were read before, the first block of the text last. A
/// contract sees it as its bytes: only speed depends on the blocks.
#[derive(Drop)]
pub struct CertificatePart<'a> {
    text: &'a [u8],
    blocks: Vec<Block<'a>>,
}

impl<'a> Model for CertificatePart<'a> {
    ghost use Rattle.std.specs.Prelude.{ℕ, List};
    ghost use Rattle.mask_certificate.specs.Blocks.{AreOf};

    ghost Value = { List ℕ };

    ghost view = { λ p. p.text.now };

    ghost invariant = { λ p. AreOf p.text.now p.blocks.items };
}

impl<'a> CertificatePart<'a> {
    ghost use Rattle.std.specs.Prelude.{◌≡◌};
    ghost use Rattle.mask_certificate.specs.Blocks.{AreOf};

    /// A part of which nothing was read before.
    pub fn new(alloc: Global, text: &'a [u8]) -> CertificatePart<'a>
        ensures { result ≡ text.now }
    {
        CertificatePart {
            text,
            blocks: Vec::new(alloc),
        }
    }

    /// A part of which these blocks were read before.
    pub fn with_blocks(text: &'a [u8], blocks: Vec<Block<'a>>) -> CertificatePart<'a>
        requires { AreOf text.now blocks.items }
        ensures { result ≡ text.now }
    {
        CertificatePart { text, blocks }
    }

    /// The bytes and the blocks.
    pub(crate) fn into_parts(self) -> (&'a [u8], Vec<Block<'a>>)
        ensures text { result.0.now ≡ self.entry }
        ensures blocks { AreOf self.entry result.1.items }
    {
        let CertificatePart { text, blocks } = self;
        (text, blocks)
    }
}
