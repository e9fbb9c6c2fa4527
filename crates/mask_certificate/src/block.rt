//! Lists of a certificate's text that are read before their turn comes.

use crate::certificate::is_right;
use crate::fault::MaskSpelling;
use crate::reading::list_of;
use mips_instructions::number::RegSet;
use std::alloc::{AllocError, Global};
use std::marker::Model;

/// The entries of a certificate text from an offset up to the first line that is not an entry: what reading
/// needs of one task's list, and what it can find out before it knows whose list it is. This includes whether
/// the list rises, so that whoever takes over the block need not look at each entry again. A contract sees a
/// block as its spelling, text and offset; they determine the rest.
#[derive(Drop)]
pub struct Block<'a> {
    spelling: MaskSpelling,
    text: &'a [u8],
    start: usize,
    list: Vec<(u32, RegSet)>,
    end: usize,
    right: bool,
}

impl<'a> Model for Block<'a> {
    ghost use Rattle.mask_certificate.specs.Blocks.{BlockView, IsBlock};

    ghost Value = { BlockView };

    ghost view = { λ b. record { spelling = b.spelling; text = b.text.now; start = b.start } };

    ghost invariant = { λ b. IsBlock b.spelling b.text.now b.start b.list.items b.end b.right };
}

impl<'a> Block<'a> {
    ghost use Rattle.std.specs.Prelude.{◌≡◌, ◌≤◌, ◌+◌, ◌-◌, length, drop, IfOk};
    ghost use Rattle.mask_certificate.specs.CertificateReading.{lines_in, entries_in};
    ghost use Rattle.mask_certificate.specs.Blocks.{IsEnd, TellsOf};

    /// Reads the block that begins at byte `start` of a text.
    ///
    /// # Errors
    ///
    /// `AllocError` where memory was refused.
    pub fn read(
        alloc: Global,
        spelling: MaskSpelling,
        text: &'a [u8],
        start: usize,
    ) -> Result<Block<'a>, AllocError>
        requires { start ≤ length text.now }
        ensures { IfOk result (λ block. block ≡ record { spelling = spelling; text = text.now; start = start }) }
    {
        let (list, rest) = list_of(alloc, spelling, &text[start..])?;
        let right = is_right(&list);
        Ok(Block {
            spelling,
            text,
            start,
            list,
            end: text.len() - rest.len(),
            right,
        })
    }

    /// The spelling of its masks.
    pub fn spelling(&self) -> MaskSpelling
        ensures { result ≡ self.now.spelling }
    {
        self.spelling
    }

    /// The offset in bytes at which it begins.
    pub fn start(&self) -> usize
        ensures { result ≡ self.now.start }
    {
        self.start
    }

    /// The offset in bytes after its last entry: where the first line that is not an entry begins, or the
    /// text's end.
    pub fn end(&self) -> usize
        ensures within { result ≤ length self.now.text }
        ensures lines { lines_in self.now.spelling (drop result self.now.text)
            ≡ drop (length (entries_in (lines_in self.now.spelling (drop self.now.start self.now.text)))) (lines_in self.now.spelling (drop self.now.start self.now.text)) }
    {
        self.end
    }

    /// The entries, whether they are right as a list of a certificate, and the text after them.
    pub(crate) fn into_parts(self) -> (Vec<(u32, RegSet)>, bool, &'a [u8])
        ensures entries { result.0.items ≡ entries_in (lines_in self.entry.spelling (drop self.entry.start self.entry.text)) }
        ensures told { TellsOf result.0.items result.1 }
        ensures rest { lines_in self.entry.spelling result.2.now ≡ drop (length result.0.items) (lines_in self.entry.spelling (drop self.entry.start self.entry.text)) }
        ensures shorter { length result.0.items + length result.2.now ≤ length self.entry.text - self.entry.start }
        ensures end { IsEnd self.entry.text result.2.now }
    {
        let Block {
            spelling: _,
            text,
            start: _,
            list,
            end,
            right,
        } = self;
        (list, right, &text[end..])
    }
}
