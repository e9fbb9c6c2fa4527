//! Reading a certificate's text by several workers.
//!
//! The text lies in pieces, and each is cut into shares. A worker draws shares and reads the lists of the
//! tasks whose lines begin there, as blocks, without knowing which tasks these are or whether all before
//! them is right. Then the whole is read in order, as by one reader, except that a list for which
//! there is a block is not read again.

ghost use Rattle.std.specs.Prelude.{◌≡◌, ◌≢◌, ◌↔◌, ◌⊎◌, ◌+◌, ◌*◌, ◌<◌, ◌≤◌, true, ℕ, List, [], length, map, slice_get, slice_index_or, Some, Ok, Err, OnOk, IfOk, IfSome};
ghost use Rattle.std.specs.List.{All};
ghost use Rattle.std.specs.List.Sorted.{IsPermutation};
ghost use Rattle.mask_certificate.specs.CertificateText.{Spells};
ghost use Rattle.mask_certificate.specs.CertificateReading.{cert_parse, names_of};
ghost use Rattle.mask_certificate.specs.Blocks.{BlockView};
ghost use Rattle.std.specs.declared.alloc.Global.{Global};
ghost use Rattle.std.specs.declared.vec.Vec.{Vec};
ghost use Rattle.text_pieces.specs.Pieces.{joined, AreCut};
ghost use Rattle.parallel_check.specs.Shares.{AreFound, AreGroups, AreInOrder, IsLastFirst, count_in, share_start};

use crate::gate::ReadGate;
use crate::numbers::{End, Numbers};
use limits::ranges::MOST_WORKERS;
use mask_certificate::block::Block;
use mask_certificate::certificate::Cert;
use mask_certificate::fault::{CertFault, MaskSpelling};
use mask_certificate::part::CertificatePart;
use mask_certificate::reading::{read_parts, spelling_in};
use std::alloc::{AllocError, Global};
use std::marker::Model;
use std::thread::Threads;
use std::{mem, thread};
use task_descriptor::program::{MOST_TASKS, Program};
use text_pieces::text::Text;

/// The least number of bytes of a text that is shared out. A shorter one is read in less time than threads are made.
const LEAST_SHARED: usize = 65_536;

/// How many shares of the text there are for each worker: several, so that none waits long for the others
/// at the end.
const SHARES_EACH: usize = 8;

/// The certificate that a text in pieces, cut after LFs, spells for the tasks of a program, read by several
/// workers. Any number of workers will do: 0 counts as 1, and more than 16 count as 16. A short text is read by
/// one.
///
/// # Errors
///
/// Those of `mask_certificate::reading::read`, whatever the number of workers.
pub fn read_shared<G: ReadGate, R: Threads + Sync>(
    rt: &R,
    alloc: Global,
    text: &Text,
    program: &Program,
    workers: u32,
    gate: &G,
) -> Result<Cert, CertFault>
    ensures parsed { (result ≡ Err CertFault.OutOfMemory) ⊎ (result ≡ cert_parse text.now (names_of program.now)) }
    ensures spelled { result ≢ Err CertFault.OutOfMemory
        → (cert : List (List (ℕ × ℕ))) → (result ≡ Ok cert) ↔ Spells text.now (names_of program.now) cert }
{
    let pieces = text.pieces(alloc)?;
    ReadAhead::new(rt, alloc, &pieces, workers, gate)?.read(alloc, program)
}

/// Whether the text in these pieces is shared out among so many workers: it has 65,536 bytes or more, and there
/// are at least two workers.
pub fn is_shared_out(pieces: &[&[u8]], workers: u32) -> bool
    ensures { (result ≡ true) ↔ ((1 < workers) × (65536 ≤ length (joined (map (λ piece. piece.now) pieces.now)))) }
{
    workers > 1 && is_long(pieces)
}

/// Whether these pieces have enough bytes to be shared out.
fn is_long(pieces: &[&[u8]]) -> bool
    ensures { (result ≡ true) ↔ (65536 ≤ length (joined (map (λ piece. piece.now) pieces.now))) }
{
    let mut missing = LEAST_SHARED;
    for piece in pieces {
        if piece.len() >= missing {
            return true;
        }
        missing -= piece.len();
    }
    false
}

/// What several workers have read of a certificate's text before it is known whose certificate it is: so the
/// program can be read at the same time. A contract sees it as the text.
#[derive(Drop)]
pub struct ReadAhead<'a> {
    parts: Vec<CertificatePart<'a>>,
}

impl<'a> Model for ReadAhead<'a> {
    ghost use Rattle.std.specs.Prelude.{ℕ, List};

    ghost Value = { List ℕ };

    ghost use Rattle.text_pieces.specs.Pieces.{joined, AreCut};

    ghost view = { λ r. joined r.parts.items };

    ghost invariant = { λ r. AreCut r.parts.items };
}

impl<'a> ReadAhead<'a> {
    ghost use Rattle.std.specs.Prelude.{◌≡◌, ◌≢◌, ◌↔◌, ◌⊎◌, ℕ, List, Ok, Err, IfOk, map};
    ghost use Rattle.text_pieces.specs.Pieces.{joined, AreCut};
    ghost use Rattle.mask_certificate.specs.CertificateText.{Spells};
    ghost use Rattle.mask_certificate.specs.CertificateReading.{cert_parse, names_of};

    /// Lets the workers read a text in pieces, cut after LFs. Any number of them will do: 0 counts as 1, and
    /// more than 16 count as 16. A text that is not shared out (`is_shared_out`) is left to `read`.
    ///
    /// # Errors
    ///
    /// `AllocError` where memory was refused.
    pub fn new<G: ReadGate, R: Threads + Sync>(
        rt: &R,
        alloc: Global,
        pieces: &[&'a [u8]],
        workers: u32,
        gate: &G,
    ) -> Result<ReadAhead<'a>, AllocError>
        requires { AreCut (map (λ piece. piece.now) pieces.now) }
        ensures { IfOk result (λ ahead. ahead ≡ joined (map (λ piece. piece.now) pieces.now)) }
    {
        let mut groups = blocks_of(rt, alloc, pieces, workers, gate)?;
        let parts = parts_of(alloc, pieces, &mut groups)?;
        Ok(ReadAhead { parts })
    }

    /// The certificate that the text spells for the tasks of a program.
    ///
    /// # Errors
    ///
    /// Those of `mask_certificate::reading::read`.
    pub fn read(self, alloc: Global, program: &Program) -> Result<Cert, CertFault>
        ensures parsed { (result ≡ Err CertFault.OutOfMemory) ⊎ (result ≡ cert_parse self.entry (names_of program.now)) }
        ensures spelled { result ≢ Err CertFault.OutOfMemory
            → (cert : List (List (ℕ × ℕ))) → (result ≡ Ok cert) ↔ Spells self.entry (names_of program.now) cert }
    {
        let ReadAhead { parts } = self;
        read_parts(alloc, parts, program)
    }
}

/// The blocks that the workers read, those of each piece together; none where the text is not shared out.
fn blocks_of<'a, G: ReadGate, R: Threads + Sync>(
    rt: &R,
    alloc: Global,
    pieces: &[&'a [u8]],
    workers: u32,
    gate: &G,
) -> Result<Vec<Vec<Block<'a>>>, AllocError>
    ensures groups { IfOk result (λ groups. AreGroups (map (λ piece. piece.now) pieces.now) groups.items) }
    ensures order { IfOk result (λ groups. AreInOrder (length pieces.now) groups.items) }
{
    // The first piece with bytes names it. A later piece that begins so too costs only time: `read` compares
    // the spelling of each block.
    match pieces.iter().find_map(|piece| spelling_in(piece)) {
        Some(spelling) if is_shared_out(pieces, workers) => {
            let workers = workers.min(MOST_WORKERS) as usize;
            let read = read_blocks(rt, alloc, spelling, pieces, workers, gate)?;
            by_piece(alloc, pieces, read)
        }
        _ => empty(alloc, pieces),
    }
}

/// The blocks that each worker read, each with the number of its piece. It cannot be dropped: whoever has it puts
/// the blocks with their pieces.
struct ReadBlocks<'a> {
    lists: Vec<Vec<(usize, Block<'a>)>>,
}

/// The blocks that each of these workers read, each with the number of its piece.
fn read_blocks<'a, G: ReadGate, R: Threads + Sync>(
    rt: &R,
    alloc: Global,
    spelling: MaskSpelling,
    pieces: &[&'a [u8]],
    workers: usize,
    gate: &G,
) -> Result<ReadBlocks<'a>, AllocError>
    requires { workers ≤ 16 }
    ensures each { IfOk result (λ read. length read.lists.items ≡ workers) }
    ensures found { IfOk result (λ read. All (λ list. AreFound (map (λ piece. piece.now) pieces.now) list.items) read.lists.items) }
{
    let shares = (workers * SHARES_EACH).div_ceil(pieces.len().max(1)).max(1);
    let numbers = &Numbers::below(shares.saturating_mul(pieces.len()));
    let lists = thread::map_indices(
        rt,
        alloc,
        workers,
        &|worker|
            requires { (0 < shares) × (numbers.now.count ≤ shares * length pieces.now) }
        { draw(alloc, spelling, pieces, shares, numbers, gate, worker) },
    )?;
    Ok(ReadBlocks { lists })
}

/// The blocks of all workers at the numbers of their pieces, of each piece the first of the text last.
fn by_piece<'a>(
    alloc: Global,
    pieces: &[&'a [u8]],
    read: ReadBlocks<'a>,
) -> Result<Vec<Vec<Block<'a>>>, AllocError>
    requires { All (λ list. AreFound (map (λ piece. piece.now) pieces.now) list.items) read.lists.items }
    ensures groups { IfOk result (λ groups. AreGroups (map (λ piece. piece.now) pieces.now) groups.items) }
    ensures order { IfOk result (λ groups. AreInOrder (length pieces.now) groups.items) }
    ensures all { IfOk result (λ groups. count_in groups.items ≡ count_in read.entry.lists.items) }
{
    let ReadBlocks { lists } = read;
    let found = together(alloc, pieces, lists)?;
    let mut groups = empty(alloc, pieces)?;
    put_all(pieces, found, &mut groups)?;
    order_all(pieces, &mut groups);
    Ok(groups)
}

/// The blocks of all workers.
fn together<'a>(
    alloc: Global,
    pieces: &[&'a [u8]],
    lists: Vec<Vec<(usize, Block<'a>)>>,
) -> Result<Vec<(usize, Block<'a>)>, AllocError>
    requires { All (λ list. AreFound (map (λ piece. piece.now) pieces.now) list.items) lists.items }
    ensures found { IfOk result (λ found. AreFound (map (λ piece. piece.now) pieces.now) found.items) }
    ensures all { IfOk result (λ found. length found.items ≡ count_in lists.entry.items) }
{
    let mut found = Vec::new(alloc);
    for mut list in lists {
        found.append(&mut list)?;
    }
    Ok(found)
}

/// For each piece, no block.
fn empty<'a>(alloc: Global, pieces: &[&'a [u8]]) -> Result<Vec<Vec<Block<'a>>>, AllocError>
    ensures groups { IfOk result (λ groups. AreGroups (map (λ piece. piece.now) pieces.now) groups.items) }
    ensures order { IfOk result (λ groups. AreInOrder (length pieces.now) groups.items) }
    ensures none { IfOk result (λ groups. count_in groups.items ≡ 0) }
{
    let mut groups = Vec::with_capacity(alloc, pieces.len())?;
    for _ in pieces {
        groups.push(Vec::new(alloc))?;
    }
    Ok(groups)
}

/// Puts each block after those of its piece.
fn put_all<'a>(
    pieces: &[&'a [u8]],
    found: Vec<(usize, Block<'a>)>,
    groups: &mut [Vec<Block<'a>>],
) -> Result<(), AllocError>
    requires found { AreFound (map (λ piece. piece.now) pieces.now) found.items }
    requires groups { AreGroups (map (λ piece. piece.now) pieces.now) groups.old }
    ensures groups { AreGroups (map (λ piece. piece.now) pieces.now) groups.new }
    ensures all { OnOk result (count_in groups.new ≡ count_in groups.old + length found.entry.items) }
{
    for (piece, block) in found {
        put(pieces, piece, block, groups)?;
    }
    Ok(())
}

/// Puts a block after those of its piece.
fn put<'a>(
    pieces: &[&'a [u8]],
    piece: usize,
    block: Block<'a>,
    groups: &mut [Vec<Block<'a>>],
) -> Result<(), AllocError>
    requires within { piece < length (map (λ piece. piece.now) pieces.now) }
    requires of { block.text ≡ slice_index_or (map (λ piece. piece.now) pieces.now) piece [] }
    requires groups { AreGroups (map (λ piece. piece.now) pieces.now) groups.old }
    ensures groups { AreGroups (map (λ piece. piece.now) pieces.now) groups.new }
    ensures more { OnOk result (count_in groups.new ≡ count_in groups.old + 1) }
{
    groups[piece].push(block)?;
    Ok(())
}

/// Puts the blocks of each piece in order, the first of the text last.
fn order_all<'a>(pieces: &[&'a [u8]], groups: &mut [Vec<Block<'a>>])
    requires { AreGroups (map (λ piece. piece.now) pieces.now) groups.old }
    ensures groups { AreGroups (map (λ piece. piece.now) pieces.now) groups.new }
    ensures order { AreInOrder (length pieces.now) groups.new }
    ensures all { count_in groups.new ≡ count_in groups.old }
{
    for number in 0..pieces.len() {
        order(&mut groups[number]);
    }
}

/// Puts blocks in order, the first of the text last.
fn order(blocks: &mut Vec<Block<'_>>)
    ensures same { IsPermutation blocks.old.items blocks.new.items }
    ensures order { IsLastFirst blocks.new.items }
{
    blocks.sort_unstable_by_key(|block| block.start());
    blocks.reverse();
}

/// The blocks that one worker reads: it draws the number of the next share, until none is left. Each piece
/// has as many shares. Where memory is refused it stops, and what is missing is read later.
fn draw<'a, G: ReadGate>(
    alloc: Global,
    spelling: MaskSpelling,
    pieces: &[&'a [u8]],
    shares: usize,
    numbers: &Numbers,
    gate: &G,
    worker: usize,
) -> Vec<(usize, Block<'a>)>
    requires each { 0 < shares }
    requires all { numbers.now.count ≤ shares * length pieces.now }
    ensures { AreFound (map (λ piece. piece.now) pieces.now) result.items }
{
    let worker = u32::try_from(worker).unwrap_or(MOST_WORKERS);
    let mut found = Vec::new(alloc);
    for _ in 0..numbers.count() {
        let next = read_next(
            alloc, spelling, pieces, shares, numbers, gate, worker, &mut found,
        );
        if next.is_err() {
            break;
        }
    }
    found
}

/// Draws the number of the next share and reads the blocks that begin there.
///
/// # Errors
///
/// Why the worker stops.
fn read_next<'a, G: ReadGate>(
    alloc: Global,
    spelling: MaskSpelling,
    pieces: &[&'a [u8]],
    shares: usize,
    numbers: &Numbers,
    gate: &G,
    worker: u32,
    found: &mut Vec<(usize, Block<'a>)>,
) -> Result<(), End>
    requires each { 0 < shares }
    requires all { numbers.now.count ≤ shares * length pieces.now }
    requires before { AreFound (map (λ piece. piece.now) pieces.now) found.old.items }
    ensures { AreFound (map (λ piece. piece.now) pieces.now) found.new.items }
{
    let number = numbers.draw()?.used();
    let piece = number / shares;
    let share = share_of(pieces[piece], shares, number % shares);
    read_share(alloc, spelling, pieces, piece, share, gate, worker, found)?;
    Ok(())
}

/// Where a share of a piece begins and ends: the first begins where the piece does, each other one where the
/// one before it ends, and the last ends where the piece does.
fn share_of(text: &[u8], shares: usize, number: usize) -> (usize, usize)
    requires { number < shares }
    ensures from { result.0 ≡ share_start (length text.now) shares number }
    ensures to { result.1 ≡ share_start (length text.now) shares (number + 1) }
    ensures first { number ≡ 0 → result.0 ≡ 0 }
    ensures last { number + 1 ≡ shares → result.1 ≡ length text.now }
{
    let size = text.len() / shares + 1;
    (
        number.saturating_mul(size).min(text.len()),
        (number + 1).saturating_mul(size).min(text.len()),
    )
}

/// Reads the lists of the tasks whose lines begin in a share of a piece, as many as a program has tasks.
fn read_share<'a, G: ReadGate>(
    alloc: Global,
    spelling: MaskSpelling,
    pieces: &[&'a [u8]],
    piece: usize,
    share: (usize, usize),
    gate: &G,
    worker: u32,
    found: &mut Vec<(usize, Block<'a>)>,
) -> Result<(), AllocError>
    requires piece { piece < length pieces.now }
    requires within { share.1 ≤ length (slice_index_or (map (λ piece. piece.now) pieces.now) piece []) }
    requires before { AreFound (map (λ piece. piece.now) pieces.now) found.old.items }
    ensures { AreFound (map (λ piece. piece.now) pieces.now) found.new.items }
{
    let text = pieces[piece];
    let (mut offset, to) = share;
    for _ in 0..MOST_TASKS {
        let Some(start) = list_from(text, offset, to) else {
            break;
        };
        gate.before_block(worker, piece, start);
        let block = Block::read(alloc, spelling, text, start);
        gate.after_block(worker, piece, start);
        let block = block?;
        offset = block.end();
        found.push((piece, block))?;
    }
    Ok(())
}

/// The offset after the first task line that begins at or after one offset and before another.
fn list_from(text: &[u8], from: usize, to: usize) -> Option<usize>
    requires { to ≤ length text.now }
    ensures { IfSome result (λ start. start ≤ length text.now) }
{
    for offset in from..to {
        if begins_task(text, offset) {
            let line = &text[offset..];
            let end = line.iter().position(|byte| *byte == b'\n')?;
            return Some(offset + end + 1);
        }
    }
    None
}

/// Whether the line of a task begins at an offset.
fn begins_task(text: &[u8], offset: usize) -> bool
    requires { offset ≤ length text.now }
{
    (offset == 0 || text[offset - 1] == b'\n') && text[offset..].starts_with(b"task ")
}

/// The pieces, each with the blocks that were read of it, which are taken out.
fn parts_of<'a>(
    alloc: Global,
    pieces: &[&'a [u8]],
    groups: &mut [Vec<Block<'a>>],
) -> Result<Vec<CertificatePart<'a>>, AllocError>
    requires groups { AreGroups (map (λ piece. piece.now) pieces.now) groups.old }
    requires order { AreInOrder (length pieces.now) groups.old }
    ensures parts { IfOk result (λ parts. parts.items ≡ map (λ piece. piece.now) pieces.now) }
    ensures taken { OnOk result ((n : ℕ) → n < length pieces.now → (group : Vec BlockView Global) → slice_get groups.new n ≡ Some group → group.items ≡ []) }
{
    let mut parts = Vec::with_capacity(alloc, pieces.len())?;
    for (number, piece) in pieces.iter().enumerate() {
        let blocks = mem::replace(&mut groups[number], Vec::new(alloc));
        parts.push(CertificatePart::with_blocks(piece, blocks))?;
    }
    Ok(parts)
}
