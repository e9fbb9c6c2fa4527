//! Reading the text of a certificate.

ghost use Rattle.std.specs.Prelude.{◌≡◌, ◌≢◌, ℕ, ◌+◌, ◌*◌, ◌^◌, ◌<◌, ◌≤◌, ◌↔◌, List, [], ◌∷◌, true, false, length, take, drop, map, slice_index, Some, None, Ok, Err, MatchOption, MatchResult, IfSome, IfNone, IfOk, SomeIff, IsTrue, OnOk, OnSome, ◌==◌, ◌⊎◌, vec_len};
ghost use Rattle.std.specs.List.{slice_split, position, list_all};
ghost use Rattle.std.specs.Str.Parse.{digits_value_after};
ghost use Rattle.std.specs.Option.{option_copied};
ghost use Rattle.mask_certificate.specs.declared.fault.MaskSpelling.{MaskSpelling};
ghost use Rattle.mask_certificate.specs.Lists.{entries_of, IsCertificate};
ghost use Rattle.mask_certificate.specs.CertificateText.{Spells};
ghost use Rattle.mask_certificate.specs.CertificateReading.{is_space, index_in, mask_in, name_in, lines_in, entries_in, behind_task_line, at_end, body_of, spelling_of, mask_digit, is_mask_digit, Gives, cert_parse, names_of, names_in, is_newline, entry_line};
ghost use Rattle.mask_certificate.specs.Blocks.{IsEnd, AreOf, TellsOf};
ghost use Rattle.mask_certificate.specs.Left.{left_of};
ghost use Rattle.text_pieces.specs.Pieces.{joined, AreCut};

use crate::block::Block;
use crate::certificate::{Cert, is_right};
use crate::fault::{CertFault, MaskSpelling};
use crate::left::Left;
use crate::part::CertificatePart;
use mips_instructions::number::RegSet;
use std::alloc::{AllocError, Global};
use task_descriptor::descriptor::Descriptor;
use task_descriptor::name::Name;
use task_descriptor::program::Program;
use text_pieces::cutting::cut;

/// How many bytes the first line has, with its LF.
const FIRST_LINE: usize = 7;

/// How many digits an index has at most.
const MOST_INDEX_DIGITS: usize = 5;

/// The index before the first space, and that space's offset; `None` where there is no space, or no
/// index before it.
fn index_in_front(text: &[u8]) -> Option<(u32, usize)>
    ensures found { IfSome result (λ found. (position is_space text.now ≡ Some found.1) × (index_in (take found.1 text.now) ≡ Some found.0)) }
    ensures none { IfNone result ((space : ℕ) → position is_space text.now ≡ Some space → index_in (take space text.now) ≡ None) }
{
    let mut index = 0;
    for (place, byte) in text.iter().enumerate() {
        if *byte == b' ' {
            if place == 0 || (place > 1 && text[0] == b'0') {
                return None;
            }
            return Some((index, place));
        }
        if place == MOST_INDEX_DIGITS || !byte.is_ascii_digit() {
            return None;
        }
        index = index * 10 + u32::from(*byte - b'0');
    }
    None
}

/// The value of a byte that is not a digit, taken as a digit of a mask: more than any mask, so that eight
/// digits with such a byte among them are worth more than any mask, whatever the others are.
const NO_DIGIT: u64 = 1 << 34;

/// The value of each byte as a digit of a mask. A table, since a branch on the digits of a mask is hard to
/// predict.
const MASK_DIGITS: [u64; 256] = [
    NO_DIGIT, NO_DIGIT, NO_DIGIT, NO_DIGIT, NO_DIGIT, NO_DIGIT, NO_DIGIT, NO_DIGIT, NO_DIGIT,
    NO_DIGIT, NO_DIGIT, NO_DIGIT, NO_DIGIT, NO_DIGIT, NO_DIGIT, NO_DIGIT, NO_DIGIT, NO_DIGIT,
    NO_DIGIT, NO_DIGIT, NO_DIGIT, NO_DIGIT, NO_DIGIT, NO_DIGIT, NO_DIGIT, NO_DIGIT, NO_DIGIT,
    NO_DIGIT, NO_DIGIT, NO_DIGIT, NO_DIGIT, NO_DIGIT, NO_DIGIT, NO_DIGIT, NO_DIGIT, NO_DIGIT,
    NO_DIGIT, NO_DIGIT, NO_DIGIT, NO_DIGIT, NO_DIGIT, NO_DIGIT, NO_DIGIT, NO_DIGIT, NO_DIGIT,
    NO_DIGIT, NO_DIGIT, NO_DIGIT, 0, 1, 2, 3, 4, 5, 6, 7, 8, 9, NO_DIGIT, NO_DIGIT, NO_DIGIT,
    NO_DIGIT, NO_DIGIT, NO_DIGIT, NO_DIGIT, NO_DIGIT, NO_DIGIT, NO_DIGIT, NO_DIGIT, NO_DIGIT,
    NO_DIGIT, NO_DIGIT, NO_DIGIT, NO_DIGIT, NO_DIGIT, NO_DIGIT, NO_DIGIT, NO_DIGIT, NO_DIGIT,
    NO_DIGIT, NO_DIGIT, NO_DIGIT, NO_DIGIT, NO_DIGIT, NO_DIGIT, NO_DIGIT, NO_DIGIT, NO_DIGIT,
    NO_DIGIT, NO_DIGIT, NO_DIGIT, NO_DIGIT, NO_DIGIT, NO_DIGIT, NO_DIGIT, NO_DIGIT, NO_DIGIT, 10,
    11, 12, 13, 14, 15, NO_DIGIT, NO_DIGIT, NO_DIGIT, NO_DIGIT, NO_DIGIT, NO_DIGIT, NO_DIGIT,
    NO_DIGIT, NO_DIGIT, NO_DIGIT, NO_DIGIT, NO_DIGIT, NO_DIGIT, NO_DIGIT, NO_DIGIT, NO_DIGIT,
    NO_DIGIT, NO_DIGIT, NO_DIGIT, NO_DIGIT, NO_DIGIT, NO_DIGIT, NO_DIGIT, NO_DIGIT, NO_DIGIT,
    NO_DIGIT, NO_DIGIT, NO_DIGIT, NO_DIGIT, NO_DIGIT, NO_DIGIT, NO_DIGIT, NO_DIGIT, NO_DIGIT,
    NO_DIGIT, NO_DIGIT, NO_DIGIT, NO_DIGIT, NO_DIGIT, NO_DIGIT, NO_DIGIT, NO_DIGIT, NO_DIGIT,
    NO_DIGIT, NO_DIGIT, NO_DIGIT, NO_DIGIT, NO_DIGIT, NO_DIGIT, NO_DIGIT, NO_DIGIT, NO_DIGIT,
    NO_DIGIT, NO_DIGIT, NO_DIGIT, NO_DIGIT, NO_DIGIT, NO_DIGIT, NO_DIGIT, NO_DIGIT, NO_DIGIT,
    NO_DIGIT, NO_DIGIT, NO_DIGIT, NO_DIGIT, NO_DIGIT, NO_DIGIT, NO_DIGIT, NO_DIGIT, NO_DIGIT,
    NO_DIGIT, NO_DIGIT, NO_DIGIT, NO_DIGIT, NO_DIGIT, NO_DIGIT, NO_DIGIT, NO_DIGIT, NO_DIGIT,
    NO_DIGIT, NO_DIGIT, NO_DIGIT, NO_DIGIT, NO_DIGIT, NO_DIGIT, NO_DIGIT, NO_DIGIT, NO_DIGIT,
    NO_DIGIT, NO_DIGIT, NO_DIGIT, NO_DIGIT, NO_DIGIT, NO_DIGIT, NO_DIGIT, NO_DIGIT, NO_DIGIT,
    NO_DIGIT, NO_DIGIT, NO_DIGIT, NO_DIGIT, NO_DIGIT, NO_DIGIT, NO_DIGIT, NO_DIGIT, NO_DIGIT,
    NO_DIGIT, NO_DIGIT, NO_DIGIT, NO_DIGIT, NO_DIGIT, NO_DIGIT, NO_DIGIT, NO_DIGIT, NO_DIGIT,
    NO_DIGIT, NO_DIGIT, NO_DIGIT, NO_DIGIT, NO_DIGIT, NO_DIGIT, NO_DIGIT, NO_DIGIT, NO_DIGIT,
    NO_DIGIT, NO_DIGIT, NO_DIGIT, NO_DIGIT, NO_DIGIT, NO_DIGIT, NO_DIGIT, NO_DIGIT, NO_DIGIT,
    NO_DIGIT, NO_DIGIT, NO_DIGIT, NO_DIGIT, NO_DIGIT, NO_DIGIT, NO_DIGIT, NO_DIGIT, NO_DIGIT,
    NO_DIGIT, NO_DIGIT, NO_DIGIT, NO_DIGIT, NO_DIGIT, NO_DIGIT, NO_DIGIT, NO_DIGIT, NO_DIGIT,
    NO_DIGIT, NO_DIGIT,
];

fn mask_digit_of(byte: u8) -> u64
    ensures { result ≡ mask_digit byte }
{
    MASK_DIGITS[byte as usize]
}

/// How many digits are read at a time.
const HALF: usize = 8;

/// The number that eight digits written after those of `number` give; more than any mask where one of them
/// is not a digit.
fn eight_more(number: u64, digits: &[u8]) -> u64
    requires small { number < 4 }
    requires eight { 8 ≤ length digits.now }
    ensures digits { list_all is_mask_digit (take 8 digits.now) ≡ true → result ≡ digits_value_after 16 number (take 8 digits.now) }
    ensures other { list_all is_mask_digit (take 8 digits.now) ≡ false → 2 ^ 34 ≤ result }
{
    let mut number = number;
    for place in 0..HALF {
        number = number * 16 + mask_digit_of(digits[place]);
    }
    number
}

/// The mask of 16 digits.
fn wide_mask_of(digits: &[u8]) -> Option<RegSet>
    requires { length digits.now ≡ 16 }
    ensures { result ≡ mask_in MaskSpelling.Wide digits.now }
{
    let high = eight_more(0, digits);
    // With the eight lower digits, it is a mask only where it is below 4.
    if high >= 4 {
        return None;
    }
    RegSet::from_bits(eight_more(high, &digits[HALF..]))
}

fn mask_of(spelling: MaskSpelling, digits: &[u8]) -> Option<RegSet>
    ensures { result ≡ mask_in spelling digits.now }
{
    if digits.len() != spelling.mask_digits() {
        return None;
    }
    match spelling {
        MaskSpelling::Narrow => RegSet::from_bits(eight_more(0, digits)),
        MaskSpelling::Wide => wide_mask_of(digits),
    }
}

/// Whether an LF stands at this offset.
fn has_newline(text: &[u8], offset: usize) -> bool
    ensures { (result ≡ true) ↔ ((offset < length text.now) × (slice_index text.now offset ≡ 10)) }
{
    offset < text.len() && text[offset] == b'\n'
}

fn name_of(line: &[u8]) -> Option<&[u8]>
    ensures { option_copied result ≡ name_in line.now }
{
    if !line.starts_with(b"task ") {
        return None;
    }
    let name = &line[5..];
    if Name::new(name).is_some() {
        Some(name)
    } else {
        None
    }
}

/// The entry of the first line, and what follows that line; `None` where that line is no entry.
fn next_entry(spelling: MaskSpelling, text: &[u8]) -> Option<((u32, RegSet), &[u8])>
    ensures found { MatchOption result
        (entries_in (lines_in spelling text.now) ≡ [])
        (λ found. lines_in spelling text.now ≡ entry_line found.0 ∷ lines_in spelling found.1.now) }
    ensures shorter { IfSome result (λ found. length found.1.now < length text.now) }
    ensures end { IfSome result (λ found. IsEnd text.now found.1.now) }
{
    // The spelling fixes how many digits a mask has, so the line's end is not searched for.
    let (index, space) = index_in_front(text)?;
    let end = space + 1 + spelling.mask_digits();
    if !has_newline(text, end) {
        return None;
    }
    let mask = mask_of(spelling, &text[space + 1..end])?;
    Some(((index, mask), &text[end + 1..]))
}

/// The entries of the lines before the first that is not an entry, and the text from that line on.
pub(crate) fn list_of(
    alloc: Global,
    spelling: MaskSpelling,
    text: &[u8],
) -> Result<(Vec<(u32, RegSet)>, &[u8]), AllocError>
    ensures entries { IfOk result (λ found. found.0.items ≡ entries_in (lines_in spelling text.now)) }
    ensures rest { IfOk result (λ found. lines_in spelling found.1.now ≡ drop (length found.0.items) (lines_in spelling text.now)) }
    ensures shorter { IfOk result (λ found. length found.0.items + length found.1.now ≤ length text.now) }
    ensures end { IfOk result (λ found. IsEnd text.now found.1.now) }
{
    let mut list = Vec::new(alloc);
    let mut rest = text;
    while let Some((entry, after)) = next_entry(spelling, rest) {
        list.push(entry)?;
        rest = after;
    }
    Ok((list, rest))
}

/// The text after the `task` line of this name, which has to be the first line, line `line`.
fn behind<'a>(text: &'a [u8], line: usize, name: &Name) -> Result<&'a [u8], CertFault>
    ensures lines { (spelling : MaskSpelling) → MatchResult result
        (λ rest. behind_task_line line name.now (lines_in spelling text.now) ≡ Ok (lines_in spelling rest.now))
        (λ fault. behind_task_line line name.now (lines_in spelling text.now) ≡ Err fault) }
    ensures end { IfOk result (λ rest. IsEnd text.now rest.now) }
{
    if text.is_empty() {
        return Err(CertFault::MissingTask);
    }
    let Some((first, rest)) = cut(b'\n', text) else {
        return Err(CertFault::Line(line));
    };
    let Some(found) = name_of(first) else {
        return Err(CertFault::Line(line));
    };
    if found != name.bytes() {
        return Err(CertFault::TaskName(line));
    }
    Ok(rest)
}

/// Whether nothing is left from this line on.
fn check_end(text: &[u8], line: usize) -> Result<(), CertFault>
    ensures { (spelling : MaskSpelling) → MatchResult result
        (λ _. at_end line (lines_in spelling text.now) ≡ Ok [])
        (λ fault. at_end line (lines_in spelling text.now) ≡ Err fault) }
{
    if text.is_empty() {
        return Ok(());
    }
    let Some((first, _)) = cut(b'\n', text) else {
        return Err(CertFault::Line(line));
    };
    match name_of(first) {
        Some(_) => Err(CertFault::TaskName(line)),
        None => Err(CertFault::Line(line)),
    }
}

/// The last of these blocks, taken from them, unless it begins after this offset: then it waits for its
/// turn.
fn next_block<'a>(blocks: &mut Vec<Block<'a>>, offset: usize) -> Option<Block<'a>>
    ensures { (text : List ℕ) → AreOf text blocks.old.items
        → AreOf text blocks.new.items × IfSome result (λ block. block.text ≡ text) }
{
    match blocks.last() {
        Some(block) if block.start() <= offset => blocks.pop(),
        _ => None,
    }
}

/// The list at the front of what is left of a text, whether it is right, and the text after it: from the
/// last of these blocks if it begins there, and otherwise read.
pub(crate) fn list_at<'a>(
    alloc: Global,
    spelling: MaskSpelling,
    text: &'a [u8],
    left: &'a [u8],
    blocks: &mut Vec<Block<'a>>,
) -> Result<(Vec<(u32, RegSet)>, bool, &'a [u8]), AllocError>
    requires left { IsEnd text.now left.now }
    requires blocks { AreOf text.now blocks.old.items }
    ensures entries { IfOk result (λ found. found.0.items ≡ entries_in (lines_in spelling left.now)) }
    ensures told { IfOk result (λ found. TellsOf found.0.items found.1) }
    ensures rest { IfOk result (λ found. lines_in spelling found.2.now ≡ drop (length found.0.items) (lines_in spelling left.now)) }
    ensures end { IfOk result (λ found. IsEnd text.now found.2.now) }
    ensures blocks { AreOf text.now blocks.new.items }
{
    let offset = text.len() - left.len();
    match next_block(blocks, offset) {
        Some(block) if block.start() == offset && block.spelling() == spelling => {
            Ok(block.into_parts())
        }
        _ => {
            let (list, rest) = list_of(alloc, spelling, left)?;
            let right = is_right(&list);
            Ok((list, right, rest))
        }
    }
}

/// What is left of a text after the `task` line of this name, which has to be its first line, line `line`.
fn behind_task<'a>(left: Left<'a>, line: usize, name: &Name) -> Result<Left<'a>, CertFault>
    ensures { (spelling : MaskSpelling) → MatchResult result
        (λ rest. behind_task_line line name.now (lines_in spelling (left_of left.entry)) ≡ Ok (lines_in spelling (left_of rest)))
        (λ fault. behind_task_line line name.now (lines_in spelling (left_of left.entry)) ≡ Err fault) }
{
    match behind(left.rest(), line, name) {
        Ok(rest) => Ok(left.with_rest(rest)),
        Err(fault) => Err(fault),
    }
}

/// Whether nothing is left of a text from this line on.
fn check_left(left: &Left<'_>, line: usize) -> Result<(), CertFault>
    ensures { (spelling : MaskSpelling) → MatchResult result
        (λ _. at_end line (lines_in spelling (left_of left.now)) ≡ Ok [])
        (λ fault. at_end line (lines_in spelling (left_of left.now)) ≡ Err fault) }
{
    check_end(left.rest(), line)
}

/// The list at the front of what is left of a text, whether it is right, and what is left after it. A
/// list that reaches the end of its part continues in the next.
fn whole_list<'a>(
    alloc: Global,
    spelling: MaskSpelling,
    left: Left<'a>,
) -> Result<(Vec<(u32, RegSet)>, bool, Left<'a>), AllocError>
    ensures entries { IfOk result (λ found. found.0.items ≡ entries_in (lines_in spelling (left_of left.entry))) }
    ensures rest { IfOk result (λ found. lines_in spelling (left_of found.2) ≡ drop (length found.0.items) (lines_in spelling (left_of left.entry))) }
    ensures told { IfOk result (λ found. TellsOf found.0.items found.1) }
{
    let (mut list, mut right, mut goes_on, mut left) = left.list(alloc, spelling)?;
    while goes_on && !left.rest().is_empty() {
        let (mut more, _, reaches_end, after) = left.list(alloc, spelling)?;
        list.append(&mut more)?;
        right = is_right(&list);
        goes_on = reaches_end;
        left = after;
    }
    Ok((list, right, left))
}

/// The number of the line after the `task` line at `line` and its list. The entries of a list that is not
/// right join the others of that kind: no certificate comes of them, but the lines after them are still read,
/// for their faults, and in one list they number fewer than 2^63. A right list has at most 4,096 entries and
/// stays. So a line number is a `usize`, however often the same memory occurs in a text's parts.
fn line_behind(
    line: usize,
    list: &mut Vec<(u32, RegSet)>,
    is_right: bool,
    wrong: &mut Vec<(u32, RegSet)>,
) -> Result<usize, AllocError>
    requires told { TellsOf list.old.items is_right }
    requires few { line ≤ 2 + 4097 * 1024 + vec_len wrong.old }
    ensures next { IfOk result (λ next. next ≡ line + (1 + length list.old.items)) }
    ensures few { IfOk result (λ next. next + vec_len wrong.old ≤ line + 4097 + vec_len wrong.new) }
    ensures kept { OnOk result (is_right ≡ true → list.new.items ≡ list.old.items) }
{
    let entries = list.len();
    if is_right {
        return Ok(line + 1 + entries);
    }
    wrong.append(list)?;
    Ok(line + 1 + entries)
}

/// The lists that what is left of a text spells for these tasks from line 2 on, where all are right; else
/// the first fault.
fn lists_of(
    alloc: Global,
    spelling: MaskSpelling,
    body: Left<'_>,
    tasks: &[Descriptor],
) -> Result<Vec<Vec<(u32, RegSet)>>, CertFault>
    requires few { length tasks.now ≤ 1024 }
    ensures lists { Gives (λ lists. entries_of lists.items) result (body_of spelling (left_of body.entry) (names_in tasks.now)) }
    ensures right { IfOk result (λ lists. IsCertificate (entries_of lists.items)) }
    ensures count { IfOk result (λ lists. vec_len lists ≡ length tasks.now) }
{
    let mut lists = Vec::with_capacity(alloc, tasks.len())?;
    let mut right = true;
    let mut wrong = Vec::new(alloc);
    let mut rest = body;
    let mut line = 2;
    for task in tasks {
        let left = behind_task(rest, line, &task.name)?;
        let (mut list, is_right, after) = whole_list(alloc, spelling, left)?;
        line = line_behind(line, &mut list, is_right, &mut wrong)?;
        right &= is_right;
        rest = after;
        lists.push(list)?;
    }
    check_left(&rest, line)?;
    if right {
        Ok(lists)
    } else {
        Err(CertFault::Shape)
    }
}

/// The spelling of masks that the first line of a text names; `None` where it names none.
pub fn spelling_in(text: &[u8]) -> Option<MaskSpelling>
    ensures value { result ≡ spelling_of text.now }
    ensures long { OnSome result (7 ≤ length text.now) }
{
    if text.starts_with(b"cert 2\n") {
        Some(MaskSpelling::Wide)
    } else if text.starts_with(b"cert 1\n") {
        Some(MaskSpelling::Narrow)
    } else {
        None
    }
}

/// The spelling that the first line of what is left names; `None` where it names none. It lies in one
/// part, as each line does.
fn spelling_of_left(left: &Left<'_>) -> Option<MaskSpelling>
    ensures value { result ≡ spelling_of (left_of left.now) }
    ensures long { OnSome result (7 ≤ length left.now.rest) }
{
    spelling_in(left.rest())
}

/// What is left after the first line.
fn behind_first_line(left: Left<'_>) -> Left<'_>
    requires { 7 ≤ length left.rest }
    ensures { left_of result ≡ drop 7 (left_of left.entry) }
{
    let first = left.rest();
    left.with_rest(&first[FIRST_LINE..])
}

/// The certificate that a text in parts spells for these tasks, or its first fault.
fn certificate_of(
    alloc: Global,
    parts: Vec<CertificatePart<'_>>,
    tasks: &[Descriptor],
) -> Result<Cert, CertFault>
    requires few { length tasks.now ≤ 1024 }
    requires cut { AreCut parts.items }
    ensures { (result ≡ Err CertFault.OutOfMemory) ⊎ (result ≡ cert_parse (joined parts.entry.items) (names_in tasks.now)) }
{
    let left = Left::all(alloc, parts);
    let Some(spelling) = spelling_of_left(&left) else {
        return Err(CertFault::Header);
    };
    let lists = lists_of(alloc, spelling, behind_first_line(left), tasks)?;
    Ok(Cert::of_right(lists))
}

/// The certificate that a text spells, in `cert 1` or in `cert 2`, for the tasks of a program, one list for
/// each.
///
/// # Errors
///
/// The first fault: `Header`; then the first line with `Line` or `TaskName`; then `MissingTask`; then `Shape`.
/// `OutOfMemory`, where memory was refused, may come in place of any other answer; where it doesn't come, a
/// certificate is read exactly from a text that spells it.
pub fn read(alloc: Global, text: &[u8], program: &Program) -> Result<Cert, CertFault>
    ensures parsed { (result ≡ Err CertFault.OutOfMemory) ⊎ (result ≡ cert_parse text.now (names_of program.now)) }
    ensures spelled { result ≢ Err CertFault.OutOfMemory
        → (cert : List (List (ℕ × ℕ))) → (result ≡ Ok cert) ↔ Spells text.now (names_of program.now) cert }
{
    let mut parts = Vec::new(alloc);
    parts.push(CertificatePart::new(alloc, text))?;
    read_parts(alloc, parts, program)
}

/// The certificate that a text in parts, cut after LFs, spells for the tasks of a program, as with `read`. A
/// part may come with blocks that were read before: one that begins where its task's turn comes is taken over
/// and not read again. Only speed depends on the blocks: where one is missing or lies elsewhere, that list is
/// read here.
///
/// # Errors
///
/// Those of `read`.
pub fn read_parts(
    alloc: Global,
    parts: Vec<CertificatePart<'_>>,
    program: &Program,
) -> Result<Cert, CertFault>
    requires { AreCut parts.items }
    ensures parsed { (result ≡ Err CertFault.OutOfMemory) ⊎ (result ≡ cert_parse (joined parts.entry.items) (names_of program.now)) }
    ensures spelled { result ≢ Err CertFault.OutOfMemory
        → (cert : List (List (ℕ × ℕ))) → (result ≡ Ok cert) ↔ Spells (joined parts.entry.items) (names_of program.now) cert }
{
    certificate_of(alloc, parts, program.tasks())
}
