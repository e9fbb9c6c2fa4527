//! Parts of a file, and the text that they make together.
ghost use Rattle.std.specs.Prelude.{◌≡◌, ◌≤◌, ◌+◌, ◌*◌, ℕ, List, Some, IfSome, length, take, drop, vec_len};
ghost use Rattle.text_pieces.specs.PositionedReads.{AreParts, AreFull};

use crate::positioned::PositionedFile;
use crate::serial::CHUNK;
use crate::text::Text;
use std::alloc::Global;

// How many bytes of memory a part gets beyond its own: if it ends inside a line, the rest of that line is
// added to it, and should fit without moving it.
const LINE: usize = 4_096;

/// Up to `most` bytes of a file from byte `from` on, fewer where the file ends before. `room` is how many bytes
/// of memory are asked for at once. `None` where a read fails or is interrupted, and where memory was refused.
pub fn fetch_from<F: PositionedFile>(
    alloc: Global,
    file: &F,
    from: u64,
    most: usize,
    room: usize,
) -> Option<Vec<u8>>
    requires { from + most ≤ 134217729 }
    ensures bytes { IfSome result (λ v. (bytes : List ℕ) → F.bytes file.now ≡ Some bytes
        → v.items ≡ take most (drop from bytes)) }
    ensures within { IfSome result (λ v. length v.items ≤ most) }
{
    let mut all = Vec::with_capacity(alloc, room).ok()?;
    let mut chunk = [0; CHUNK];
    while all.len() < most {
        let wanted = CHUNK.min(most - all.len());
        match file.read_at(&mut chunk[..wanted], from + all.len() as u64) {
            Ok(0) => break,
            Ok(count) => all.extend_from_slice(&chunk[..count]).ok()?,
            Err(_) => return None,
        }
    }
    Some(all)
}

/// Part `number` of a file that is cut into parts of `size` bytes, numbered from 0. `None` where the file ends
/// within it, and where `fetch_from` gives `None`.
pub fn fetch_part<F: PositionedFile>(
    alloc: Global,
    file: &F,
    number: usize,
    size: usize,
) -> Option<Vec<u8>>
    requires { size * number + size ≤ 134217728 }
    ensures bytes { IfSome result (λ v. (bytes : List ℕ) → F.bytes file.now ≡ Some bytes
        → v.items ≡ take size (drop (size * number) bytes)) }
    ensures full { IfSome result (λ v. vec_len v ≡ size) }
{
    let part = fetch_from(alloc, file, (size * number) as u64, size, size + LINE)?;
    if part.len() == size { Some(part) } else { None }
}

/// The text of parts of `size` bytes each, part 0 first; `None` where one is missing, and where memory was
/// refused.
pub fn put_together(alloc: Global, parts: Vec<Option<Vec<u8>>>, size: usize) -> Option<Text>
    requires { AreFull size parts.items }
    ensures bytes { IfSome result (λ text. (bytes : List ℕ) → AreParts size bytes parts.items
        → text ≡ take (size * vec_len parts) bytes) }
    ensures long { IfSome result (λ text. length text ≡ size * vec_len parts) }
{
    let mut text = Text::new(alloc, Vec::new(alloc));
    for found in parts {
        text.append(found?).ok()?;
    }
    Some(text)
}
