//! Bytes cut in two.

ghost use Rattle.std.specs.Prelude.{◌≡◌, ◌-◌, ◌<◌, ◌==◌, [], ◌∷◌, length, drop, position, MatchOption, IfSome};
ghost use Rattle.std.specs.List.{slice_split};

/// Where a byte first occurs.
fn place_of(wanted: u8, bytes: &[u8]) -> Option<usize>
    ensures { result ≡ position (λ byte. byte == wanted) bytes.now }
{
    bytes.iter().position(|byte| *byte == wanted)
}

/// The bytes before the first `byte` and those after it, both without it; `None` where there is none.
pub fn cut(byte: u8, bytes: &[u8]) -> Option<(&[u8], &[u8])>
    ensures parts { MatchOption result
        (slice_split (λ other. other == byte) bytes.now ≡ bytes.now ∷ [])
        (λ found. slice_split (λ other. other == byte) bytes.now ≡ found.0.now ∷ slice_split (λ other. other == byte) found.1.now) }
    ensures shorter { IfSome result (λ found. length found.1.now < length bytes.now) }
    ensures end { IfSome result (λ found. found.1.now ≡ drop (length bytes.now - length found.1.now) bytes.now) }
{
    let end = place_of(byte, bytes)?;
    Some((&bytes[..end], &bytes[end + 1..]))
}
