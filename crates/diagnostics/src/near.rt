//! Words that are nearly the same.

ghost use Rattle.std.specs.Prelude.{◌≡◌, drop};
ghost use Rattle.diagnostics.specs.Near.{is_exchange, is_slip, is_near};

/// Whether two words are equal except for their first two letters, which are exchanged.
fn is_exchange(word: &[u8], other: &[u8]) -> bool
    ensures { result ≡ is_exchange word.now other.now }
{
    match word {
        [first, second, rest @ ..] => match other {
            [third, fourth, others @ ..] => first == fourth && second == third && rest == others,
            _ => false,
        },
        _ => false,
    }
}

/// The word without its first letter, if it has one.
fn after_first(word: &[u8]) -> &[u8]
    ensures { result.now ≡ drop 1 word.now }
{
    match word {
        [_, rest @ ..] => rest,
        [] => word,
    }
}

/// Whether one slip at the beginning turns one word into the other.
fn is_slip(word: &[u8], other: &[u8]) -> bool
    ensures { result ≡ is_slip word.now other.now }
{
    let rest = after_first(word);
    let others = after_first(other);
    rest == other || word == others || rest == others || is_exchange(word, other)
}

/// Whether two words differ by at most one slip: a letter too many, one left out, one wrong, or two neighbours exchanged.
/// Equal words are near.
pub fn is_near(word: &[u8], other: &[u8]) -> bool
    ensures { result ≡ is_near word.now other.now }
{
    let mut rest = word;
    let mut others = other;
    while let ([first, after @ ..], [second, behind @ ..]) = (rest, others) {
        if first != second {
            break;
        }
        rest = after;
        others = behind;
    }
    is_slip(rest, others)
}
