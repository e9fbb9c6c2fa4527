//! Which bytes of a name are shown as they are.
ghost use Rattle.std.specs.Prelude.{◌≡◌};
ghost use Rattle.std.specs.List.{list_any};
ghost use Rattle.std.specs.Str.{chars};
ghost use Rattle.shown_names.specs.Shown.{escaped, is_printable, is_printed, is_readable, steers};

// The hexadecimal digits.
const DIGITS: [u8; 16] = *b"0123456789abcdef";

// Whether a character above ASCII steers a terminal, ends a line, turns the direction of a text, or is seen by nobody.
fn steers(letter: char) -> bool
    ensures { result ≡ steers letter }
{
    matches!(
        letter,
        '\u{80}'..='\u{9f}'
            | '\u{ad}'
            | '\u{61c}'
            | '\u{180e}'
            | '\u{200b}'..='\u{200f}'
            | '\u{2028}'..='\u{202e}'
            | '\u{2060}'..='\u{206f}'
            | '\u{feff}'
            | '\u{fff9}'..='\u{fffb}'
            | '\u{e0000}'..='\u{e007f}'
    )
}

// Whether any character does.
fn has_steering(text: &str) -> bool
    ensures { result ≡ list_any steers (chars text.now) }
{
    text.chars().any(|letter| steers(letter))
}

/// Whether the bytes above 127 of a name are UTF-8 that can be shown as the letters that it spells.
pub fn is_readable(bytes: &[u8]) -> bool
    ensures { result ≡ is_readable bytes.now }
{
    match str::from_utf8(bytes) {
        Ok(text) => !has_steering(text),
        Err(_) => false,
    }
}

/// Whether a byte of a name is shown as it is; `readable` says whether the name's bytes above 127 are.
pub fn is_printed(readable: bool, byte: u8) -> bool
    ensures { result ≡ is_printed readable byte }
{
    match byte {
        b' '..=b'~' => true,
        128.. => readable,
        _ => false,
    }
}

/// Whether each byte of a name is shown as it is.
pub fn is_printable(name: &[u8]) -> bool
    ensures { result ≡ is_printable name.now }
{
    let readable = is_readable(name);
    name.iter().all(|byte| is_printed(readable, *byte))
}

/// What is shown for a byte that is not shown as it is: `\x` and its two hexadecimal digits.
pub fn escaped(byte: u8) -> [u8; 4]
    ensures { result ≡ escaped byte }
{
    let high = DIGITS[usize::from(byte / 16)];
    let low = DIGITS[usize::from(byte % 16)];
    [b'\\', b'x', high, low]
}
