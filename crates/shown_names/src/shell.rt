//! A name as a word of a shell's command line.
ghost use Rattle.std.specs.Prelude.{◌≡◌, ◌++◌, ◌∷◌, [], IfOk, OnOk, flat_map};
ghost use Rattle.std.specs.List.{list_all};
ghost use Rattle.std.specs.String.{string_bytes};
ghost use Rattle.shown_names.specs.Shell.{as_word, coded, coded_byte, is_bare, is_like_option, quoted, quoted_byte, shell_word};

use crate::letters::{is_printable, is_readable};
use crate::name::push_shown;
use std::alloc::{AllocError, Global};

/// A file's name as one word of a shell's command line, so that the command can be copied from what is shown:
/// as it is where no byte of it means something to a shell, else between quotes; and with `./` before it where
/// a command would take it for an option.
///
/// # Errors
///
/// `AllocError` where memory was refused.
pub fn shell_word(alloc: Global, name: &str) -> Result<String, AllocError>
    ensures { IfOk result (λ word. string_bytes word ≡ shell_word name.now) }
{
    if is_like_option(name.as_bytes()) {
        let path = format!(in alloc; "./{name}")?;
        return as_word(alloc, path.as_str());
    }
    as_word(alloc, name)
}

// Whether a command would take a name for an option; `-` alone is standard input.
fn is_like_option(name: &[u8]) -> bool
    ensures { result ≡ is_like_option name.now }
{
    name.len() > 1 && name[0] == b'-'
}

// A text as a word, quoted where it has to be.
fn as_word(alloc: Global, name: &str) -> Result<String, AllocError>
    ensures { IfOk result (λ word. string_bytes word ≡ as_word name.now) }
{
    if is_bare_word(name.as_bytes()) {
        return String::from_str(alloc, name);
    }
    match String::from_utf8(quoted_word(alloc, name.as_bytes())?) {
        Ok(word) => Ok(word),
        Err(_) => unreachable!(),
    }
}

// Whether a shell takes each byte as it is.
fn is_bare_word(name: &[u8]) -> bool
    ensures { result ≡ list_all is_bare name.now }
{
    name.iter().all(|byte| is_bare(*byte))
}

// Whether a shell takes a byte as it is, wherever it stands in a word.
fn is_bare(byte: u8) -> bool
    ensures { result ≡ is_bare byte }
{
    matches!(byte, b'%' | b'+'..=b':' | b'@'..=b'Z' | b'_' | b'a'..=b'z')
}

// A name between quotes.
fn quoted_word(alloc: Global, name: &[u8]) -> Result<Vec<u8>, AllocError>
    ensures { IfOk result (λ word. word.items ≡ quoted name.now) }
{
    if is_printable(name) {
        return single_quoted(alloc, name);
    }
    coded(alloc, is_readable(name), name)
}

// A name between single quotes.
fn single_quoted(alloc: Global, name: &[u8]) -> Result<Vec<u8>, AllocError>
    ensures { IfOk result (λ word. word.items ≡ 39 ∷ (flat_map quoted_byte name.now ++ 39 ∷ [])) }
{
    let mut word = Vec::new(alloc);
    word.push(b'\'')?;
    for byte in name {
        push_quoted(&mut word, *byte)?;
    }
    word.push(b'\'')?;
    Ok(word)
}

// Adds a byte between single quotes.
fn push_quoted(word: &mut Vec<u8>, byte: u8) -> Result<(), AllocError>
    ensures { OnOk result (word.new.items ≡ word.old.items ++ quoted_byte byte) }
{
    if byte == b'\'' {
        return word.extend_from_slice(b"'\\''");
    }
    word.push(byte)?;
    Ok(())
}

// A name between `$'` and `'`, with codes for what is no printable text.
fn coded(alloc: Global, readable: bool, name: &[u8]) -> Result<Vec<u8>, AllocError>
    ensures { IfOk result (λ word. word.items ≡ coded readable name.now) }
{
    let mut word = Vec::new(alloc);
    word.extend_from_slice(b"$'")?;
    for byte in name {
        push_coded(&mut word, readable, *byte)?;
    }
    word.push(b'\'')?;
    Ok(word)
}

// Adds a byte between `$'` and `'`.
fn push_coded(word: &mut Vec<u8>, readable: bool, byte: u8) -> Result<(), AllocError>
    ensures { OnOk result (word.new.items ≡ word.old.items ++ coded_byte readable byte) }
{
    if byte == b'\'' || byte == b'\\' {
        return word.extend_from_slice(&[b'\\', byte]);
    }
    push_shown(word, readable, byte)
}
