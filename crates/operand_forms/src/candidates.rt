//! Texts that may be meant in place of what is wrong in a line.

use crate::foreign_words::instead;
use crate::line_fault::LineFaultKind;
use crate::shape::{DIRECTIVES, shape_of};
use crate::slices::after;
use diagnostics::near::is_near;
use diagnostics::words;
use mips_instructions::instruction::MNEMONICS;
use std::alloc::{AllocError, Global};

/// Texts that may be meant.
#[derive(Drop)]
struct Texts {
    alloc: Global,
    list: Vec<Vec<u8>>,
}

impl Texts {
    /// Adds a text made of two.
    fn add(&mut self, first: &[u8], second: &[u8]) -> Result<(), AllocError> {
        let mut text = first.to_vec(self.alloc)?;
        text.extend_from_slice(second)?;
        self.list.push(text)?;
        Ok(())
    }

    /// Adds the statements that are near to a word of more than one letter.
    fn add_near(&mut self, word: &[u8]) -> Result<(), AllocError> {
        if word.len() < 2 {
            return Ok(());
        }
        for mnemonic in &MNEMONICS {
            if is_near(word, mnemonic.word().as_bytes()) {
                self.add(mnemonic.word().as_bytes(), &[])?;
            }
        }
        for (name, _) in &DIRECTIVES {
            if is_near(word, name.as_bytes()) {
                self.add(name.as_bytes(), &[])?;
            }
        }
        Ok(())
    }

    /// Adds what may be meant by a word that begins no statement; nothing where it begins one in another section, or in
    /// other assemblers.
    fn add_words(&mut self, word: &[u8]) -> Result<(), AllocError> {
        if shape_of(word).is_some() || instead(word).is_some() {
            return Ok(());
        }
        let small = word.to_ascii_lowercase(self.alloc)?;
        if shape_of(&small).is_some() {
            return self.add(&small, &[]);
        }
        self.add_near(word)
    }

    /// Adds what may be meant by what is no operand; nothing where the operands end.
    fn add_operands(&mut self, meant: &[u8]) -> Result<(), AllocError> {
        match meant {
            [] => Ok(()),
            [b',', ..] => self.add(b" ", &[]),
            _ => {
                if !matches!(meant, [b'0'..=b'9', ..]) {
                    self.add(b"$", digits_of_register(meant))?;
                }
                self.add(b",", meant)?;
                self.add(b"!", meant)
            }
        }
    }

    /// Adds what may be meant by what is no token: it in small letters, a register, a label, or a number.
    fn add_tokens(&mut self, meant: &[u8]) -> Result<(), AllocError> {
        let small = meant.to_ascii_lowercase(self.alloc)?;
        self.add(&small, &[])?;
        let rest = after(meant, 1);
        if meant != "+".as_bytes() {
            self.add(b"$", digits_of_register(rest))?;
        }
        if matches!(meant, [b'$', b'_' | b'a'..=b'z' | b'A'..=b'Z', ..]) {
            self.add(rest, &[])?;
        }
        if let Some(number) = binary_value(meant) {
            let text = words!(in self.alloc; "{number}")?;
            self.add(text.as_str().as_bytes(), &[])?;
        }
        Ok(())
    }
}

/// The number of a register that is written as r8 or 08, or the bytes as they are.
fn digits_of_register(bytes: &[u8]) -> &[u8] {
    match bytes {
        [b'r' | b'0', b'0'..=b'9', ..] => after(bytes, 1),
        _ => bytes,
    }
}

/// The number that 0b and binary digits spell, as other assemblers write it, if it has 32 bits at most.
fn binary_value(bytes: &[u8]) -> Option<u32> {
    let digits = match bytes {
        [b'0', b'b' | b'B', digits @ ..] if !digits.is_empty() => digits,
        _ => return None,
    };
    let mut value: u32 = 0;
    for byte in digits {
        let digit = char::from(*byte).to_digit(2)?;
        value = value.checked_mul(2)?.checked_add(digit)?;
    }
    Some(value)
}

/// The texts that may be meant in place of the bytes `meant`, which a fault of this kind is about.
///
/// # Errors
///
/// `AllocError` where memory was refused.
pub fn candidates(
    alloc: Global,
    kind: LineFaultKind,
    meant: &[u8],
) -> Result<Vec<Vec<u8>>, AllocError> {
    let list = Vec::new(alloc);
    let mut texts = Texts { alloc, list };
    match kind {
        LineFaultKind::Mnemonic => texts.add_words(meant)?,
        LineFaultKind::Token => texts.add_tokens(meant)?,
        LineFaultKind::Operand => texts.add_operands(meant)?,
        LineFaultKind::Mark if meant == "!f".as_bytes() => texts.add(b" ", &[])?,
        LineFaultKind::NotAscii | LineFaultKind::Number | LineFaultKind::Mark => {}
    }
    let Texts { list, .. } = texts;
    Ok(list)
}
