//! What a register or a word of the frame holds.

/// What a register or a word of the frame holds, as far as it is seen.
#[derive(Clone, Copy, Debug, PartialEq, Eq)]
pub(crate) enum Held {
    /// It is not seen what.
    Any,
    /// This word.
    Word(u32),
    /// What the register of this number held where the function begins, and `more`.
    Entry { register: u8, more: u32 },
}

impl Held {
    /// With this much more.
    pub(crate) fn plus(self, count: u32) -> Held {
        match self {
            Held::Any => Held::Any,
            Held::Word(word) => Held::Word(word.wrapping_add(count)),
            Held::Entry { register, more } => Held::Entry {
                register,
                more: more.wrapping_add(count),
            },
        }
    }
}

/// The sum of two.
pub(crate) fn sum(one: Held, other: Held) -> Held {
    match (one, other) {
        (held, Held::Word(word)) | (Held::Word(word), held) => held.plus(word),
        _ => Held::Any,
    }
}

/// The first less the second.
pub(crate) fn difference(one: Held, other: Held) -> Held {
    match other {
        Held::Word(word) => one.plus(0u32.wrapping_sub(word)),
        _ => Held::Any,
    }
}
