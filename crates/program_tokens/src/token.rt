//! The tokens of a program text (in the manner of the MIPS assemblers).

ghost use Rattle.std.specs.Prelude.{◌≡◌};
ghost use Rattle.program_tokens.specs.declared.token.TokenFault.TheVariants.{OutOfMemory};

use mips_instructions::number::Reg;
use std::alloc::AllocFailed;
use task_descriptor::name::Name;
use thiserror::Error;

/// A token of a program text, with what it means.
#[derive(Clone, Copy, Debug, PartialEq, Eq)]
pub enum Token {
    /// A letter or `_`, then letters, digits and `_`; 1 to 32 bytes.
    Name(Name),
    /// `$` and a register's number, 0 to 33 (32 is HI, 33 is LO), or its name.
    Register(Reg),
    /// Decimal digits, or `0x` and hexadecimal digits of either case; a `-` may come directly before.
    Number(Number),
    /// `@` and decimal digits: a code index.
    Index(Number),
    /// `.` and lower-case letters.
    Directive(Directive),
    /// `!` and lower-case letters.
    Mark(Mark),
    /// `,`
    Comma,
    /// `(`
    Open,
    /// `)`
    Close,
    /// `:`
    Colon,
    /// `=`
    Equals,
    /// A `-` with no digit directly after it.
    Minus,
}

/// The value of a number in a text, as exact as the grammar's ranges need it.
#[derive(Clone, Copy, Debug, PartialEq, Eq)]
pub enum Number {
    /// A number whose absolute value is below 2^40.
    Small(i64),
    /// Any other: beyond every range of the grammar.
    Large,
}

impl Default for Number {
    /// 0, which stands in the places of a list that are not used yet.
    fn default() -> Number {
        Number::Small(0)
    }
}

/// A directive of the text format, by its letters.
#[derive(Clone, Copy, Debug, PartialEq, Eq)]
pub enum Directive {
    /// `.start`
    Start,
    /// `.task`
    Task,
    /// `.text`
    Text,
    /// `.data`
    Data,
    /// `.rodata`
    Rodata,
    /// `.word`
    Word,
    /// `.byte`
    Byte,
    /// `.space`
    Space,
    /// Any other letters.
    Unknown,
}

/// A forward or stop bit of an instruction, by its letters (ISCA 1995, section 2.2).
#[derive(Clone, Copy, Debug, PartialEq, Eq)]
pub enum Mark {
    /// `!f`: the forward bit; what the instruction writes goes to the later tasks at once.
    Forward,
    /// `!s`: the task stops after the instruction.
    Always,
    /// `!st`: the task stops where the branch is taken.
    Taken,
    /// `!sn`: the task stops where the branch is not taken.
    NotTaken,
    /// Any other letters.
    Unknown,
}

/// Why a line has no tokens, numbered as the faults of a program text are.
#[derive(Clone, Copy, Debug, PartialEq, Eq, Error)]
pub enum LineFault {
    /// 2: a byte is neither printable ASCII nor a tab, nor the one CR at the line's end.
    #[error("2 NotAscii")]
    NotAscii,
    /// 3: some bytes are no token.
    #[error("3 Token")]
    Token,
}

/// Why a line's tokens were not read.
#[derive(Clone, Copy, Debug, PartialEq, Eq, Error)]
pub enum TokenFault {
    /// 2: a byte is neither printable ASCII nor a tab, nor the one CR at the line's end.
    #[error("2 NotAscii")]
    NotAscii,
    /// 3: some bytes are no token.
    #[error("3 Token")]
    Token,
    /// Memory for the tokens was refused.
    #[error("out of memory")]
    OutOfMemory,
}

impl<T: Drop> From<AllocFailed<T>> for TokenFault {
    ghost from_gives = { λ _ e. e ≡ OutOfMemory };

    fn from(_failed: AllocFailed<T>) -> TokenFault {
        TokenFault::OutOfMemory
    }
}
