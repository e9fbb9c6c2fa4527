//! The operands of a statement as a sequence of parts, and how many tokens fit it.

ghost use Rattle.std.specs.Prelude.{◌≡◌, ◌≤◌, length, drop};
ghost use Rattle.std.specs.Option.{option_map};
ghost use Rattle.operand_forms.specs.Forms.{instruction_form, form_of, is_general, is_word, is_part, is_list, may_be_none, at_part, at_member, next_part, fitting};

use crate::form::OperandPart::{
    Close, Comma, Create, Equals, Label, Number, Numbers, Open, Place, Places, Register,
    RegisterList, RegisterSet, Targets,
};
use crate::shape::OperandShape;
use mips_instructions::instruction::Form;
use program_tokens::token::Token;

/// A part of the operands of a statement.
#[derive(Clone, Copy, Debug, PartialEq, Eq)]
pub enum OperandPart {
    /// A general register, `$0` to `$31`.
    Register,
    /// A number, of any range.
    Number,
    /// A place in the code: a name, or `@` and a code index.
    Place,
    /// A name alone.
    Label,
    /// `,`
    Comma,
    /// `(`
    Open,
    /// `)`
    Close,
    /// `=`
    Equals,
    /// The word `create`.
    Create,
    /// The word `targets`.
    Targets,
    /// One number or more, with commas between them.
    Numbers,
    /// One register or more, with commas between them, HI and LO among them.
    RegisterList,
    /// Such registers, or `-` for none.
    RegisterSet,
    /// One place or more, with commas between them, or `-` for none.
    Places,
}

/// How much of the first part has been read.
#[derive(Clone, Copy, Debug, PartialEq, Eq)]
pub enum Inside {
    /// Nothing of it.
    Before,
    /// A member of its list, last.
    Member,
    /// A comma of its list, last.
    AfterComma,
}

/// The operands of a form of an instruction, part by part.
fn instruction_form(form: Form) -> &'static [OperandPart]
    ensures { result.now ≡ instruction_form form }
{
    match form {
        Form::Three | Form::ShiftVar => &[Register, Comma, Register, Comma, Register],
        Form::ShiftBy | Form::Signed | Form::Unsigned => {
            &[Register, Comma, Register, Comma, Number]
        }
        Form::Upper | Form::LoadImmediate => &[Register, Comma, Number],
        Form::Sources | Form::DestSource => &[Register, Comma, Register],
        Form::Dest | Form::Source => &[Register],
        Form::Memory => &[Register, Comma, Number, Open, Register, Close],
        Form::BranchTwo => &[Register, Comma, Register, Comma, Place],
        Form::BranchOne => &[Register, Comma, Place],
        Form::Jump => &[Place],
        Form::Registers => &[RegisterList],
        Form::Nothing => &[],
        Form::LoadAddress => &[Register, Comma, Label],
    }
}

/// The operands of a shape, part by part.
fn form_of(shape: OperandShape) -> &'static [OperandPart]
    ensures { result.now ≡ form_of shape }
{
    match shape {
        OperandShape::Instruction(form) => instruction_form(form),
        OperandShape::Nothing => &[],
        OperandShape::Start => &[Label],
        OperandShape::Task => &[Label, Create, Equals, RegisterSet, Targets, Equals, Places],
        OperandShape::Words | OperandShape::Bytes => &[Numbers],
        OperandShape::Space => &[Number],
    }
}

/// Whether a token is a general register: HI and LO are none.
fn is_general(token: &Token) -> bool
    ensures { result ≡ is_general token.now }
{
    match token {
        Token::Register(register) => register.get() < 32,
        _ => false,
    }
}

/// Whether a token is this word.
fn is_word(token: &Token, word: &[u8]) -> bool
    ensures { result ≡ is_word word.now token.now }
{
    match token {
        Token::Name(name) => name.bytes() == word,
        _ => false,
    }
}

/// Whether a token is this part, or a member of it.
fn is_part(part: OperandPart, token: &Token) -> bool
    ensures { result ≡ is_part part token.now }
{
    match part {
        Register => is_general(token),
        RegisterList | RegisterSet => matches!(token, Token::Register(_)),
        Number | Numbers => matches!(token, Token::Number(_)),
        Place | Places => matches!(token, Token::Name(_) | Token::Index(_)),
        Label => matches!(token, Token::Name(_)),
        Create => is_word(token, b"create"),
        Targets => is_word(token, b"targets"),
        Comma => matches!(token, Token::Comma),
        Equals => matches!(token, Token::Equals),
        Open => matches!(token, Token::Open),
        Close => matches!(token, Token::Close),
    }
}

/// Whether a part is a list.
fn is_list(part: OperandPart) -> bool
    ensures { result ≡ is_list part }
{
    matches!(part, Numbers | RegisterList | RegisterSet | Places)
}

/// Whether a token is the `-` that a part may be.
fn may_be_none(part: OperandPart, token: &Token) -> bool
    ensures { result ≡ may_be_none part token.now }
{
    match part {
        RegisterSet | Places => matches!(token, Token::Minus),
        _ => false,
    }
}

/// Where a token leads that stands at the beginning of these parts.
fn at_part(parts: &'static [OperandPart], token: &Token) -> Option<(Inside, &'static [OperandPart])>
    ensures { option_map (λ next. (next.0, next.1.now)) result ≡ at_part parts.now token.now }
{
    match parts {
        [] => None,
        [part, rest @ ..] => {
            if may_be_none(*part, token) {
                return Some((Inside::Before, rest));
            }
            if is_list(*part) {
                return is_part(*part, token).then_some((Inside::Member, parts));
            }
            is_part(*part, token).then_some((Inside::Before, rest))
        }
    }
}

/// The parts without the first.
fn after_first(parts: &'static [OperandPart]) -> &'static [OperandPart]
    ensures { result.now ≡ drop 1 parts.now }
{
    match parts {
        [_, rest @ ..] => rest,
        [] => parts,
    }
}

/// Where a token leads that stands after a comma of the first part.
fn at_member(
    parts: &'static [OperandPart],
    token: &Token,
) -> Option<(Inside, &'static [OperandPart])>
    ensures { option_map (λ next. (next.0, next.1.now)) result ≡ at_member parts.now token.now }
{
    match parts {
        [] => None,
        [part, ..] => is_part(*part, token).then_some((Inside::Member, parts)),
    }
}

/// Where a token leads.
fn next_part(
    inside: Inside,
    parts: &'static [OperandPart],
    token: &Token,
) -> Option<(Inside, &'static [OperandPart])>
    ensures { option_map (λ next. (next.0, next.1.now)) result ≡ next_part inside parts.now token.now }
{
    match inside {
        Inside::Before => at_part(parts, token),
        Inside::Member => {
            if matches!(token, Token::Comma) {
                return Some((Inside::AfterComma, parts));
            }
            at_part(after_first(parts), token)
        }
        Inside::AfterComma => at_member(parts, token),
    }
}

/// How many tokens, from the first on, fit the operands of a shape; numbers of any range fit.
pub fn fitting(shape: OperandShape, tokens: &[Token]) -> usize
    ensures value { result ≡ fitting Inside.Before (form_of shape) tokens.now }
    ensures within { result ≤ length tokens.now }
{
    let mut inside = Inside::Before;
    let mut parts = form_of(shape);
    let mut count = 0;
    for token in tokens {
        let Some((next, rest)) = next_part(inside, parts, token) else {
            return count;
        };
        inside = next;
        parts = rest;
        count += 1;
    }
    count
}
