//! The operands of an instruction: what is between its commas.

ghost use Rattle.std.specs.Prelude.{◌≡◌};
ghost use Rattle.std.specs.Option.{option_map};
ghost use Rattle.program_statements.specs.Steps.{Shows};
ghost use Rattle.program_statements.specs.Operands.{general, base_at, operand_at, after_one, after_two, operands_of};

use crate::fault::StatementFault;
use mips_instructions::number::{Gpr, Reg};
use program_tokens::token::{Number, Token};
use task_descriptor::name::Name;

/// An operand of an instruction, before its number's range is judged and its label is resolved.
#[derive(Clone, Copy, Debug)]
pub enum Operand {
    /// A general register, 0..=31.
    Register(Gpr),
    /// A number.
    Number(Number),
    /// `n(base)`: an offset in bytes, and the general register that it is added to.
    Offset(Number, Gpr),
    /// A label.
    Label(Name),
    /// `@n`: a code index.
    Index(Number),
}

/// The operands of an instruction, 0 to 3, in the order of the text.
#[derive(Clone, Copy, Debug)]
pub enum Operands {
    /// No operand.
    Zero,
    /// One operand.
    One(Operand),
    /// Two operands.
    Two(Operand, Operand),
    /// Three operands.
    Three(Operand, Operand, Operand),
}

/// The base of an offset, as `($8)`, and the tokens after it.
#[tactic(auto, unfolding(crate::specs::Operands::base_at))]
fn base_at(tokens: &[Token]) -> Option<(Gpr, &[Token])>
    ensures { option_map (λ x. (x.0, x.1.now)) result ≡ base_at tokens.now }
{
    match tokens {
        [Token::Open, Token::Register(base), Token::Close, rest @ ..] => {
            Some((Gpr::new(base.get())?, rest))
        }
        _ => None,
    }
}

/// The general register of this number; HI and LO are no operands.
fn general_of(register: Reg) -> Result<Gpr, StatementFault>
    ensures { result ≡ general register }
{
    Gpr::new(register.get()).ok_or(StatementFault::Operand)
}

/// The first operand of these tokens, and the tokens after it.
#[tactic(auto, unfolding(crate::specs::Operands::operand_at))]
fn operand_at(tokens: &[Token]) -> Result<(Operand, &[Token]), StatementFault>
    ensures { Shows (λ x. (x.0, x.1.now)) result (operand_at tokens.now) }
{
    match tokens {
        [Token::Register(register), rest @ ..] => Ok((
            Operand::Register(general_of(*register)?),
            rest,
        )),
        [Token::Number(number), rest @ ..] => match base_at(rest) {
            None => Ok((Operand::Number(*number), rest)),
            Some((base, rest)) => Ok((Operand::Offset(*number, base), rest)),
        },
        [Token::Name(name), rest @ ..] => Ok((Operand::Label(*name), rest)),
        [Token::Index(number), rest @ ..] => Ok((Operand::Index(*number), rest)),
        _ => Err(StatementFault::Operand),
    }
}

/// The operands, of which the first two are known and these tokens follow them.
#[tactic(auto, unfolding(crate::specs::Operands::after_two))]
fn after_two(first: Operand, second: Operand, tokens: &[Token]) -> Result<Operands, StatementFault>
    ensures { result ≡ after_two first second tokens.now }
{
    match tokens {
        [] => Ok(Operands::Two(first, second)),
        [Token::Comma, rest @ ..] => match operand_at(rest) {
            Ok((third, [])) => Ok(Operands::Three(first, second, third)),
            Ok((_, [_, ..])) => Err(StatementFault::Operand),
            Err(fault) => Err(fault),
        },
        _ => Err(StatementFault::Operand),
    }
}

/// The operands, of which the first is known and these tokens follow it.
#[tactic(auto, unfolding(crate::specs::Operands::after_one))]
fn after_one(first: Operand, tokens: &[Token]) -> Result<Operands, StatementFault>
    ensures { result ≡ after_one first tokens.now }
{
    match tokens {
        [] => Ok(Operands::One(first)),
        [Token::Comma, rest @ ..] => match operand_at(rest) {
            Ok((second, rest)) => after_two(first, second, rest),
            Err(fault) => Err(fault),
        },
        _ => Err(StatementFault::Operand),
    }
}

/// The operands that these tokens spell, with commas between them.
///
/// # Errors
///
/// `Operand` where the tokens are no such list, have more than three operands, or name HI or LO.
#[tactic(auto, unfolding(crate::specs::Operands::operands_of))]
pub fn operands_of(tokens: &[Token]) -> Result<Operands, StatementFault>
    ensures { result ≡ operands_of tokens.now }
{
    if tokens.is_empty() {
        return Ok(Operands::Zero);
    }
    match operand_at(tokens) {
        Ok((first, rest)) => after_one(first, rest),
        Err(fault) => Err(fault),
    }
}
