//! Lists of operands, with commas between them.

ghost use Rattle.std.specs.Prelude.{◌≡◌, ◌^◌, bit_or};
ghost use Rattle.program_statements.specs.Steps.{Shows, Gives};
ghost use Rattle.program_statements.specs.Statements.{registers_at, numbers_of, places_of, targets_of, words_of, bytes_of};

use crate::fault::{StatementError, StatementFault};
use crate::operand::Operand;
use crate::range::{byte_of, word_of};
use crate::row::as_target;
use crate::statement::{Blob, Targets};
use mips_instructions::number::{Reg, RegSet};
use program_tokens::token::{Number, Token};
use smallvec::SmallVec;
use std::alloc::Global;

/// The set with this register added, register r being bit r.
fn with_register(set: RegSet, register: Reg) -> RegSet
    ensures { result ≡ bit_or set (2 ^ register) }
{
    let _ = register.get();
    set.insert(register)
}

/// The set of the registers, with commas between them, at the front of the tokens, and the tokens after them.
///
/// # Errors
///
/// `Operand` where the front is no such list.
#[tactic(auto, unfolding(crate::specs::Statements::registers_at, crate::specs::Statements::registers_of))]
pub fn registers_at(tokens: &[Token]) -> Result<(RegSet, &[Token]), StatementFault>
    ensures { Shows (λ x. (x.0, x.1.now)) result (registers_at tokens.now) }
{
    let mut set = RegSet::empty();
    let mut rest = tokens;
    loop {
        match rest {
            [Token::Register(register), Token::Comma, after @ ..] => {
                set = with_register(set, *register);
                rest = after;
            }
            [Token::Register(register), after @ ..] => {
                set = with_register(set, *register);
                return Ok((set, after));
            }
            _ => return Err(StatementFault::Operand),
        }
    }
}

/// The numbers that the tokens list, with commas between them; at least one.
///
/// # Errors
///
/// `Operand` where the tokens are no such list; `OutOfMemory` where memory was refused.
#[tactic(auto, using(crate::proofs::Fronts::regroup, crate::proofs::Fronts::no_front), unfolding(crate::specs::Statements::numbers_of))]
pub fn numbers_of(alloc: Global, tokens: &[Token]) -> Result<SmallVec<Number, 2>, StatementError>
    ensures { Gives (λ numbers. numbers.items) result (numbers_of tokens.now) }
{
    let mut numbers = SmallVec::new(alloc);
    let mut rest = tokens;
    loop {
        match rest {
            [Token::Number(number)] => {
                numbers.push(*number)?;
                return Ok(numbers);
            }
            [Token::Number(number), Token::Comma, after @ ..] => {
                numbers.push(*number)?;
                rest = after;
            }
            _ => return Err(StatementError::Fault(StatementFault::Operand)),
        }
    }
}

/// The labels and code indices that the tokens list, with commas between them; at least one.
///
/// # Errors
///
/// `Operand` where the tokens are no such list; `OutOfMemory` where memory was refused.
#[tactic(auto, using(crate::proofs::Fronts::regroup, crate::proofs::Fronts::no_front), unfolding(crate::specs::Statements::places_of))]
pub fn places_of(alloc: Global, tokens: &[Token]) -> Result<Vec<Operand>, StatementError>
    ensures { Gives (λ places. places.items) result (places_of tokens.now) }
{
    let mut places = Vec::new(alloc);
    let mut rest = tokens;
    loop {
        let place = match rest {
            [Token::Name(name), ..] => Operand::Label(*name),
            [Token::Index(number), ..] => Operand::Index(*number),
            _ => return Err(StatementError::Fault(StatementFault::Operand)),
        };
        places.push(place)?;
        match rest {
            [_] => return Ok(places),
            [_, Token::Comma, after @ ..] => rest = after,
            _ => return Err(StatementError::Fault(StatementFault::Operand)),
        }
    }
}

/// The targets of a task that these labels and code indices name, in the same order.
///
/// # Errors
///
/// `Number` where an index is above 4096, `Operand` where an operand is neither; `OutOfMemory` where memory was
/// refused.
#[tactic(auto, using(crate::proofs::Fronts::regroup, crate::proofs::Fronts::no_front), unfolding(crate::specs::Statements::targets_of))]
pub fn targets_of(alloc: Global, places: &[Operand]) -> Result<Targets, StatementError>
    ensures { Gives (λ targets. targets) result (targets_of places.now) }
{
    let mut targets = Vec::new(alloc);
    for place in places {
        match as_target(*place) {
            Ok(target) => targets.push(target)?,
            Err(fault) => return Err(StatementError::Fault(fault)),
        }
    }
    Ok(Targets::new(targets))
}

/// The bytes of these numbers as words of 4 bytes, little-endian.
///
/// # Errors
///
/// `Number` where a number is not -2^31 to 2^32 - 1; `OutOfMemory` where memory was refused.
#[tactic(auto, using(crate::proofs::Fronts::regroup_many, crate::proofs::Fronts::no_front), unfolding(crate::specs::Statements::words_of))]
pub fn words_of(alloc: Global, numbers: &[Number]) -> Result<Blob, StatementError>
    ensures { Gives (λ bytes. bytes) result (words_of numbers.now) }
{
    let mut bytes = SmallVec::new(alloc);
    for number in numbers {
        match word_of(*number) {
            Ok(word) => bytes.extend_from_slice(&word.to_le_bytes())?,
            Err(fault) => return Err(StatementError::Fault(fault)),
        }
    }
    Ok(Blob::new(bytes))
}

/// These numbers as one byte each.
///
/// # Errors
///
/// `Number` where a number is not -128 to 255; `OutOfMemory` where memory was refused.
#[tactic(auto, using(crate::proofs::Fronts::regroup, crate::proofs::Fronts::no_front), unfolding(crate::specs::Statements::bytes_of))]
pub fn bytes_of(alloc: Global, numbers: &[Number]) -> Result<Blob, StatementError>
    ensures { Gives (λ bytes. bytes) result (bytes_of numbers.now) }
{
    let mut bytes = SmallVec::new(alloc);
    for number in numbers {
        match byte_of(*number) {
            Ok(byte) => bytes.push(byte)?,
            Err(fault) => return Err(StatementError::Fault(fault)),
        }
    }
    Ok(Blob::new(bytes))
}
