//! Directives: `.start`, `.task`, the sections and the data.

ghost use Rattle.std.specs.Prelude.{◌≡◌, ℕ, List};
ghost use Rattle.program_statements.specs.Steps.{Shows, Gives};
ghost use Rattle.program_statements.specs.Statements.{create_at, targets_at, after_word, name_at, task_of, start_of, no_operands, word_statement, byte_statement, space_of, directive_of};

use crate::fault::{StatementError, StatementFault};
use crate::list::{bytes_of, numbers_of, places_of, registers_at, targets_of, words_of};
use crate::operand::Operand;
use crate::range::natural_of;
use crate::statement::{Section, Statement, Task};
use mips_instructions::number::RegSet;
use program_tokens::token::{Directive, Token};
use std::alloc::Global;
use task_descriptor::name::Name;

/// The registers after `create=`, and the tokens after them; no registers are written `-`.
fn create_at(tokens: &[Token]) -> Result<(RegSet, &[Token]), StatementFault>
    ensures { Shows (λ x. (x.0, x.1.now)) result (create_at tokens.now) }
{
    match tokens {
        [Token::Minus, rest @ ..] => Ok((RegSet::empty(), rest)),
        _ => registers_at(tokens),
    }
}

/// The targets after `targets=`; no targets are written `-`.
fn targets_at(alloc: Global, tokens: &[Token]) -> Result<Vec<Operand>, StatementError>
    ensures { Gives (λ places. places.items) result (targets_at tokens.now) }
{
    match tokens {
        [Token::Minus] => Ok(Vec::new(alloc)),
        _ => places_of(alloc, tokens),
    }
}

/// The tokens after a word and `=`.
fn after_word<'a>(word: &[u8], tokens: &'a [Token]) -> Result<&'a [Token], StatementFault>
    ensures { Shows (λ x. x.now) result (after_word word.now tokens.now) }
{
    match tokens {
        [Token::Name(name), Token::Equals, rest @ ..] => {
            if name.bytes() == word {
                Ok(rest)
            } else {
                Err(StatementFault::Operand)
            }
        }
        _ => Err(StatementFault::Operand),
    }
}

/// The name at the front, and the tokens after it.
fn name_at(tokens: &[Token]) -> Result<(Name, &[Token]), StatementFault>
    ensures { Shows (λ x. (x.0, x.1.now)) result (name_at tokens.now) }
{
    match tokens {
        [Token::Name(name), rest @ ..] => Ok((*name, rest)),
        _ => Err(StatementFault::Operand),
    }
}

/// `.task NAME create=REGS targets=TS`
#[tactic(auto, unfolding(crate::specs::Statements::task_of))]
fn task_of(alloc: Global, tokens: &[Token]) -> Result<Statement, StatementError>
    ensures { Gives (λ statement. statement) result (task_of tokens.now) }
{
    let (name, rest) = match name_at(tokens) {
        Ok(x) => x,
        Err(fault) => return Err(StatementError::Fault(fault)),
    };
    let rest = match after_word(b"create", rest) {
        Ok(rest) => rest,
        Err(fault) => return Err(StatementError::Fault(fault)),
    };
    let (create, rest) = match create_at(rest) {
        Ok(x) => x,
        Err(fault) => return Err(StatementError::Fault(fault)),
    };
    let rest = match after_word(b"targets", rest) {
        Ok(rest) => rest,
        Err(fault) => return Err(StatementError::Fault(fault)),
    };
    let places = targets_at(alloc, rest)?;
    let targets = targets_of(alloc, &places)?;
    Ok(Statement::Task(Task {
        name,
        create,
        targets,
    }))
}

/// `.start NAME`
fn start_of(tokens: &[Token]) -> Result<Statement, StatementError>
    ensures { Gives (λ statement. statement) result (start_of tokens.now) }
{
    match tokens {
        [Token::Name(name)] => Ok(Statement::Start(*name)),
        _ => Err(StatementError::Fault(StatementFault::Operand)),
    }
}

/// `.text`, `.data`, `.rodata`
fn section_of(section: Section, tokens: &[Token]) -> Result<Statement, StatementError>
    ensures { Gives (λ statement. statement) result (no_operands (Statement.Section section) tokens.now) }
{
    match tokens {
        [] => Ok(Statement::Section(section)),
        _ => Err(StatementError::Fault(StatementFault::Operand)),
    }
}

/// `.word N,..`
#[tactic(auto, unfolding(crate::specs::Statements::word_statement))]
fn word_statement(alloc: Global, tokens: &[Token]) -> Result<Statement, StatementError>
    ensures { Gives (λ statement. statement) result (word_statement tokens.now) }
{
    let numbers = numbers_of(alloc, tokens)?;
    Ok(Statement::Bytes(words_of(alloc, &numbers)?))
}

/// `.byte N,..`
#[tactic(auto, unfolding(crate::specs::Statements::byte_statement))]
fn byte_statement(alloc: Global, tokens: &[Token]) -> Result<Statement, StatementError>
    ensures { Gives (λ statement. statement) result (byte_statement tokens.now) }
{
    let numbers = numbers_of(alloc, tokens)?;
    Ok(Statement::Bytes(bytes_of(alloc, &numbers)?))
}

/// `.space N`
fn space_of(tokens: &[Token]) -> Result<Statement, StatementError>
    ensures { Gives (λ statement. statement) result (space_of tokens.now) }
{
    match tokens {
        [Token::Number(number)] => match natural_of(65_536, *number) {
            Ok(size) => Ok(Statement::Space(size)),
            Err(fault) => Err(StatementError::Fault(fault)),
        },
        _ => Err(StatementError::Fault(StatementFault::Operand)),
    }
}

/// The statement of a directive in a section, with the tokens after it.
///
/// # Errors
///
/// `Mnemonic` for an unknown directive and for data in `.text`; `Operand` where the tokens do not fit; `Number`
/// where a number is out of its range. `OutOfMemory` where memory was refused.
pub fn directive_of(
    alloc: Global,
    section: Section,
    directive: Directive,
    tokens: &[Token],
) -> Result<Statement, StatementError>
    ensures { Gives (λ statement. statement) result (directive_of section directive tokens.now) }
{
    match directive {
        Directive::Start => start_of(tokens),
        Directive::Task => task_of(alloc, tokens),
        Directive::Text => section_of(Section::Text, tokens),
        Directive::Data => section_of(Section::Data, tokens),
        Directive::Rodata => section_of(Section::Rodata, tokens),
        Directive::Word | Directive::Byte | Directive::Space if section == Section::Text => {
            Err(StatementError::Fault(StatementFault::Mnemonic))
        }
        Directive::Word => word_statement(alloc, tokens),
        Directive::Byte => byte_statement(alloc, tokens),
        Directive::Space => space_of(tokens),
        Directive::Unknown => Err(StatementError::Fault(StatementFault::Mnemonic)),
    }
}
