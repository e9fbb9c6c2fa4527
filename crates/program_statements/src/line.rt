//! The statement of a line.

ghost use Rattle.std.specs.Prelude.{◌≡◌};
ghost use Rattle.program_statements.specs.Steps.{Gives};
ghost use Rattle.mips_instructions.specs.InstructionTable.{mnemonic_named, mnemonics};
ghost use Rattle.program_statements.specs.Statements.{release_of, instruction_of, of_mnemonic, in_code, unmarked, with_marks, statement_of};

use crate::directive::directive_of;
use crate::fault::{StatementError, StatementFault};
use crate::list::registers_at;
use crate::marks::{mark_count, marks_after};
use crate::row;
use crate::statement::{Instruction, Marks, Section, Statement};
use mips_instructions::instruction::{Mnemonic, Op};
use program_tokens::token::Token;
use std::alloc::Global;
use task_descriptor::name::Name;

/// `release r,r,..`
#[tactic(auto, unfolding(crate::specs::Statements::release_of))]
fn release_of(tokens: &[Token]) -> Result<Instruction, StatementFault>
    ensures { result ≡ release_of tokens.now }
{
    match registers_at(tokens) {
        Ok((set, [])) => Ok(Instruction::One(Op::Release(set))),
        Ok((_, [_, ..])) => Err(StatementFault::Operand),
        Err(fault) => Err(fault),
    }
}

/// The instruction of a mnemonic with the tokens after it.
fn instruction_of(mnemonic: Mnemonic, tokens: &[Token]) -> Result<Instruction, StatementFault>
    ensures { result ≡ instruction_of mnemonic tokens.now }
{
    if let Mnemonic::Release = mnemonic {
        return release_of(tokens);
    }
    row::with_operands(mnemonic, tokens)
}

/// The mnemonic of this name, if there is one.
fn mnemonic_of(name: &Name) -> Option<Mnemonic>
    ensures { result ≡ mnemonic_named name.now mnemonics }
{
    Mnemonic::named(name.bytes())
}

/// The instruction of a name with the tokens after it, in a section.
fn code_of(section: Section, name: &Name, tokens: &[Token]) -> Result<Statement, StatementFault>
    ensures { result ≡ in_code section (of_mnemonic (mnemonic_named name.now mnemonics) tokens.now) }
{
    if section != Section::Text {
        return Err(StatementFault::Mnemonic);
    }
    match mnemonic_of(name) {
        None => Err(StatementFault::Mnemonic),
        Some(mnemonic) => Ok(Statement::Code(instruction_of(mnemonic, tokens)?, Marks::NONE)),
    }
}

/// The statement of the tokens before the marks.
fn unmarked(alloc: Global, section: Section, tokens: &[Token]) -> Result<Statement, StatementError>
    ensures { Gives (λ statement. statement) result (unmarked section tokens.now) }
{
    match tokens {
        [Token::Name(name), rest @ ..] => match code_of(section, name, rest) {
            Ok(statement) => Ok(statement),
            Err(fault) => Err(StatementError::Fault(fault)),
        },
        [Token::Directive(directive), rest @ ..] => directive_of(alloc, section, *directive, rest),
        _ => Err(StatementError::Fault(StatementFault::Mnemonic)),
    }
}

/// The statement with its marks, which an instruction alone may have.
fn with_marks(marks: &[Token], statement: Statement) -> Result<Statement, StatementFault>
    ensures { result ≡ with_marks marks.now statement }
{
    match statement {
        Statement::Code(instruction, none) => {
            Ok(Statement::Code(instruction, marks_after(none, marks)?))
        }
        other => {
            if marks.is_empty() {
                Ok(other)
            } else {
                Err(StatementFault::Mark)
            }
        }
    }
}

/// The statement that the tokens after a line's labels spell in this section; `Empty` where there are none.
///
/// # Errors
///
/// The first fault: `Mnemonic` first, then `Operand` for the number and kinds of the operands, then `Number`
/// for their ranges, then `Mark`. `OutOfMemory`, where memory was refused, may be reported in place of any of
/// these.
pub fn statement_of(
    alloc: Global,
    section: Section,
    tokens: &[Token],
) -> Result<Statement, StatementError>
    ensures { Gives (λ statement. statement) result (statement_of section tokens.now) }
{
    if tokens.is_empty() {
        return Ok(Statement::Empty);
    }
    let (front, marks) = tokens.split_at(tokens.len() - mark_count(tokens));
    let statement = unmarked(alloc, section, front)?;
    match with_marks(marks, statement) {
        Ok(statement) => Ok(statement),
        Err(fault) => Err(StatementError::Fault(fault)),
    }
}
