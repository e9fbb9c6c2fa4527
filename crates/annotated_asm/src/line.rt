//! What one line spells, with its faults as faults of the text.

ghost use Rattle.std.specs.Prelude.{◌≡◌};
ghost use Rattle.program_tokens.specs.Grammar.{line_tokens};
ghost use Rattle.program_statements.specs.Statements.{statement_of};
ghost use Rattle.annotated_asm.specs.Steps.{Answers};
ghost use Rattle.annotated_asm.specs.Items.{at_line, on_line, section_after, tokens_on_line};
ghost use Rattle.annotated_asm.specs.Layout.{instruction_count};

use crate::fault::AsmFault;
use program_statements::fault::{StatementError, StatementFault};
use program_statements::line::statement_of;
use program_statements::statement::{Instruction, Section, Statement};
use program_tokens::line::read_tokens;
use program_tokens::token::{Token, TokenFault};
use std::alloc::Global;

/// Replaces what the vector holds with the tokens of line `line`, counted from 1.
///
/// # Errors
///
/// `NotAscii` or `Token` with the line's number, or `OutOfMemory` where memory was refused.
pub fn tokens_of(tokens: &mut Vec<Token>, line: u32, text: &[u8]) -> Result<(), AsmFault>
    ensures { Answers (λ _. tokens.new.items) result (tokens_on_line line (line_tokens text.now)) }
{
    match read_tokens(tokens, text) {
        Ok(()) => Ok(()),
        Err(TokenFault::NotAscii) => Err(AsmFault::NotAscii(line)),
        Err(TokenFault::Token) => Err(AsmFault::Token(line)),
        Err(TokenFault::OutOfMemory) => Err(AsmFault::OutOfMemory),
    }
}

/// The statement that the tokens after the labels of line `line`, counted from 1, spell in this section.
///
/// # Errors
///
/// `Mnemonic`, `Operand`, `Number` or `Mark` with the line's number, or `OutOfMemory` where memory was refused.
pub fn statement_at(
    alloc: Global,
    line: u32,
    section: Section,
    tokens: &[Token],
) -> Result<Statement, AsmFault>
    ensures { Answers (λ statement. statement) result (on_line line (statement_of section tokens.now)) }
{
    match statement_of(alloc, section, tokens) {
        Ok(statement) => Ok(statement),
        Err(StatementError::Fault(fault)) => Err(at_line(line, fault)),
        Err(StatementError::OutOfMemory) => Err(AsmFault::OutOfMemory),
    }
}

/// A statement's fault, as a fault of the text.
fn at_line(line: u32, fault: StatementFault) -> AsmFault
    ensures { result ≡ at_line line fault }
{
    match fault {
        StatementFault::Mnemonic => AsmFault::Mnemonic(line),
        StatementFault::Operand => AsmFault::Operand(line),
        StatementFault::Number => AsmFault::Number(line),
        StatementFault::Mark => AsmFault::Mark(line),
    }
}

/// The section that the lines after a statement add to.
pub fn section_after(section: Section, statement: &Statement) -> Section
    ensures { result ≡ section_after section statement.now }
{
    match statement {
        Statement::Section(next) => *next,
        _ => section,
    }
}

/// The number of machine instructions, 1 or 2, that an instruction of the text expands to.
pub fn instruction_count(instruction: &Instruction) -> u64
    ensures { result ≡ instruction_count instruction.now }
{
    match instruction {
        Instruction::Two(_, _) | Instruction::LoadAddress(_, _) => 2,
        _ => 1,
    }
}
