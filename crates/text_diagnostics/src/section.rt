//! Whether a line can be read in a section, and which section it names.

ghost use Rattle.std.specs.Prelude.{◌≡◌, IfOk};
ghost use Rattle.program_statements.specs.Statements.{statement_of};
ghost use Rattle.text_diagnostics.specs.Mending.{fault_of_statement, fault_in, reads};

use crate::advice::Made;
use operand_forms::bytes::bytes_at;
use operand_forms::line_fault::{LineFaultKind, kind_of_fault};
use operand_forms::meant::label_tokens;
use operand_forms::rows::places_of;
use operand_forms::shape::shape_of;
use program_statements::fault::StatementError;
use program_statements::line::statement_of;
use program_statements::statement::Section;
use program_tokens::line::line_tokens;
use program_tokens::token::{Directive, Token, TokenFault};
use std::alloc::{AllocError, Global};

/// The words that name a section, if only in other assemblers.
const SECTIONS: [(&str, Section); 9] = [
    (".text", Section::Text),
    (".ktext", Section::Text),
    (".rodata", Section::Rodata),
    (".rdata", Section::Rodata),
    (".data", Section::Data),
    (".sdata", Section::Data),
    (".kdata", Section::Data),
    (".bss", Section::Data),
    (".sbss", Section::Data),
];

/// Why tokens are no statement of a section, if they are none.
pub(crate) fn statement_fault(
    alloc: Global,
    section: Section,
    tokens: &[Token],
) -> Made<Option<LineFaultKind>>
    ensures { IfOk result (λ kind. kind ≡ fault_of_statement (statement_of section tokens.now)) }
{
    match statement_of(alloc, section, tokens) {
        Ok(_) => Ok(None),
        Err(StatementError::Fault(fault)) => Ok(Some(kind_of_fault(fault))),
        Err(StatementError::OutOfMemory) => Err(AllocError),
    }
}

/// Why a line cannot be read in a section, if it cannot.
#[tactic(auto, unfolding(crate::specs::Mending::fault_in))]
fn fault_in(alloc: Global, section: Section, line: &[u8]) -> Made<Option<LineFaultKind>>
    ensures { IfOk result (λ kind. kind ≡ fault_in section line.now) }
{
    match line_tokens(alloc, line) {
        Ok(tokens) => statement_fault(alloc, section, &tokens[label_tokens(&tokens)..]),
        Err(TokenFault::NotAscii) => Ok(Some(LineFaultKind::NotAscii)),
        Err(TokenFault::Token) => Ok(Some(LineFaultKind::Token)),
        Err(TokenFault::OutOfMemory) => Err(AllocError),
    }
}

/// Whether a line can be read in a section.
pub(crate) fn reads(alloc: Global, section: Section, line: &[u8]) -> Made<bool>
    ensures { IfOk result (λ yes. yes ≡ reads section line.now) }
{
    Ok(fault_in(alloc, section, line)?.is_none())
}

/// The section that a word names.
fn section_named(word: &[u8]) -> Option<Section> {
    let row = SECTIONS.iter().find(|row| row.0.as_bytes() == word)?;
    Some(row.1)
}

/// The first section that a word of a line names. Most lines have no dot: their words are not looked for.
pub(crate) fn section_in(alloc: Global, line: &[u8]) -> Made<Option<Section>> {
    if !line.contains(&b'.') {
        return Ok(None);
    }
    let places = places_of(alloc, line)?;
    let mut words = places.iter().map(|place| bytes_at(line, *place));
    Ok(words.find_map(|word| section_named(word)))
}

/// Whether tokens begin with a word that begins a statement.
pub(crate) fn is_statement(tokens: &[Token]) -> bool {
    match tokens {
        [Token::Name(name), ..] => shape_of(name.bytes()).is_some(),
        [Token::Directive(directive), ..] => !matches!(directive, Directive::Unknown),
        _ => false,
    }
}
