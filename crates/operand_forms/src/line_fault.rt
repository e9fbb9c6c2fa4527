//! What is wrong with a line, judged by itself and its section.

ghost use Rattle.std.specs.Prelude.{◌≡◌};
ghost use Rattle.operand_forms.specs.LineFaults.{fault_at, kind_of_fault};

use annotated_asm::fault::AsmFault;
use program_statements::fault::StatementFault;

/// What is wrong with a line, judged by itself and its section. The numbers are those of the faults of a program text.
#[derive(Clone, Copy, Debug, PartialEq, Eq)]
pub enum LineFaultKind {
    /// 2: a byte is neither printable ASCII nor a tab, nor the one CR at the line's end.
    NotAscii,
    /// 3: some bytes are no token.
    Token,
    /// 4: the statement is not one that the section allows.
    Mnemonic,
    /// 5: the operands do not fit the statement in number or kind.
    Operand,
    /// 6: a number is out of its range.
    Number,
    /// 7: a mark is unknown, repeated, or on a directive.
    Mark,
}

impl LineFaultKind {
    /// The fault of the line with this number, from 1, as the assembler reports it.
    pub fn on_line(self, line: u32) -> AsmFault
        ensures { result ≡ fault_at line self }
    {
        match self {
            LineFaultKind::NotAscii => AsmFault::NotAscii(line),
            LineFaultKind::Token => AsmFault::Token(line),
            LineFaultKind::Mnemonic => AsmFault::Mnemonic(line),
            LineFaultKind::Operand => AsmFault::Operand(line),
            LineFaultKind::Number => AsmFault::Number(line),
            LineFaultKind::Mark => AsmFault::Mark(line),
        }
    }
}

/// The kind of line fault that a fault of a statement is.
pub fn kind_of_fault(fault: StatementFault) -> LineFaultKind
    ensures { result ≡ kind_of_fault fault }
{
    match fault {
        StatementFault::Mnemonic => LineFaultKind::Mnemonic,
        StatementFault::Operand => LineFaultKind::Operand,
        StatementFault::Number => LineFaultKind::Number,
        StatementFault::Mark => LineFaultKind::Mark,
    }
}
