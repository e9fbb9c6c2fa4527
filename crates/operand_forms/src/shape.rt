//! The shapes of operands: what each statement takes after its word, and in which range its numbers are.

ghost use Rattle.std.specs.Prelude.{◌≡◌, map};
ghost use Rattle.operand_forms.specs.Shapes.{directives, shape_in, shape_of, instruction_text, form_text, takes_none, range_of, range_text};

use mips_instructions::instruction::{Form, Mnemonic};

/// The shape of a statement's operands.
#[derive(Clone, Copy, Debug, PartialEq, Eq)]
pub enum OperandShape {
    /// The operands of an instruction of this form.
    Instruction(Form),
    /// No operands.
    Nothing,
    /// `NAME`, after `.start`.
    Start,
    /// `NAME create=REGS targets=TS`, after `.task`.
    Task,
    /// `n,..`, after `.word`.
    Words,
    /// `n,..`, after `.byte`.
    Bytes,
    /// `n`, after `.space`.
    Space,
}

/// The numbers that a statement takes: `low` to `high`, both included.
#[derive(Clone, Copy, Debug, PartialEq, Eq)]
pub struct Range {
    /// The least.
    pub low: i64,
    /// The greatest.
    pub high: i64,
}

/// Every directive, with the shape of the operands that follow it.
pub const DIRECTIVES: [(&str, OperandShape); 8] = [
    (".start", OperandShape::Start),
    (".task", OperandShape::Task),
    (".text", OperandShape::Nothing),
    (".data", OperandShape::Nothing),
    (".rodata", OperandShape::Nothing),
    (".word", OperandShape::Words),
    (".byte", OperandShape::Bytes),
    (".space", OperandShape::Space),
];

/// The shape of this word in a table.
fn shape_in(rows: &[(&'static str, OperandShape)], word: &[u8]) -> Option<OperandShape>
    ensures { result ≡ shape_in word.now (map (λ row. (row.0.now, row.1)) rows.now) }
{
    for (name, shape) in rows {
        if name.as_bytes() == word {
            return Some(*shape);
        }
    }
    None
}

/// What operands follow this word, if it is a directive. Most words have no dot: they are not compared.
#[tactic(auto, using(crate::proofs::NoDot::no_directive))]
fn directive_shape(word: &[u8]) -> Option<OperandShape>
    ensures { result ≡ shape_in word.now directives }
{
    if !word.starts_with(b".") {
        return None;
    }
    shape_in(&DIRECTIVES, word)
}

/// The shape of the operands that follow a word, a mnemonic or a directive; `None` where it begins no statement.
#[tactic(auto, unfolding(crate::specs::Shapes::shape_of))]
pub fn shape_of(word: &[u8]) -> Option<OperandShape>
    ensures { result ≡ shape_of word.now }
{
    match Mnemonic::named(word) {
        Some(mnemonic) => Some(OperandShape::Instruction(mnemonic.form())),
        None => directive_shape(word),
    }
}

/// Operands of an instruction, as they may stand after its word.
fn instruction_text(form: Form) -> &'static str
    ensures { result.now ≡ instruction_text form }
{
    match form {
        Form::Three | Form::ShiftVar => " $8,$9,$10",
        Form::ShiftBy | Form::Signed | Form::Unsigned => " $8,$9,4",
        Form::Upper | Form::LoadImmediate => " $8,4",
        Form::Sources | Form::DestSource | Form::Registers => " $8,$9",
        Form::Dest | Form::Source => " $8",
        Form::Memory => " $8,4($9)",
        Form::BranchTwo => " $8,$9,LABEL",
        Form::BranchOne | Form::LoadAddress => " $8,LABEL",
        Form::Jump => " LABEL",
        Form::Nothing => "",
    }
}

/// Operands of a shape as they may follow the word, an example with a blank before it; empty where there are none.
pub fn form_text(shape: OperandShape) -> &'static str
    ensures { result.now ≡ form_text shape }
{
    match shape {
        OperandShape::Instruction(form) => instruction_text(form),
        OperandShape::Nothing => "",
        OperandShape::Start => " A",
        OperandShape::Task => " A create=$8,$9 targets=A,B",
        OperandShape::Words | OperandShape::Bytes => " 1,2",
        OperandShape::Space => " 4",
    }
}

/// Whether a statement of this shape takes no operand.
pub fn takes_none(shape: OperandShape) -> bool
    ensures { result ≡ takes_none shape }
{
    match shape {
        OperandShape::Instruction(form) => matches!(form, Form::Nothing),
        OperandShape::Nothing => true,
        _ => false,
    }
}

/// The range of the numbers that a statement of this shape takes; 0 alone where it takes none.
pub fn range_of(shape: OperandShape) -> Range
    ensures { result ≡ range_of shape }
{
    let (low, high) = match shape {
        OperandShape::Instruction(Form::ShiftBy) => (0, 31),
        OperandShape::Instruction(Form::Signed | Form::Memory) => (-32_768, 32_767),
        OperandShape::Instruction(Form::Unsigned | Form::Upper) => (0, 65_535),
        OperandShape::Instruction(Form::LoadImmediate) | OperandShape::Words => (
            -2_147_483_648,
            4_294_967_295,
        ),
        OperandShape::Bytes => (-128, 255),
        OperandShape::Space => (0, 65_536),
        _ => (0, 0),
    };
    Range { low, high }
}

/// The sentence of a message that gives the range of the shape's numbers.
pub fn range_text(shape: OperandShape) -> &'static str
    ensures { result.now ≡ range_text shape }
{
    match shape {
        OperandShape::Instruction(Form::ShiftBy) => "a shift amount is 0 to 31",
        OperandShape::Instruction(Form::Signed) => "this number is -32768 to 32767",
        OperandShape::Instruction(Form::Unsigned | Form::Upper) => "this number is 0 to 65535",
        OperandShape::Instruction(Form::Memory) => "an offset is -32768 to 32767",
        OperandShape::Instruction(Form::LoadImmediate) =>
            "this number is -2147483648 to 4294967295",
        OperandShape::Words => "a word is -2147483648 to 4294967295",
        OperandShape::Bytes => "a byte is -128 to 255",
        OperandShape::Space => "the size is 0 to 65536",
        _ => "this statement takes no number",
    }
}
