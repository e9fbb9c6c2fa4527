//! Laws: each function does nothing, and its contract is a theorem about the definitions alone. To use one, call it.

ghost use Rattle.std.specs.Prelude.{◌≡◌, ◌↔◌, ℕ, List, [], ◌∷◌, Some, Err, true, false};
ghost use Rattle.program_tokens.specs.Grammar.{directive_of as directive_named};
ghost use Rattle.program_tokens.specs.declared.token.Token.{Token};
ghost use Rattle.program_tokens.specs.declared.token.Token.TheVariants.{Name};
ghost use Rattle.mips_instructions.specs.declared.instruction.Mnemonic.{Mnemonic};
ghost use Rattle.mips_instructions.specs.InstructionTable.{mnemonic_named, mnemonics};
ghost use Rattle.program_statements.specs.Statements.{instruction_of, directive_of, statement_of};
ghost use Rattle.program_statements.specs.declared.fault.StatementFault.{StatementFault};
ghost use Rattle.program_statements.specs.declared.fault.StatementFault.TheVariants.{Mark};
ghost use Rattle.program_statements.specs.declared.statement.Section.TheVariants.{Text, Data};
ghost use Rattle.operand_forms.specs.declared.shape.OperandShape.{OperandShape};
ghost use Rattle.operand_forms.specs.Shapes.{form_text, takes_none, range_of, range_text};
ghost use Rattle.operand_forms.specs.Forms.{form_of as parts_of};
ghost use Rattle.operand_forms.specs.Meant.{without_marks};
ghost use Rattle.operand_forms.specs.OperandForms.{fault_of, instruction_shape, instruction_fault, directive_shape, shape_fault, NamesFirst};
ghost use Rattle.operand_forms.specs.ShapeTexts.{is_example, from_to, ends_in, takes_number};

/// The assembler refuses the operands of an instruction exactly if they do not fit its form, and one of their numbers
/// exactly if they fit and the number is out of the form's range.
pub fn instructions_are_read_by_form()
    ensures { (m : Mnemonic) (operands : List Token) → fault_of (instruction_of m operands) ≡ instruction_fault m operands }
{}

/// The assembler refuses the operands of a directive by the directive's shape, and a word exactly if it is no directive and
/// so has no shape. The section is data, where each directive may be.
pub fn directives_are_read_by_form()
    ensures { (letters : List ℕ) (operands : List Token) → fault_of (directive_of Data (directive_named letters) operands) ≡ shape_fault (directive_shape letters) operands }
{}

/// A fault of an instruction's line that is not about marks is a fault of its operands: the tokens between its word and its
/// marks.
pub fn lines_are_read_by_form()
    ensures { (word : List ℕ) (m : Mnemonic) (tokens : List Token) (f : StatementFault) → mnemonic_named word mnemonics ≡ Some m → (f ≡ Mark → ⊥) → (statement_of Text (Name word ∷ tokens) ≡ Err f) ↔ (instruction_fault m (without_marks tokens) ≡ Some f) }
{}

/// Where operands do not fit an instruction, `explain` names the first token that is to blame.
pub fn first_unfit_token_is_named()
    ensures { (m : Mnemonic) (operands : List Token) → NamesFirst (λ tokens. fault_of (instruction_of m tokens)) (instruction_shape m) operands }
{}

/// Where operands do not fit a directive, `explain` names the first token that is to blame.
pub fn first_unfit_token_of_a_directive_is_named()
    ensures { (letters : List ℕ) (s : OperandShape) (operands : List Token) → directive_shape letters ≡ Some s → NamesFirst (λ tokens. fault_of (directive_of Data (directive_named letters) tokens)) s operands }
{}

/// The operands that `explain` gives as an example are taken: they fit the shape, and their numbers are in its range.
pub fn examples_are_taken()
    ensures { (s : OperandShape) → is_example s (form_text s) ≡ true }
{}

/// `explain` says that a statement takes no operand exactly where its shape has no part.
pub fn statements_without_operands_are_named()
    ensures { (s : OperandShape) → (takes_none s ≡ true) ↔ (parts_of s ≡ []) }
{}

/// The text in which `explain` names a range ends in the numbers of that range.
pub fn texts_name_the_range()
    ensures { (s : OperandShape) → takes_number (parts_of s) ≡ true → ends_in (from_to (range_of s)) (range_text s) ≡ true }
{}
