//! What is written here instead of words and operands of other assemblers.

/// Of a label where a word is wanted.
pub(crate) const NOT_AN_ADDRESS: &str =
    "a word is a number, not the address of a label: load the address with la where it is used; for a jump table write a branch for each case, or compile with -fno-jump-tables";

/// Of what a compiler writes for other machines than a plain MIPS I.
const FOR_MIPS1: &str = "this is not of MIPS I: compile with -march=mips1 -mno-abicalls -fno-pic";

/// Of what a compiler writes to find data and functions wherever they are loaded.
const FOR_PIC: &str =
    "leave it out, and compile with -march=mips1 -mno-abicalls -fno-pic: programs here are at fixed addresses";

/// Of a test for a divisor that is 0, or the like.
const TRAP: &str =
    "leave it out, or compile with -march=mips1 -mno-check-zero-division: nothing traps here by a test";

/// Of what does nothing here.
const IDLE: &str = "leave it out: it orders or hints at what a program here has no part in";

/// Of what says nothing that a program here needs.
const UNNEEDED: &str = "leave it out: nothing here needs it";

/// Words of other assemblers, with what is written instead. rd, rs, rt and base are
/// registers, n is a number, T a place in the code and NAME a label.
const WORDS: [(&str, &str); 122] = [
    ("add", "write addu rd,rs,rt"),
    ("addi", "write addiu rt,rs,n"),
    ("sub", "write subu rd,rs,rt"),
    ("subi", "write addiu rt,rs,-n"),
    ("subiu", "write addiu rt,rs,-n"),
    ("mul", "write mult rs,rt and mflo rd"),
    ("mulo", "write mult rs,rt and mflo rd"),
    ("mulu", "write multu rs,rt and mflo rd"),
    ("mulou", "write multu rs,rt and mflo rd"),
    (
        "div",
        "there is no division: divide a number that is not negative by a power of 2 with sra; otherwise subtract in a loop",
    ),
    (
        "divu",
        "there is no division: divide by a power of 2 with srl; otherwise subtract in a loop",
    ),
    (
        "rem",
        "there is no division: for a number that is not negative and a power of 2, n, andi with n-1 gives the remainder; otherwise subtract in a loop",
    ),
    (
        "remu",
        "there is no division: for a power of 2, n, andi with n-1 gives the remainder; otherwise subtract in a loop",
    ),
    ("neg", "write subu rd,$0,rt"),
    ("negu", "write subu rd,$0,rt"),
    ("not", "write nor rd,rs,$0"),
    ("nand", "write and rd,rs,rt and nor rd,rd,$0"),
    ("xnor", "write xor rd,rs,rt and nor rd,rd,$0"),
    (
        "abs",
        "write sra $1,rs,31 and xor rd,rs,$1 and subu rd,rd,$1",
    ),
    (
        "rol",
        "write sll $1,rs,n and srl rd,rs,32-n and or rd,rd,$1",
    ),
    (
        "ror",
        "write srl $1,rs,n and sll rd,rs,32-n and or rd,rd,$1",
    ),
    (
        "seq",
        "write xor rd,rs,rt, or xori rd,rs,n for a number, and sltiu rd,rd,1",
    ),
    (
        "sne",
        "write xor rd,rs,rt, or xori rd,rs,n for a number, and sltu rd,$0,rd",
    ),
    (
        "sgt",
        "write slt rd,rt,rs, or for a number slti rd,rs,n+1 and xori rd,rd,1",
    ),
    (
        "sgtu",
        "write sltu rd,rt,rs, or for a number sltiu rd,rs,n+1 and xori rd,rd,1",
    ),
    (
        "sge",
        "write slt rd,rs,rt, or slti rd,rs,n for a number, and xori rd,rd,1",
    ),
    (
        "sgeu",
        "write sltu rd,rs,rt, or sltiu rd,rs,n for a number, and xori rd,rd,1",
    ),
    (
        "sle",
        "write slt rd,rt,rs and xori rd,rd,1, or for a number slti rd,rs,n+1",
    ),
    (
        "sleu",
        "write sltu rd,rt,rs and xori rd,rd,1, or for a number sltiu rd,rs,n+1",
    ),
    ("beqz", "write beq rs,$0,T"),
    ("bnez", "write bne rs,$0,T"),
    (
        "blt",
        "write slt $1,rs,rt, or slti $1,rs,n for a number, and bne $1,$0,T",
    ),
    (
        "bge",
        "write slt $1,rs,rt, or slti $1,rs,n for a number, and beq $1,$0,T",
    ),
    (
        "bgt",
        "write slt $1,rt,rs and bne $1,$0,T, or for a number slti $1,rs,n+1 and beq $1,$0,T",
    ),
    (
        "ble",
        "write slt $1,rt,rs and beq $1,$0,T, or for a number slti $1,rs,n+1 and bne $1,$0,T",
    ),
    (
        "bltu",
        "write sltu $1,rs,rt, or sltiu $1,rs,n for a number, and bne $1,$0,T",
    ),
    (
        "bgeu",
        "write sltu $1,rs,rt, or sltiu $1,rs,n for a number, and beq $1,$0,T",
    ),
    (
        "bgtu",
        "write sltu $1,rt,rs and bne $1,$0,T, or for a number sltiu $1,rs,n+1 and beq $1,$0,T",
    ),
    (
        "bleu",
        "write sltu $1,rt,rs and beq $1,$0,T, or for a number sltiu $1,rs,n+1 and bne $1,$0,T",
    ),
    ("b", "write j T"),
    ("br", "write j T"),
    ("jmp", "write j T"),
    ("goto", "write j T"),
    ("bl", "write jal T"),
    ("bal", "write jal T"),
    ("call", "write jal T"),
    ("ret", "to return write jr $31 !s"),
    ("return", "to return write jr $31 !s"),
    ("mv", "write move rd,rs"),
    ("mov", "write move rd,rs"),
    ("lea", "write la rd,NAME"),
    ("lwu", "write lw rt,n(base)"),
    ("ld", "write lw twice, for the low and the high word"),
    ("sd", "write sw twice, for the low and the high word"),
    (
        "lwl",
        "there is no unaligned load: load bytes with lbu and put them together",
    ),
    (
        "lwr",
        "there is no unaligned load: load bytes with lbu and put them together",
    ),
    (
        "ulw",
        "there is no unaligned load: load bytes with lbu and put them together",
    ),
    (
        "ulh",
        "there is no unaligned load: load bytes with lbu and put them together",
    ),
    (
        "ulhu",
        "there is no unaligned load: load bytes with lbu and put them together",
    ),
    ("swl", "there is no unaligned store: store bytes with sb"),
    ("swr", "there is no unaligned store: store bytes with sb"),
    ("usw", "there is no unaligned store: store bytes with sb"),
    ("ush", "there is no unaligned store: store bytes with sb"),
    ("noop", "write nop"),
    ("print", "write out rs"),
    (
        "movz",
        "write bne rt,$0,T and move rd,rs, and the label T after them",
    ),
    (
        "movn",
        "write beq rt,$0,T and move rd,rs, and the label T after them",
    ),
    (
        "beql",
        "there are no delay slots: compile with -fno-delayed-branch",
    ),
    (
        "bnel",
        "there are no delay slots: compile with -fno-delayed-branch",
    ),
    (
        "beqzl",
        "there are no delay slots: compile with -fno-delayed-branch",
    ),
    (
        "bnezl",
        "there are no delay slots: compile with -fno-delayed-branch",
    ),
    ("push", "write addiu $sp,$sp,-4 and sw rs,0($sp)"),
    ("pop", "write lw rd,0($sp) and addiu $sp,$sp,4"),
    ("ll", "write lw rt,n(base)"),
    ("sc", "write sw rt,n(base) and li rt,1"),
    ("lwc1", "there is no floating point"),
    ("swc1", "there is no floating point"),
    ("mtc1", "there is no floating point"),
    ("mfc1", "there is no floating point"),
    ("exit", "to end the program write halt"),
    ("end", "to end the program write halt"),
    ("stop", "to end the program write halt"),
    (
        "ecall",
        "write out rs for a word, or halt to end the program",
    ),
    (
        "syscall",
        "write out rs for a word, or halt to end the program",
    ),
    (
        "break",
        "leave it out: it is for a debugger, and does not end the program",
    ),
    ("inc", "write addiu rd,rd,1"),
    ("dec", "write addiu rd,rd,-1"),
    ("sync", IDLE),
    ("synci", IDLE),
    ("ssnop", IDLE),
    ("ehb", IDLE),
    ("pref", IDLE),
    ("cache", IDLE),
    ("wait", IDLE),
    ("pause", IDLE),
    (
        "sdbbp",
        "leave it out: it is for a debugger, and does not end the program",
    ),
    ("teq", TRAP),
    ("tne", TRAP),
    ("tge", TRAP),
    ("tgeu", TRAP),
    ("tlt", TRAP),
    ("tltu", TRAP),
    ("clz", FOR_MIPS1),
    ("clo", FOR_MIPS1),
    ("ext", FOR_MIPS1),
    ("ins", FOR_MIPS1),
    ("seb", FOR_MIPS1),
    ("seh", FOR_MIPS1),
    ("wsbh", FOR_MIPS1),
    ("rotr", FOR_MIPS1),
    ("rotrv", FOR_MIPS1),
    ("madd", FOR_MIPS1),
    ("maddu", FOR_MIPS1),
    ("msub", FOR_MIPS1),
    ("msubu", FOR_MIPS1),
    ("lsa", FOR_MIPS1),
    ("dsll", FOR_MIPS1),
    ("dsrl", FOR_MIPS1),
    ("dsra", FOR_MIPS1),
    ("daddiu", FOR_MIPS1),
    ("daddu", FOR_MIPS1),
    ("dsubu", FOR_MIPS1),
];

/// Directives of other assemblers, marks, and what is no token, with what is written instead.
const SIGNS: [(&str, &str); 108] = [
    ("dw", "write .word"),
    ("db", "write .byte"),
    (".dw", "write .word"),
    (".db", "write .byte"),
    (".long", "write .word"),
    (".int", "write .word"),
    (".half", "write .byte with the low and the high byte"),
    (".hword", "write .byte with the low and the high byte"),
    (".short", "write .byte with the low and the high byte"),
    (".dword", "write .word with the low and then the high half"),
    (".quad", "write .word with the low and then the high half"),
    (".gpword", NOT_AN_ADDRESS),
    (
        ".float",
        "there is no floating point; write .word with the number's bits",
    ),
    (
        ".double",
        "there is no floating point; write .word with the low and then the high half of the number's bits",
    ),
    (
        ".ascii",
        "write .byte with the letters' numbers, as .byte 104,105 for hi, and before the next .word .space with the bytes that are missing to a multiple of 4",
    ),
    (
        ".asciiz",
        "write .byte with the letters' numbers and 0, as .byte 104,105,0 for hi, and before the next .word .space with the bytes that are missing to a multiple of 4",
    ),
    (
        ".string",
        "write .byte with the letters' numbers and 0, as .byte 104,105,0 for hi, and before the next .word .space with the bytes that are missing to a multiple of 4",
    ),
    (".skip", "write .space n"),
    (".zero", "write .space n"),
    (
        ".fill",
        "write .space n for n zeros, or .byte with each byte",
    ),
    (
        ".align",
        "write .space n with the n bytes that are missing to a multiple of 2, 4 or 8, for .align 1, 2 or 3; nothing if none is missing",
    ),
    (
        ".balign",
        "write .space n with the n bytes that are missing to a multiple of this number; nothing if none is missing",
    ),
    (".comm", "write .data, the name with a colon, and .space n"),
    (".lcomm", "write .data, the name with a colon, and .space n"),
    (".section", "write .text, .data or .rodata alone"),
    (".ktext", "write .text"),
    (".kdata", "write .data"),
    (".sdata", "write .data"),
    (".bss", "write .data, and .space for the bytes"),
    (".sbss", "write .data, and .space for the bytes"),
    (".rdata", "write .rodata"),
    (
        ".equ",
        "there are no constants: write the number where it is used",
    ),
    (
        ".eqv",
        "there are no constants: write the number where it is used",
    ),
    (".macro", "there are no macros: write the lines out"),
    (".end_macro", "there are no macros: write the lines out"),
    (".endm", "there are no macros: write the lines out"),
    (
        ".include",
        "there are no other files: write the lines of that file here",
    ),
    (".globl", "remove it: all labels are global"),
    (".global", "remove it: all labels are global"),
    (".extern", "remove it: all labels are global"),
    (
        ".set",
        "leave it out; after noreorder, though, there are delay slots, which there are not here: put the instruction after each branch or jump before it, where the branch does not read what it writes, or compile with -fno-delayed-branch",
    ),
    (".ent", "leave it out: .task says where a task begins"),
    (".end", "leave it out: the last line ends the program"),
    (".file", UNNEEDED),
    (".ident", UNNEEDED),
    (".type", UNNEEDED),
    (".size", UNNEEDED),
    (".frame", UNNEEDED),
    (".mask", UNNEEDED),
    (".fmask", UNNEEDED),
    (
        ".previous",
        "leave it out, or write .text, .data or .rodata",
    ),
    (
        "!f",
        "a mark comes at the end of the line, after the operands, with no comma between marks",
    ),
    (
        "!s",
        "a mark comes at the end of the line, after the operands, with no comma between marks",
    ),
    (
        "!st",
        "a mark comes at the end of the line, after the operands, with no comma between marks",
    ),
    (
        "!sn",
        "a mark comes at the end of the line, after the operands, with no comma between marks",
    ),
    ("!fs", "write !f !s"),
    ("!sf", "write !f !s"),
    ("!fst", "write !f !st"),
    ("!fsn", "write !f !sn"),
    ("!stop", "write !s"),
    ("!forward", "write !f"),
    (
        "$",
        "write the number or the name of a register directly after $, as in $8 or $t0",
    ),
    (
        "%",
        "write la rd,NAME in place of %hi and %lo; a register begins with $, as in $8 or $t0",
    ),
    ("$s8", "write $fp or $30"),
    ("[", "an address is written as in 0($9), a mark as in !f"),
    ("{", "lists have no braces: write create=$8,$9 targets=A,B"),
    ("}", "lists have no braces: write create=$8,$9 targets=A,B"),
    ("]", "an address is written as in 0($9), a mark as in !f"),
    ("+", "there are no sums: write the number itself"),
    (
        ";",
        "write each statement on a line of its own; a comment begins with #",
    ),
    ("/", "a comment begins with #"),
    ("'", "write the letter's number, as 65 for A"),
    (
        "\"",
        "a program has no strings: write .byte with the numbers of the letters",
    ),
    (".abicalls", FOR_PIC),
    (".cpload", FOR_PIC),
    (".cprestore", FOR_PIC),
    (".cpsetup", FOR_PIC),
    (".cpreturn", FOR_PIC),
    (".cplocal", FOR_PIC),
    (".option", FOR_PIC),
    (".nan", UNNEEDED),
    (".module", UNNEEDED),
    (".gnu_attribute", UNNEEDED),
    (".weak", UNNEEDED),
    (".hidden", UNNEEDED),
    (".local", UNNEEDED),
    (".loc", UNNEEDED),
    (".insn", UNNEEDED),
    (".cfi_startproc", UNNEEDED),
    (".cfi_endproc", UNNEEDED),
    (".cfi_def_cfa_offset", UNNEEDED),
    (".cfi_def_cfa", UNNEEDED),
    (".cfi_def_cfa_register", UNNEEDED),
    (".cfi_offset", UNNEEDED),
    (".cfi_restore", UNNEEDED),
    (".cfi_sections", UNNEEDED),
    (".cfi_remember_state", UNNEEDED),
    (".cfi_restore_state", UNNEEDED),
    (".linkonce", UNNEEDED),
    (".stabs", UNNEEDED),
    (".stabn", UNNEEDED),
    (".loc_mark_labels", UNNEEDED),
    (".aent", UNNEEDED),
    (".attribute", UNNEEDED),
    (".subsection", UNNEEDED),
    (".popsection", UNNEEDED),
    (".pushsection", UNNEEDED),
    (
        ".p2align",
        "write .space n with the n bytes that are missing to a multiple of 2, 4 or 8, for .p2align 1, 2 or 3; nothing if none is missing",
    ),
];

/// Operands that do not fit, with what is written instead: of a statement, of all with these operands, or of any; the
/// operand itself or its class.
const OPERANDS: [((&str, &str), &str); 52] = [
    (
        ("", "!"),
        "a mark comes at the end of the line, after the operands, with no comma between marks",
    ),
    (
        ("", "$hi"),
        "HI and LO are read with mfhi and mflo and written with mthi and mtlo",
    ),
    (
        ("", "$lo"),
        "HI and LO are read with mfhi and mflo and written with mthi and mtlo",
    ),
    (
        ("", "$32"),
        "HI and LO are read with mfhi and mflo and written with mthi and mtlo",
    ),
    (
        ("", "$33"),
        "HI and LO are read with mfhi and mflo and written with mthi and mtlo",
    ),
    (("addu", "0"), "with a number write addiu rt,rs,n"),
    (("subu", "0"), "with a number write addiu rt,rs,-n"),
    (("and", "0"), "with a number write andi rt,rs,n"),
    (("or", "0"), "with a number write ori rt,rs,n"),
    (("xor", "0"), "with a number write xori rt,rs,n"),
    (("slt", "0"), "with a number write slti rt,rs,n"),
    (("sltu", "0"), "with a number write sltiu rt,rs,n"),
    (("sllv", "0"), "with a number write sll rd,rt,n"),
    (("srlv", "0"), "with a number write srl rd,rt,n"),
    (("srav", "0"), "with a number write sra rd,rt,n"),
    (("addiu", "$"), "with a register write addu rd,rs,rt"),
    (("andi", "$"), "with a register write and rd,rs,rt"),
    (("ori", "$"), "with a register write or rd,rs,rt"),
    (("xori", "$"), "with a register write xor rd,rs,rt"),
    (("slti", "$"), "with a register write slt rd,rs,rt"),
    (("sltiu", "$"), "with a register write sltu rd,rs,rt"),
    (("sll", "$"), "with a register write sllv rd,rt,rs"),
    (("srl", "$"), "with a register write srlv rd,rt,rs"),
    (("sra", "$"), "with a register write srav rd,rt,rs"),
    (("move", "0"), "with a number write li rd,n"),
    (("move", "a"), "for the address of a label write la rd,NAME"),
    (("li", "$"), "with a register write move rd,rs"),
    (("li", "a"), "for the address of a label write la rd,NAME"),
    (
        ("la", "0"),
        "for a number alone write li, for a number and a register addiu, as in addiu $8,$9,4",
    ),
    (("la", "$"), "with a register write move rd,rs"),
    (("j", "$"), "to the address in a register write jr rs"),
    (("jal", "$"), "to the address in a register write jalr rs"),
    (("jr", "a"), "to a label write j T"),
    (("jalr", "a"), "to a label write jal T"),
    (
        ("beq", "0"),
        "write $0 for 0; another number goes into a register first, as in li $1,n",
    ),
    (
        ("bne", "0"),
        "write $0 for 0; another number goes into a register first, as in li $1,n",
    ),
    (("mult", ","), "write mult rs,rt and mflo rd"),
    (("multu", ","), "write multu rs,rt and mflo rd"),
    (
        (" $8,4($9)", "a"),
        "load the address with la into a register that is free, on a line before it, and write 0 and that register here, as in 0($9)",
    ),
    (
        (" $8,4($9)", "("),
        "write the offset before it, as in 0($9)",
    ),
    ((" $8,4($9)", "$"), "write an address as in 0($9)"),
    ((".word", "a"), NOT_AN_ADDRESS),
    (
        (".byte", "a"),
        "a byte is a number: an address is loaded with la",
    ),
    (
        (".word", ":"),
        "write each number, with commas between them",
    ),
    (
        (".byte", ":"),
        "write each number, with commas between them",
    ),
    ((".task", "none"), "write - for none"),
    ((".task", "creates"), "write create="),
    ((".task", "target"), "write targets="),
    (
        (".task", "targets"),
        "write create= before targets=, with - for no register, and no comma between them",
    ),
    ((".task", "0"), "write a register as in $8"),
    (
        (".task", "-"),
        "write each register, as in $8,$9; a name has letters, digits and _",
    ),
    ((".task", "="), "write the name of the task before create="),
];

/// What stands after this word in a table.
fn row_of(rows: &[(&'static str, &'static str)], word: &[u8]) -> Option<&'static str> {
    for (name, text) in rows {
        if name.as_bytes() == word {
            return Some(*text);
        }
    }
    None
}

/// What is written instead of a word, if it is known.
fn word_instead(word: &[u8]) -> Option<&'static str> {
    row_of(&WORDS, word)
}

/// What is written instead of a directive, a mark or what is no token, if it is known.
fn sign_instead(word: &[u8]) -> Option<&'static str> {
    row_of(&SIGNS, word)
}

/// What is written here instead of a word, a directive, a mark or bytes that are no token, of other assemblers, if that is
/// known.
pub fn instead(word: &[u8]) -> Option<&'static str> {
    match word_instead(word) {
        Some(text) => Some(text),
        None => sign_instead(word),
    }
}

/// The class of an operand: a number is one of 0, a name one of a, and any other of its first byte.
fn class_of(meant: &[u8]) -> &[u8] {
    match meant {
        [] => meant,
        [b'-', b'0'..=b'9', ..] | [b'0'..=b'9', ..] => b"0",
        [b'_' | b'a'..=b'z' | b'A'..=b'Z', ..] => b"a",
        _ => &meant[..1],
    }
}

/// What stands in a table after this operand or its class: of this statement, of all with these operands, or of any.
fn operand_row(
    rows: &[((&'static str, &'static str), &'static str)],
    word: &[u8],
    form: &str,
    meant: &[u8],
) -> Option<&'static str> {
    let class = class_of(meant);
    for ((first, second), text) in rows {
        let name = first.as_bytes();
        let is_of = first.is_empty() || name == word || name == form.as_bytes();
        if is_of && (second.as_bytes() == meant || second.as_bytes() == class) {
            return Some(*text);
        }
    }
    None
}

/// What is written here instead of the operand `meant`, which does not fit the statement `word` with operands of the form
/// `form`, if that is known.
pub fn operand_instead(word: &[u8], form: &str, meant: &[u8]) -> Option<&'static str> {
    operand_row(&OPERANDS, word, form, meant)
}
