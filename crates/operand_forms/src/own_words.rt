//! What is written instead of a line of another assembler, with the line's own registers, numbers and names.

use crate::bytes::{byte_at, bytes_at, whole_word};
use crate::foreign_words::NOT_AN_ADDRESS;
use crate::line_place::{after_labels, shape_named};
use crate::meant::span_at;
use crate::rows::Reading;
use crate::shape::form_text;
use crate::slices::after;
use crate::strings::string_words;
use diagnostics::quotation::as_shown;
use diagnostics::words;
use diagnostics::words::Words;
use program_tokens::span::TokenSpan;
use std::alloc::{AllocError, Global};

// The tables: lines by the statement, or by all with these operands, or by any, and by the signs after the word: a number is
// one of 0, a name one of a, and any other word one of its first byte. In a text A stands for the line's first word, B for
// what comes next, and so on, ! for the line's marks, and $1 for a register that is free. Of a number ^F is one more, ~F the
// number with the other sign, |F less 65536, and *B its product with the number two words on.

/// Of addresses.
const ADDRESSES: [((&str, &str), &str); 34] = [
    ((" $8,4($9)", "$,$"), "write A B,0(D)!"),
    ((" $8,4($9)", "$,($)"), "write A B,0(E)!"),
    ((" $8,4($9)", "$,0($"), "write A B,D(F)!"),
    ((" $8,4($9)", "$,-($"), "write A B,D(F)!"),
    ((" $8,4($9)", "$,[$]"), "write A B,0(E)!"),
    ((" $8,4($9)", "$,0[$]"), "write A B,D(F)!"),
    ((" $8,4($9)", "$,-[$]"), "write A B,D(F)!"),
    ((" $8,4($9)", "$,+0($)"), "write A B,E(G)!"),
    (
        (" $8,4($9)", "$,0+0($)"),
        "write the sum of D and F as one number",
    ),
    ((" $8,4($9)", "$,$($)"), "write addu $1,D,F and A B,0($1)!"),
    ((" $8,4($9)", "$,a"), "write la $1,D and A B,0($1)!"),
    ((" $8,4($9)", "$,(a)"), "write la $1,E and A B,0($1)!"),
    ((" $8,4($9)", "$,a+0"), "write la $1,D and A B,F($1)!"),
    ((" $8,4($9)", "$,a-"), "write la $1,D and A B,E($1)!"),
    (
        (" $8,4($9)", "$,a($)"),
        "write la $1,D and addu $1,$1,F and A B,0($1)!",
    ),
    (
        (" $8,4($9)", "$,a[$]"),
        "write la $1,D and addu $1,$1,F and A B,0($1)!",
    ),
    (
        (" $8,4($9)", "$,a+0($)"),
        "write la $1,D and addu $1,$1,H and A B,F($1)!",
    ),
    (
        (" $8,4($9)", "$,a-($)"),
        "write la $1,D and addu $1,$1,G and A B,E($1)!",
    ),
    (
        (" $8,4($9)", "$,%a(a)($)"),
        "write A B,0(J)!, after la J,G in place of the lui",
    ),
    (
        ("lui", "$,%a(a)"),
        "write la B,G!, which loads the whole address",
    ),
    (
        ("addiu", "$,$,%a(a)"),
        "write move B,D!, after la D,I in place of the lui",
    ),
    (
        ("ori", "$,$,%a(a)"),
        "write move B,D!, after la D,I in place of the lui",
    ),
    (("la", "$,$"), "write move B,D!"),
    (("la", "$,($)"), "write move B,E!"),
    (("la", "$,0"), "write li B,D!"),
    (("la", "$,-"), "write li B,D!"),
    (("la", "$,0($)"), "write addiu B,F,D!"),
    (("la", "$,-($)"), "write addiu B,F,D!"),
    (("la", "$,a+0"), "write la B,D and addiu B,B,F!"),
    (("la", "$,a-"), "write la B,D and addiu B,B,E!"),
    (("la", "$,a($)"), "write la $1,D and addu B,$1,F!"),
    (("la", "$,a[$]"), "write la $1,D and addu B,$1,F!"),
    (
        ("la", "$,a+0($)"),
        "write la $1,D and addu B,$1,H and addiu B,B,F!",
    ),
    (
        ("la", "$,a-($)"),
        "write la $1,D and addu B,$1,G and addiu B,B,E!",
    ),
];

/// Of places and numbers.
const PLACES_AND_NUMBERS: [((&str, &str), &str); 33] = [
    (
        (" LABEL", "a+0"),
        "a place is one label: give the instruction that is meant a label of its own",
    ),
    (
        (" LABEL", "a-"),
        "a place is one label: give the instruction that is meant a label of its own",
    ),
    (
        (" $8,LABEL", "$,a+0"),
        "a place is one label: give the instruction that is meant a label of its own",
    ),
    (
        (" $8,LABEL", "$,a-"),
        "a place is one label: give the instruction that is meant a label of its own",
    ),
    (
        (" $8,$9,LABEL", "$,$,a+0"),
        "a place is one label: give the instruction that is meant a label of its own",
    ),
    (
        (" $8,$9,LABEL", "$,$,a-"),
        "a place is one label: give the instruction that is meant a label of its own",
    ),
    (
        (" LABEL", "0"),
        "write the label of the instruction in place of B",
    ),
    (
        (" $8,LABEL", "$,0"),
        "write the label of the instruction in place of D",
    ),
    (
        (" $8,$9,LABEL", "$,$,0"),
        "write the label of the instruction in place of F",
    ),
    (
        (" $8,$9,LABEL", "$,0,a"),
        "for 0 write A B,$0,F!; for another number write li $1,D and A B,$1,F!",
    ),
    ((" $8,$9,LABEL", "$,-,a"), "write li $1,D and A B,$1,F!"),
    ((".word", "a+0"), NOT_AN_ADDRESS),
    ((".word", ".a"), NOT_AN_ADDRESS),
    (("", "+0"), "write A C"),
    (("", "$,+0"), "write A B,E!"),
    (("", "$,$,+0"), "write A B,D,G!"),
    (
        ("", "0.0"),
        "there is no floating point: write a whole number",
    ),
    (
        ("", "-.0"),
        "there is no floating point: write a whole number",
    ),
    (
        ("", "$,0.0"),
        "there is no floating point: write a whole number",
    ),
    (
        ("", "$,-.0"),
        "there is no floating point: write a whole number",
    ),
    (("", ".$,$"), "there is no floating point"),
    (("", ".$,$,$"), "there is no floating point"),
    (("", ".$,0($)"), "there is no floating point"),
    (("", "-a:"), "a name has no -: write A_C"),
    ((".", "a:"), "a label begins with a letter or _: write B:"),
    (
        (" LABEL", ".a"),
        "a label begins with a letter or _: write C",
    ),
    (("", "$,.a"), "a label begins with a letter or _: write E"),
    (("", "$,$,.a"), "a label begins with a letter or _: write G"),
    (("", "a-a"), "a name has no -: write B_D"),
    (("", "$,a-a"), "a name has no -: write D_F"),
    (("", "$,$,a-a"), "a name has no -: write F_H"),
    ((".space", "0*0"), "write A *B"),
    ((".space", "0*0*0"), "write the product as one number"),
];

/// Of numbers that are out of a range: 6 stands for one of 32768 to 65535, 9 for one above, < for one below -32768.
const WIDE: [((&str, &str), &str); 15] = [
    (
        ("addiu", "$,$,6"),
        "write addiu B,D,|F!; for F itself li $1,F and addu B,D,$1!",
    ),
    (("addiu", "$,$,9"), "write li $1,F and addu B,D,$1!"),
    (("addiu", "$,$,<"), "write li $1,F and addu B,D,$1!"),
    (("slti", "$,$,6"), "write li $1,F and slt B,D,$1!"),
    (("slti", "$,$,9"), "write li $1,F and slt B,D,$1!"),
    (("slti", "$,$,<"), "write li $1,F and slt B,D,$1!"),
    (("sltiu", "$,$,6"), "write li $1,F and sltu B,D,$1!"),
    (("sltiu", "$,$,9"), "write li $1,F and sltu B,D,$1!"),
    (("sltiu", "$,$,<"), "write li $1,F and sltu B,D,$1!"),
    (("andi", "$,$,9"), "write li $1,F and and B,D,$1!"),
    (("ori", "$,$,9"), "write li $1,F and or B,D,$1!"),
    (("xori", "$,$,9"), "write li $1,F and xor B,D,$1!"),
    (
        (" $8,4($9)", "$,6($)"),
        "write A B,|D(F)!; for D itself li $1,D and addu $1,$1,F and A B,0($1)!",
    ),
    (
        (" $8,4($9)", "$,9($)"),
        "write li $1,D and addu $1,$1,F and A B,0($1)!",
    ),
    (
        (" $8,4($9)", "$,<($)"),
        "write li $1,D and addu $1,$1,F and A B,0($1)!",
    ),
];

/// Of operands of another kind.
const KINDS: [((&str, &str), &str); 62] = [
    (("addu", "$,$,0"), "write addiu B,D,F!"),
    (("addu", "$,$,-"), "write addiu B,D,F!"),
    (("subu", "$,$,0"), "write addiu B,D,-F!"),
    (("subu", "$,$,-"), "write addiu B,D,~F!"),
    (("addiu", "$,$,$"), "write addu B,D,F!"),
    (("andi", "$,$,$"), "write and B,D,F!"),
    (("ori", "$,$,$"), "write or B,D,F!"),
    (("xori", "$,$,$"), "write xor B,D,F!"),
    (("andi", "$,$,-"), "write li $1,F and and B,D,$1!"),
    (("ori", "$,$,-"), "write li $1,F and or B,D,$1!"),
    (("xori", "$,$,-"), "write li $1,F and xor B,D,$1!"),
    (("slti", "$,$,$"), "write slt B,D,F!"),
    (("sltiu", "$,$,$"), "write sltu B,D,F!"),
    (("sll", "$,$,$"), "write sllv B,D,F!"),
    (("srl", "$,$,$"), "write srlv B,D,F!"),
    (("sra", "$,$,$"), "write srav B,D,F!"),
    (("and", "$,$,0"), "write andi B,D,F!"),
    (("or", "$,$,0"), "write ori B,D,F!"),
    (("xor", "$,$,0"), "write xori B,D,F!"),
    (("slt", "$,$,0"), "write slti B,D,F!"),
    (("sltu", "$,$,0"), "write sltiu B,D,F!"),
    (("sllv", "$,$,0"), "write sll B,D,F!"),
    (("srlv", "$,$,0"), "write srl B,D,F!"),
    (("srav", "$,$,0"), "write sra B,D,F!"),
    (("slt", "$,$,-"), "write slti B,D,F!"),
    (("move", "$,0"), "write li B,D!"),
    (("move", "$,-"), "write li B,D!"),
    (("move", "$,a"), "write la B,D!"),
    (("li", "$,$"), "write move B,D!"),
    (("li", "$,a"), "write la B,D!"),
    (("j", "$"), "write jr B!"),
    (("jal", "$"), "write jalr B!"),
    (("jr", "a"), "write j B!"),
    (("jalr", "a"), "write jal B!"),
    (("mult", "$,$,$"), "write mult D,F and mflo B!"),
    (("multu", "$,$,$"), "write multu D,F and mflo B!"),
    (("addu", "$,$"), "write addu B,B,D!"),
    (("subu", "$,$"), "write subu B,B,D!"),
    (("and", "$,$"), "write and B,B,D!"),
    (("or", "$,$"), "write or B,B,D!"),
    (("xor", "$,$"), "write xor B,B,D!"),
    (("nor", "$,$"), "write nor B,B,D!"),
    (("slt", "$,$"), "write slt B,B,D!"),
    (("sltu", "$,$"), "write sltu B,B,D!"),
    (("addiu", "$,0"), "write addiu B,B,D!"),
    (("addiu", "$,-"), "write addiu B,B,D!"),
    (("slti", "$,0"), "write slti B,B,D!"),
    (("slti", "$,-"), "write slti B,B,D!"),
    (("sltiu", "$,0"), "write sltiu B,B,D!"),
    (("sltiu", "$,-"), "write sltiu B,B,D!"),
    (("andi", "$,0"), "write andi B,B,D!"),
    (("ori", "$,0"), "write ori B,B,D!"),
    (("xori", "$,0"), "write xori B,B,D!"),
    (("sll", "$,0"), "write sll B,B,D!"),
    (("srl", "$,0"), "write srl B,B,D!"),
    (("sra", "$,0"), "write sra B,B,D!"),
    (("addu", "$,0"), "write addiu B,B,D!"),
    (("addu", "$,-"), "write addiu B,B,D!"),
    (("subu", "$,0"), "write addiu B,B,-D!"),
    (("subu", "$,-"), "write addiu B,B,~D!"),
    (("jal", "$,a"), "write jal D!"),
    (("jalr", "$,a"), "write jal D!"),
];

/// Of words of other assemblers.
const OF_OTHERS: [((&str, &str), &str); 57] = [
    (("sub", "$,$,-"), "write addiu B,D,~F!"),
    (("subi", "$,$,-"), "write addiu B,D,~F!"),
    (("subiu", "$,$,-"), "write addiu B,D,~F!"),
    (("add", "$,$,$"), "write addu B,D,F!"),
    (("add", "$,$,0"), "write addiu B,D,F!"),
    (("add", "$,$,-"), "write addiu B,D,F!"),
    (("sub", "$,$,$"), "write subu B,D,F!"),
    (("sub", "$,$,0"), "write addiu B,D,-F!"),
    (("addi", "$,$,0"), "write addiu B,D,F!"),
    (("addi", "$,$,-"), "write addiu B,D,F!"),
    (("addi", "$,$,$"), "write addu B,D,F!"),
    (("subi", "$,$,0"), "write addiu B,D,-F!"),
    (("subiu", "$,$,0"), "write addiu B,D,-F!"),
    (("subi", "$,$,$"), "write subu B,D,F!"),
    (("subiu", "$,$,$"), "write subu B,D,F!"),
    (("mul", "$,$,$"), "write mult D,F and mflo B!"),
    (("mulo", "$,$,$"), "write mult D,F and mflo B!"),
    (("mulu", "$,$,$"), "write multu D,F and mflo B!"),
    (("mulou", "$,$,$"), "write multu D,F and mflo B!"),
    (("sgt", "$,$,$"), "write slt B,F,D!"),
    (("seq", "$,$,$"), "write xor B,D,F and sltiu B,B,1!"),
    (("sne", "$,$,$"), "write xor B,D,F and sltu B,$0,B!"),
    (("mv", "$,$"), "write move B,D!"),
    (("mov", "$,$"), "write move B,D!"),
    (("mov", "$,0"), "write li B,D!"),
    (("mov", "$,-"), "write li B,D!"),
    (("neg", "$,$"), "write subu B,$0,D!"),
    (("not", "$,$"), "write nor B,D,$0!"),
    (("b", "a"), "write j B!"),
    (("br", "a"), "write j B!"),
    (("jmp", "a"), "write j B!"),
    (("goto", "a"), "write j B!"),
    (("bl", "a"), "write jal B!"),
    (("bal", "a"), "write jal B!"),
    (("call", "a"), "write jal B!"),
    (("beqz", "$,a"), "write beq B,$0,D!"),
    (("bnez", "$,a"), "write bne B,$0,D!"),
    (("blt", "$,$,a"), "write slt $1,B,D and bne $1,$0,F!"),
    (("blt", "$,0,a"), "write slti $1,B,D and bne $1,$0,F!"),
    (("bge", "$,$,a"), "write slt $1,B,D and beq $1,$0,F!"),
    (("bge", "$,0,a"), "write slti $1,B,D and beq $1,$0,F!"),
    (("bgt", "$,$,a"), "write slt $1,D,B and bne $1,$0,F!"),
    (("ble", "$,$,a"), "write slt $1,D,B and beq $1,$0,F!"),
    (("sgt", "$,$,0"), "write slti B,D,^F and xori B,B,1!"),
    (("sge", "$,$,0"), "write slti B,D,F and xori B,B,1!"),
    (("sle", "$,$,0"), "write slti B,D,^F!"),
    (("bgt", "$,0,a"), "write slti $1,B,^D and beq $1,$0,F!"),
    (("ble", "$,0,a"), "write slti $1,B,^D and bne $1,$0,F!"),
    (("sgt", "$,$,-"), "write slti B,D,^F and xori B,B,1!"),
    (("sge", "$,$,-"), "write slti B,D,F and xori B,B,1!"),
    (("sle", "$,$,-"), "write slti B,D,^F!"),
    (("blt", "$,-,a"), "write slti $1,B,D and bne $1,$0,F!"),
    (("bge", "$,-,a"), "write slti $1,B,D and beq $1,$0,F!"),
    (("bgt", "$,-,a"), "write slti $1,B,^D and beq $1,$0,F!"),
    (("ble", "$,-,a"), "write slti $1,B,^D and bne $1,$0,F!"),
    (("sge", "$,$,$"), "write slt B,D,F and xori B,B,1!"),
    (("sle", "$,$,$"), "write slt B,F,D and xori B,B,1!"),
];

// Further ones: comparisons of unsigned values, negations and products.
const FURTHER_OF_OTHERS: [((&str, &str), &str); 46] = [
    (("sgtu", "$,$,$"), "write sltu B,F,D!"),
    (("sgtu", "$,$,0"), "write sltiu B,D,^F and xori B,B,1!"),
    (("sgeu", "$,$,0"), "write sltiu B,D,F and xori B,B,1!"),
    (("sleu", "$,$,0"), "write sltiu B,D,^F!"),
    (("bltu", "$,0,a"), "write sltiu $1,B,D and bne $1,$0,F!"),
    (("bgeu", "$,0,a"), "write sltiu $1,B,D and beq $1,$0,F!"),
    (("bgtu", "$,0,a"), "write sltiu $1,B,^D and beq $1,$0,F!"),
    (("bleu", "$,0,a"), "write sltiu $1,B,^D and bne $1,$0,F!"),
    (("sgtu", "$,$,-"), "write sltiu B,D,^F and xori B,B,1!"),
    (("sgeu", "$,$,-"), "write sltiu B,D,F and xori B,B,1!"),
    (("sleu", "$,$,-"), "write sltiu B,D,^F!"),
    (("bltu", "$,-,a"), "write sltiu $1,B,D and bne $1,$0,F!"),
    (("bgeu", "$,-,a"), "write sltiu $1,B,D and beq $1,$0,F!"),
    (("bgtu", "$,-,a"), "write sltiu $1,B,^D and beq $1,$0,F!"),
    (("bleu", "$,-,a"), "write sltiu $1,B,^D and bne $1,$0,F!"),
    (("sgeu", "$,$,$"), "write sltu B,D,F and xori B,B,1!"),
    (("sleu", "$,$,$"), "write sltu B,F,D and xori B,B,1!"),
    (("bltu", "$,$,a"), "write sltu $1,B,D and bne $1,$0,F!"),
    (("bgeu", "$,$,a"), "write sltu $1,B,D and beq $1,$0,F!"),
    (("bgtu", "$,$,a"), "write sltu $1,D,B and bne $1,$0,F!"),
    (("bleu", "$,$,a"), "write sltu $1,D,B and beq $1,$0,F!"),
    (("seq", "$,$,0"), "write xori B,D,F and sltiu B,B,1!"),
    (("seq", "$,$,-"), "write addiu B,D,~F and sltiu B,B,1!"),
    (("sne", "$,$,0"), "write xori B,D,F and sltu B,$0,B!"),
    (("sne", "$,$,-"), "write addiu B,D,~F and sltu B,$0,B!"),
    (("negu", "$,$"), "write subu B,$0,D!"),
    (("neg", "$"), "write subu B,$0,B!"),
    (("negu", "$"), "write subu B,$0,B!"),
    (("not", "$"), "write nor B,B,$0!"),
    (("inc", "$"), "write addiu B,B,1!"),
    (("dec", "$"), "write addiu B,B,-1!"),
    (
        ("abs", "$,$"),
        "write sra $1,D,31 and xor B,D,$1 and subu B,B,$1!",
    ),
    (("nand", "$,$,$"), "write and B,D,F and nor B,B,$0!"),
    (("xnor", "$,$,$"), "write xor B,D,F and nor B,B,$0!"),
    (("mul", "$,$,0"), "write li $1,F and mult D,$1 and mflo B!"),
    (("mul", "$,$,-"), "write li $1,F and mult D,$1 and mflo B!"),
    (("mul", "$,$"), "write mult B,D and mflo B!"),
    (("mulo", "$,$,0"), "write li $1,F and mult D,$1 and mflo B!"),
    (("mulo", "$,$,-"), "write li $1,F and mult D,$1 and mflo B!"),
    (("mulo", "$,$"), "write mult B,D and mflo B!"),
    (
        ("mulu", "$,$,0"),
        "write li $1,F and multu D,$1 and mflo B!",
    ),
    (
        ("mulu", "$,$,-"),
        "write li $1,F and multu D,$1 and mflo B!",
    ),
    (("mulu", "$,$"), "write multu B,D and mflo B!"),
    (
        ("mulou", "$,$,0"),
        "write li $1,F and multu D,$1 and mflo B!",
    ),
    (
        ("mulou", "$,$,-"),
        "write li $1,F and multu D,$1 and mflo B!",
    ),
    (("mulou", "$,$"), "write multu B,D and mflo B!"),
];

/// The value of a digit.
fn digit_of(byte: u8, is_hexadecimal: bool) -> Option<u32> {
    if is_hexadecimal {
        char::from(byte).to_digit(16)
    } else {
        char::from(byte).to_digit(10)
    }
}

/// The number that digits spell, if it has 32 bits at most.
fn magnitude_of(digits: &[u8], is_hexadecimal: bool) -> Option<u32> {
    let base = if is_hexadecimal { 16 } else { 10 };
    let mut value: u32 = 0;
    for byte in digits {
        let digit = digit_of(*byte, is_hexadecimal)?;
        value = value.checked_mul(base)?.checked_add(digit)?;
    }
    Some(value)
}

/// The number that a word spells, if it has 32 bits and a sign at most.
fn number_of(word: &[u8]) -> Option<i64> {
    let value = match word {
        [b'-', b'0', b'x', digits @ ..] | [b'0', b'x', digits @ ..] => magnitude_of(digits, true)?,
        [b'-', digits @ ..] => magnitude_of(digits, false)?,
        _ => magnitude_of(word, false)?,
    };
    let value = i64::from(value);
    Some(match word {
        [b'-', ..] => -value,
        _ => value,
    })
}

/// The sign of a number: of some that are out of a range one of their own, where that is asked for.
fn number_sign(word: &[u8], first: u8, is_wide: bool) -> u8 {
    match number_of(word) {
        Some(number) if is_wide && number > 65_535 => b'9',
        Some(number) if is_wide && number > 32_767 => b'6',
        Some(number) if is_wide && number < -32_768 => b'<',
        _ if first == b'-' => b'-',
        _ => b'0',
    }
}

/// The signs of some words of a line, up to a mark, or to the first colon.
fn signs(
    alloc: Global,
    line: &[u8],
    places: &[TokenSpan],
    is_wide: bool,
) -> Result<Vec<u8>, AllocError> {
    let mut list = Vec::new(alloc);
    for place in places {
        let first = byte_at(line, *place);
        let sign = match first {
            b'!' => return Ok(list),
            b'0'..=b'9' | b'-' => number_sign(bytes_at(line, *place), first, is_wide),
            b'_' | b'a'..=b'z' | b'A'..=b'Z' => b'a',
            _ => first,
        };
        list.push(sign)?;
        if first == b':' {
            return Ok(list);
        }
    }
    Ok(list)
}

/// Adds the marks of a line, each after a blank.
fn add_marks(bytes: &mut Vec<u8>, line: &[u8], places: &[TokenSpan]) -> Result<(), AllocError> {
    for place in places {
        if byte_at(line, *place) == b'!' {
            bytes.push(b' ')?;
            bytes.extend_from_slice(bytes_at(line, whole_word(line, *place)))?;
        }
    }
    Ok(())
}

/// A number that is reckoned from one of a line, by the sign before its letter; `None` where none comes out that an
/// instruction may have.
fn reckoned(line: &[u8], places: &[TokenSpan], sign: u8, at: usize) -> Option<i64> {
    let number = number_of(bytes_at(line, span_at(places, at)))?;
    match sign {
        b'^' if number < 32_767 => number.checked_add(1),
        b'~' => 0i64.checked_sub(number),
        b'|' => number.checked_sub(65_536),
        b'*' => {
            let other = number_of(bytes_at(line, span_at(places, at.saturating_add(2))))?;
            number.checked_mul(other)
        }
        _ => None,
    }
}

/// A text in the words of a line; `None` where a number does not come out.
fn in_its_words(
    alloc: Global,
    line: &[u8],
    places: &[TokenSpan],
    text: &[u8],
) -> Result<Option<Words>, AllocError> {
    let mut bytes = Vec::new(alloc);
    let mut sign = b' ';
    for letter in text {
        match *letter {
            b'!' => add_marks(&mut bytes, line, places)?,
            b'^' | b'~' | b'|' | b'*' => {}
            b'A'..=b'Z' => {
                let at = usize::from(letter.saturating_sub(b'A'));
                if matches!(sign, b'^' | b'~' | b'|' | b'*') {
                    let Some(number) = reckoned(line, places, sign, at) else {
                        return Ok(None);
                    };
                    let number = words!(in alloc; "{number}")?;
                    bytes.extend_from_slice(number.as_str().as_bytes())?;
                } else {
                    bytes.extend_from_slice(bytes_at(line, span_at(places, at)))?;
                }
            }
            other => bytes.push(other)?,
        }
        sign = *letter;
    }
    Ok(Some(as_shown(alloc, &bytes)?))
}

/// Whether a line has the register that texts write for one that is free.
fn has_register_one(line: &[u8], places: &[TokenSpan]) -> bool {
    places.iter().any(|place| {
        let word = bytes_at(line, *place);
        word == "$1".as_bytes() || word == "$at".as_bytes()
    })
}

/// Whether a line with this word and these signs is a constant: a name, `=` and a number.
fn is_constant(word: &[u8], signs: &[u8]) -> bool {
    let is_name = matches!(word, [b'_' | b'a'..=b'z' | b'A'..=b'Z', ..]);
    is_name && (signs == "=0".as_bytes() || signs == "=-".as_bytes())
}

/// What stands in a table of this statement, of all with these operands, or of any, and of these signs.
fn row_of_signs(
    rows: &[((&'static str, &'static str), &'static str)],
    word: &[u8],
    form: &str,
    signs: &[u8],
) -> Option<&'static str> {
    for ((first, second), text) in rows {
        let name = first.as_bytes();
        let is_of = first.is_empty() || name == word || name == form.as_bytes();
        if is_of && second.as_bytes() == signs {
            return Some(*text);
        }
    }
    None
}

/// What is written instead of a line by its address.
fn address_row(word: &[u8], form: &str, signs: &[u8]) -> Option<&'static str> {
    row_of_signs(&ADDRESSES, word, form, signs)
}

/// What is written instead of a line by its places and numbers.
fn number_row(word: &[u8], form: &str, signs: &[u8]) -> Option<&'static str> {
    row_of_signs(&PLACES_AND_NUMBERS, word, form, signs)
}

/// What is written instead of a line by operands of another kind.
fn kind_row(word: &[u8], form: &str, signs: &[u8]) -> Option<&'static str> {
    row_of_signs(&KINDS, word, form, signs)
}

/// What is written instead of a line with a word of another assembler.
fn foreign_row(word: &[u8], form: &str, signs: &[u8]) -> Option<&'static str> {
    row_of_signs(&OF_OTHERS, word, form, signs)
}

/// What is written instead of a line with a further word of another assembler.
fn further_row(word: &[u8], form: &str, signs: &[u8]) -> Option<&'static str> {
    row_of_signs(&FURTHER_OF_OTHERS, word, form, signs)
}

/// What is written instead of a line with this word and these signs, if it is known.
fn line_instead(word: &[u8], form: &str, signs: &[u8]) -> Option<&'static str> {
    if is_constant(word, signs) {
        return Some("there are no constants: write C where A is used");
    }
    if let Some(text) = address_row(word, form, signs) {
        return Some(text);
    }
    if let Some(text) = number_row(word, form, signs) {
        return Some(text);
    }
    if let Some(text) = kind_row(word, form, signs) {
        return Some(text);
    }
    match foreign_row(word, form, signs) {
        Some(text) => Some(text),
        None => further_row(word, form, signs),
    }
}

/// Whether a text names the register that is free.
fn takes_register_one(text: &str) -> bool {
    text.as_bytes()
        .windows(2)
        .any(|two| matches!(two, [b'$', b'1']))
}

/// What is written instead of a line of another assembler, with the line's own registers, numbers and names; `None` where
/// that is not known.
///
/// # Errors
///
/// `AllocError` where memory was refused.
pub fn own_words(
    alloc: Global,
    line: &[u8],
    reading: &Reading,
) -> Result<Option<Words>, AllocError> {
    let places = after_labels(line, reading.places.as_slice());
    let word = bytes_at(line, span_at(places, 0));
    if let Some(words) = string_words(alloc, word, line)? {
        return Ok(Some(words));
    }
    let rest = after(places, 1);
    let form = form_text(shape_named(word));
    let wide = row_of_signs(&WIDE, word, form, &signs(alloc, line, rest, true)?);
    let text = match wide {
        Some(text) => Some(text),
        None => line_instead(word, form, &signs(alloc, line, rest, false)?),
    };
    match text {
        Some(text) if takes_register_one(text) && has_register_one(line, places) => Ok(None),
        Some(text) => in_its_words(alloc, line, places, text.as_bytes()),
        None => Ok(None),
    }
}
