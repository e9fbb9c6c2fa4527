//! What each instruction of a text means: a function for each row of the instruction table. Each takes the
//! operands after the mnemonic and checks their number, their kinds and the ranges of their numbers.

ghost use Rattle.std.specs.Prelude.{◌≡◌, ◌<◌};
ghost use Rattle.program_statements.specs.Rows.{no_operand, one_operand, two_operands, three_operands, as_register, as_number, as_offset, as_label, as_target, three, shift_by, shift_var, imm, logic, lui, mult, move_from, move_to, load, store, branch_two, branch_one, jump, jump_link, jump_reg, out, jump_link_reg, halt, nop, copy, immediate, load_immediate, load_address, row_of, with_operands};

use crate::fault::StatementFault;
use crate::operand::{Operand, Operands, operands_of};
use crate::range::{natural_of, signed_half_of, word_of};
use crate::statement::{Instruction, Target};
use mips_instructions::instruction::{
    BranchOneKind, BranchTwoKind, ImmKind, LoadKind, LogicKind, Mnemonic, MoveFromKind, MoveToKind,
    MultKind, Op, ShiftByKind, ShiftVarKind, StoreKind, ThreeKind,
};
use mips_instructions::number::{Amount, Gpr, Place};
use program_tokens::token::{Number, Token};
use task_descriptor::name::Name;

fn no_operand(operands: Operands) -> Result<(), StatementFault>
    ensures { result ≡ no_operand operands }
{
    match operands {
        Operands::Zero => Ok(()),
        _ => Err(StatementFault::Operand),
    }
}

fn one_operand(operands: Operands) -> Result<Operand, StatementFault>
    ensures { result ≡ one_operand operands }
{
    match operands {
        Operands::One(a) => Ok(a),
        _ => Err(StatementFault::Operand),
    }
}

fn two_operands(operands: Operands) -> Result<(Operand, Operand), StatementFault>
    ensures { result ≡ two_operands operands }
{
    match operands {
        Operands::Two(a, b) => Ok((a, b)),
        _ => Err(StatementFault::Operand),
    }
}

fn three_operands(operands: Operands) -> Result<(Operand, Operand, Operand), StatementFault>
    ensures { result ≡ three_operands operands }
{
    match operands {
        Operands::Three(a, b, c) => Ok((a, b, c)),
        _ => Err(StatementFault::Operand),
    }
}

fn as_register(operand: Operand) -> Result<Gpr, StatementFault>
    ensures { result ≡ as_register operand }
{
    match operand {
        Operand::Register(register) => Ok(register),
        _ => Err(StatementFault::Operand),
    }
}

fn as_number(operand: Operand) -> Result<Number, StatementFault>
    ensures { result ≡ as_number operand }
{
    match operand {
        Operand::Number(number) => Ok(number),
        _ => Err(StatementFault::Operand),
    }
}

fn as_offset(operand: Operand) -> Result<(Number, Gpr), StatementFault>
    ensures { result ≡ as_offset operand }
{
    match operand {
        Operand::Offset(number, base) => Ok((number, base)),
        _ => Err(StatementFault::Operand),
    }
}

fn as_label(operand: Operand) -> Result<Name, StatementFault>
    ensures { result ≡ as_label operand }
{
    match operand {
        Operand::Label(name) => Ok(name),
        _ => Err(StatementFault::Operand),
    }
}

/// The place in the code that an operand names: a label, or a code index 0..=4096.
///
/// # Errors
///
/// `Operand` where it is neither; `Number` where the index is above 4096.
pub fn as_target(operand: Operand) -> Result<Target, StatementFault>
    ensures { result ≡ as_target operand }
{
    match operand {
        Operand::Label(name) => Ok(Target::Label(name)),
        Operand::Index(number) => {
            let index = natural_of(4096, number)?;
            Place::new(index)
                .map(Target::Index)
                .ok_or(StatementFault::Number)
        }
        _ => Err(StatementFault::Operand),
    }
}

/// The general register of this number, which is below 32.
fn numbered(index: u8) -> Gpr
    requires { index < 32 }
    ensures { result ≡ index }
{
    match Gpr::new(index) {
        Some(register) => register,
        None => unreachable!(),
    }
}

/// `addu rd,rs,rt`, and the other mnemonics of its row.
///
/// # Errors
///
/// `Operand` where these are not the operands.
#[tactic(auto, unfolding(crate::specs::Rows::three))]
pub fn three(kind: ThreeKind, operands: Operands) -> Result<Instruction, StatementFault>
    ensures { result ≡ three kind operands }
{
    let (rd, rs, rt) = three_operands(operands)?;
    let op = Op::Three(kind, as_register(rd)?, as_register(rs)?, as_register(rt)?);
    Ok(Instruction::One(op))
}

/// `sll rd,rt,n`, and the other mnemonics of its row.
///
/// # Errors
///
/// `Operand` where these are not the operands; `Number` where n is not 0 to 31.
#[tactic(auto, unfolding(crate::specs::Rows::shift_by))]
pub fn shift_by(kind: ShiftByKind, operands: Operands) -> Result<Instruction, StatementFault>
    ensures { result ≡ shift_by kind operands }
{
    let (rd, rt, number) = three_operands(operands)?;
    let rd = as_register(rd)?;
    let rt = as_register(rt)?;
    let bits = natural_of(31, as_number(number)?)?;
    let amount = Amount::new(bits as u8).ok_or(StatementFault::Number)?;
    Ok(Instruction::One(Op::ShiftBy(kind, rd, rt, amount)))
}

/// `sllv rd,rt,rs`, and the other mnemonics of its row.
///
/// # Errors
///
/// `Operand` where these are not the operands.
#[tactic(auto, unfolding(crate::specs::Rows::shift_var))]
pub fn shift_var(kind: ShiftVarKind, operands: Operands) -> Result<Instruction, StatementFault>
    ensures { result ≡ shift_var kind operands }
{
    let (rd, rt, rs) = three_operands(operands)?;
    let op = Op::ShiftVar(kind, as_register(rd)?, as_register(rt)?, as_register(rs)?);
    Ok(Instruction::One(op))
}

/// `addiu rt,rs,n`, and the other mnemonics of its row.
///
/// # Errors
///
/// `Operand` where these are not the operands; `Number` where n is not -32768 to 32767.
#[tactic(auto, unfolding(crate::specs::Rows::imm))]
pub fn imm(kind: ImmKind, operands: Operands) -> Result<Instruction, StatementFault>
    ensures { result ≡ imm kind operands }
{
    let (rt, rs, number) = three_operands(operands)?;
    let rt = as_register(rt)?;
    let rs = as_register(rs)?;
    let n = signed_half_of(as_number(number)?)?;
    Ok(Instruction::One(Op::Imm(kind, rt, rs, n)))
}

/// `andi rt,rs,n`, and the other mnemonics of its row.
///
/// # Errors
///
/// `Operand` where these are not the operands; `Number` where n is not 0 to 65535.
#[tactic(auto, unfolding(crate::specs::Rows::logic))]
pub fn logic(kind: LogicKind, operands: Operands) -> Result<Instruction, StatementFault>
    ensures { result ≡ logic kind operands }
{
    let (rt, rs, number) = three_operands(operands)?;
    let rt = as_register(rt)?;
    let rs = as_register(rs)?;
    let n = natural_of(65_535, as_number(number)?)?;
    Ok(Instruction::One(Op::Logic(kind, rt, rs, n as u16)))
}

/// `lui rt,n`.
///
/// # Errors
///
/// `Operand` where these are not the operands; `Number` where n is not 0 to 65535.
#[tactic(auto, unfolding(crate::specs::Rows::lui))]
pub fn lui(operands: Operands) -> Result<Instruction, StatementFault>
    ensures { result ≡ lui operands }
{
    let (rt, number) = two_operands(operands)?;
    let rt = as_register(rt)?;
    let n = natural_of(65_535, as_number(number)?)?;
    Ok(Instruction::One(Op::Lui(rt, n as u16)))
}

/// `mult rs,rt`, and the other mnemonics of its row.
///
/// # Errors
///
/// `Operand` where these are not the operands.
#[tactic(auto, unfolding(crate::specs::Rows::mult))]
pub fn mult(kind: MultKind, operands: Operands) -> Result<Instruction, StatementFault>
    ensures { result ≡ mult kind operands }
{
    let (rs, rt) = two_operands(operands)?;
    Ok(Instruction::One(Op::Mult(kind, as_register(rs)?, as_register(rt)?)))
}

/// `mfhi rd`, and the other mnemonics of its row.
///
/// # Errors
///
/// `Operand` where these are not the operands.
#[tactic(auto, unfolding(crate::specs::Rows::move_from))]
pub fn move_from(kind: MoveFromKind, operands: Operands) -> Result<Instruction, StatementFault>
    ensures { result ≡ move_from kind operands }
{
    let rd = as_register(one_operand(operands)?)?;
    Ok(Instruction::One(Op::MoveFrom(kind, rd)))
}

/// `mthi rs`, and the other mnemonics of its row.
///
/// # Errors
///
/// `Operand` where these are not the operands.
#[tactic(auto, unfolding(crate::specs::Rows::move_to))]
pub fn move_to(kind: MoveToKind, operands: Operands) -> Result<Instruction, StatementFault>
    ensures { result ≡ move_to kind operands }
{
    let rs = as_register(one_operand(operands)?)?;
    Ok(Instruction::One(Op::MoveTo(kind, rs)))
}

/// `lw rt,n(base)`, and the other mnemonics of its row.
///
/// # Errors
///
/// `Operand` where these are not the operands; `Number` where n is not -32768 to 32767.
#[tactic(auto, unfolding(crate::specs::Rows::load))]
pub fn load(kind: LoadKind, operands: Operands) -> Result<Instruction, StatementFault>
    ensures { result ≡ load kind operands }
{
    let (rt, offset) = two_operands(operands)?;
    let rt = as_register(rt)?;
    let (number, base) = as_offset(offset)?;
    let n = signed_half_of(number)?;
    Ok(Instruction::One(Op::Load(kind, rt, base, n)))
}

/// `sw rt,n(base)`, and the other mnemonics of its row.
///
/// # Errors
///
/// `Operand` where these are not the operands; `Number` where n is not -32768 to 32767.
#[tactic(auto, unfolding(crate::specs::Rows::store))]
pub fn store(kind: StoreKind, operands: Operands) -> Result<Instruction, StatementFault>
    ensures { result ≡ store kind operands }
{
    let (rt, offset) = two_operands(operands)?;
    let rt = as_register(rt)?;
    let (number, base) = as_offset(offset)?;
    let n = signed_half_of(number)?;
    Ok(Instruction::One(Op::Store(kind, rt, base, n)))
}

/// `beq rs,rt,T`, and the other mnemonics of its row.
///
/// # Errors
///
/// `Operand` where these are not the operands; `Number` where T is an index above 4096.
#[tactic(auto, unfolding(crate::specs::Rows::branch_two))]
pub fn branch_two(kind: BranchTwoKind, operands: Operands) -> Result<Instruction, StatementFault>
    ensures { result ≡ branch_two kind operands }
{
    let (rs, rt, target) = three_operands(operands)?;
    let rs = as_register(rs)?;
    let rt = as_register(rt)?;
    Ok(Instruction::BranchTwo(kind, rs, rt, as_target(target)?))
}

/// `blez rs,T`, and the other mnemonics of its row.
///
/// # Errors
///
/// `Operand` where these are not the operands; `Number` where T is an index above 4096.
#[tactic(auto, unfolding(crate::specs::Rows::branch_one))]
pub fn branch_one(kind: BranchOneKind, operands: Operands) -> Result<Instruction, StatementFault>
    ensures { result ≡ branch_one kind operands }
{
    let (rs, target) = two_operands(operands)?;
    let rs = as_register(rs)?;
    Ok(Instruction::BranchOne(kind, rs, as_target(target)?))
}

/// `j T`.
///
/// # Errors
///
/// `Operand` where these are not the operands; `Number` where T is an index above 4096.
#[tactic(auto, unfolding(crate::specs::Rows::jump))]
pub fn jump(operands: Operands) -> Result<Instruction, StatementFault>
    ensures { result ≡ jump operands }
{
    Ok(Instruction::Jump(as_target(one_operand(operands)?)?))
}

/// `jal T`.
///
/// # Errors
///
/// `Operand` where these are not the operands; `Number` where T is an index above 4096.
#[tactic(auto, unfolding(crate::specs::Rows::jump_link))]
pub fn jump_link(operands: Operands) -> Result<Instruction, StatementFault>
    ensures { result ≡ jump_link operands }
{
    Ok(Instruction::JumpLink(as_target(one_operand(operands)?)?))
}

/// `jr rs`.
///
/// # Errors
///
/// `Operand` where these are not the operands.
#[tactic(auto, unfolding(crate::specs::Rows::jump_reg))]
pub fn jump_reg(operands: Operands) -> Result<Instruction, StatementFault>
    ensures { result ≡ jump_reg operands }
{
    let rs = as_register(one_operand(operands)?)?;
    Ok(Instruction::One(Op::JumpReg(rs)))
}

/// `out rs`.
///
/// # Errors
///
/// `Operand` where these are not the operands.
#[tactic(auto, unfolding(crate::specs::Rows::out))]
pub fn out(operands: Operands) -> Result<Instruction, StatementFault>
    ensures { result ≡ out operands }
{
    let rs = as_register(one_operand(operands)?)?;
    Ok(Instruction::One(Op::Out(rs)))
}

/// `halt`.
///
/// # Errors
///
/// `Operand` where there are operands.
#[tactic(auto, unfolding(crate::specs::Rows::halt))]
pub fn halt(operands: Operands) -> Result<Instruction, StatementFault>
    ensures { result ≡ halt operands }
{
    no_operand(operands)?;
    Ok(Instruction::One(Op::Halt))
}

/// `jalr rd,rs`, and `jalr rs` with register 31 as rd.
///
/// # Errors
///
/// `Operand` where these are not the operands.
#[tactic(auto, unfolding(crate::specs::Rows::jump_link_reg))]
pub fn jump_link_reg(operands: Operands) -> Result<Instruction, StatementFault>
    ensures { result ≡ jump_link_reg operands }
{
    let (rd, rs) = match operands {
        Operands::One(rs) => (numbered(31), as_register(rs)?),
        Operands::Two(rd, rs) => (as_register(rd)?, as_register(rs)?),
        _ => return Err(StatementFault::Operand),
    };
    Ok(Instruction::One(Op::JumpLinkReg(rd, rs)))
}

/// `nop`, as `sll $0,$0,0`.
///
/// # Errors
///
/// `Operand` where there are operands.
#[tactic(auto, unfolding(crate::specs::Rows::nop))]
pub fn nop(operands: Operands) -> Result<Instruction, StatementFault>
    ensures { result ≡ nop operands }
{
    no_operand(operands)?;
    let amount = Amount::new(0).ok_or(StatementFault::Number)?;
    Ok(Instruction::One(Op::ShiftBy(ShiftByKind::Sll, numbered(0), numbered(0), amount)))
}

/// `move rd,rs`, as `addu rd,rs,$0`.
///
/// # Errors
///
/// `Operand` where these are not the operands.
#[tactic(auto, unfolding(crate::specs::Rows::copy))]
pub fn copy(operands: Operands) -> Result<Instruction, StatementFault>
    ensures { result ≡ copy operands }
{
    let (rd, rs) = two_operands(operands)?;
    let op = Op::Three(
        ThreeKind::Addu,
        as_register(rd)?,
        as_register(rs)?,
        numbered(0),
    );
    Ok(Instruction::One(op))
}

/// The shortest way to a word.
fn immediate(rd: Gpr, word: u32) -> Instruction
    ensures { result ≡ immediate rd word }
{
    if word < 0x8000 {
        Instruction::One(Op::Imm(ImmKind::Addiu, rd, numbered(0), word as i16))
    } else if word >= 0xffff_8000 {
        Instruction::One(Op::Imm(ImmKind::Addiu, rd, numbered(0), word.cast_signed() as i16))
    } else if word < 0x1_0000 {
        Instruction::One(Op::Logic(LogicKind::Ori, rd, numbered(0), word as u16))
    } else {
        let high = Op::Lui(rd, (word >> 16) as u16);
        Instruction::Two(
            high,
            Op::Logic(LogicKind::Ori, rd, rd, (word & 0xffff) as u16),
        )
    }
}

/// `li rd,N`: one machine instruction where one will do, else two.
///
/// # Errors
///
/// `Operand` where these are not the operands; `Number` where N is not -2^31 to 2^32 - 1.
#[tactic(auto, unfolding(crate::specs::Rows::load_immediate))]
pub fn load_immediate(operands: Operands) -> Result<Instruction, StatementFault>
    ensures { result ≡ load_immediate operands }
{
    let (rd, number) = two_operands(operands)?;
    let rd = as_register(rd)?;
    let word = word_of(as_number(number)?)?;
    Ok(immediate(rd, word))
}

/// `la rd,NAME`, before the label is resolved.
///
/// # Errors
///
/// `Operand` where these are not the operands.
#[tactic(auto, unfolding(crate::specs::Rows::load_address))]
pub fn load_address(operands: Operands) -> Result<Instruction, StatementFault>
    ensures { result ≡ load_address operands }
{
    let (rd, label) = two_operands(operands)?;
    let rd = as_register(rd)?;
    Ok(Instruction::LoadAddress(rd, as_label(label)?))
}

/// The instruction of a mnemonic with its operands; a `release` has a list of registers instead.
fn row_of(mnemonic: Mnemonic, operands: Operands) -> Result<Instruction, StatementFault>
    ensures { result ≡ row_of mnemonic operands }
{
    match mnemonic {
        Mnemonic::Three(kind) => three(kind, operands),
        Mnemonic::ShiftBy(kind) => shift_by(kind, operands),
        Mnemonic::ShiftVar(kind) => shift_var(kind, operands),
        Mnemonic::Imm(kind) => imm(kind, operands),
        Mnemonic::Logic(kind) => logic(kind, operands),
        Mnemonic::Lui => lui(operands),
        Mnemonic::Mult(kind) => mult(kind, operands),
        Mnemonic::MoveFrom(kind) => move_from(kind, operands),
        Mnemonic::MoveTo(kind) => move_to(kind, operands),
        Mnemonic::Load(kind) => load(kind, operands),
        Mnemonic::Store(kind) => store(kind, operands),
        Mnemonic::BranchTwo(kind) => branch_two(kind, operands),
        Mnemonic::BranchOne(kind) => branch_one(kind, operands),
        Mnemonic::Jump => jump(operands),
        Mnemonic::JumpLink => jump_link(operands),
        Mnemonic::JumpReg => jump_reg(operands),
        Mnemonic::JumpLinkReg => jump_link_reg(operands),
        Mnemonic::Out => out(operands),
        Mnemonic::Release => Err(StatementFault::Operand),
        Mnemonic::Halt => halt(operands),
        Mnemonic::Nop => nop(operands),
        Mnemonic::Move => copy(operands),
        Mnemonic::LoadImmediate => load_immediate(operands),
        Mnemonic::LoadAddress => load_address(operands),
    }
}

/// The instruction of a mnemonic with the tokens of its operands; a `release`, whose operand is a list, fails
/// here.
///
/// # Errors
///
/// `Operand` where the number or the kinds of the operands are not the mnemonic's; `Number` where a number is
/// out of its range.
pub fn with_operands(mnemonic: Mnemonic, tokens: &[Token]) -> Result<Instruction, StatementFault>
    ensures { result ≡ with_operands mnemonic tokens.now }
{
    match operands_of(tokens) {
        Ok(operands) => row_of(mnemonic, operands),
        Err(fault) => Err(fault),
    }
}
