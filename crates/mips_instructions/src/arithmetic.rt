//! What the instructions compute of their 32-bit operands (MIPS32 manual, volume II), one function for each row
//! of the instruction table.

ghost use Rattle.std.specs.Prelude.{◌≡◌, ◌<◌, ◌/◌, ◌%◌, ◌^◌, ◌==◌, ◌||◌, if◌then◌else◌};
ghost use Rattle.mips_instructions.specs.Words.{HI, LO};
ghost use Rattle.mips_instructions.specs.InstructionTable.{three_of, shift_by_of, shift_var_of, imm_of, logic_of, product_of, moved_from, moved_to, extended, two_taken, one_taken};

use crate::instruction::{
    BranchOneKind, BranchTwoKind, ImmKind, LogicKind, MoveFromKind, MoveToKind, MultKind,
    ShiftByKind, ShiftVarKind, ThreeKind,
};
use crate::number::{Amount, Reg};

/// The result of an operation on two registers, `a` from rs and `b` from rt; sums and differences are modulo
/// 2^32.
#[inline(always)]
pub fn three(kind: ThreeKind, a: u32, b: u32) -> u32
    ensures { result ≡ three_of kind a b }
{
    match kind {
        ThreeKind::Addu => a.wrapping_add(b),
        ThreeKind::Subu => a.wrapping_sub(b),
        ThreeKind::And => a & b,
        ThreeKind::Or => a | b,
        ThreeKind::Xor => a ^ b,
        ThreeKind::Nor => !(a | b),
        ThreeKind::Slt => u32::from(a.cast_signed() < b.cast_signed()),
        ThreeKind::Sltu => u32::from(a < b),
    }
}

/// The word `a`, from rt, shifted by 0..=31 bits; `sra` copies the sign bit, the others shift in zeros.
#[inline(always)]
pub fn shift_by(kind: ShiftByKind, a: u32, amount: Amount) -> u32
    ensures { result ≡ shift_by_of kind a amount }
{
    match kind {
        ShiftByKind::Sll => a << amount.get(),
        ShiftByKind::Srl => a >> amount.get(),
        ShiftByKind::Sra => (a.cast_signed() >> amount.get()).cast_unsigned(),
    }
}

/// The word `a`, from rt, shifted by the low 5 bits of `b`, from rs.
#[inline(always)]
pub fn shift_var(kind: ShiftVarKind, a: u32, b: u32) -> u32
    ensures { result ≡ shift_var_of kind a b }
{
    match kind {
        ShiftVarKind::Sllv => a << (b % 32),
        ShiftVarKind::Srlv => a >> (b % 32),
        ShiftVarKind::Srav => (a.cast_signed() >> (b % 32)).cast_unsigned(),
    }
}

/// The result of an operation on `a`, from rs, and an immediate that is extended by its sign. `sltiu` extends
/// it in the same way, then compares without signs.
#[inline(always)]
pub fn imm(kind: ImmKind, a: u32, n: i16) -> u32
    ensures { result ≡ imm_of kind a n }
{
    match kind {
        ImmKind::Addiu => a.wrapping_add(i32::from(n).cast_unsigned()),
        ImmKind::Slti => u32::from(a.cast_signed() < i32::from(n)),
        ImmKind::Sltiu => u32::from(a < i32::from(n).cast_unsigned()),
    }
}

/// The result of a bit operation on `a`, from rs, and an immediate that is extended with zeros.
#[inline(always)]
pub fn logic(kind: LogicKind, a: u32, n: u16) -> u32
    ensures { result ≡ logic_of kind a n }
{
    match kind {
        LogicKind::Andi => a & u32::from(n),
        LogicKind::Ori => a | u32::from(n),
        LogicKind::Xori => a ^ u32::from(n),
    }
}

/// The 64-bit product of two registers: signed for `mult`, unsigned for `multu`.
#[inline]
pub fn product(kind: MultKind, a: u32, b: u32) -> u64
    ensures { result ≡ product_of kind a b }
{
    match kind {
        MultKind::Mult => (i64::from(a.cast_signed()) * i64::from(b.cast_signed())).cast_unsigned(),
        MultKind::Multu => u64::from(a) * u64::from(b),
    }
}

/// The high 32 bits of a product, which go to HI.
#[inline]
pub fn high(product: u64) -> u32
    ensures { result ≡ product / 2 ^ 32 }
{
    (product >> 32) as u32
}

/// The low 32 bits of a product, which go to LO.
#[inline]
pub fn low(product: u64) -> u32
    ensures { result ≡ product % 2 ^ 32 }
{
    (product & 0xffff_ffff) as u32
}

/// Whether a branch that compares two registers is taken; `a` is from rs, `b` from rt.
#[inline]
pub fn takes_two(kind: BranchTwoKind, a: u32, b: u32) -> bool
    ensures { result ≡ two_taken kind a b }
{
    match kind {
        BranchTwoKind::Beq => a == b,
        BranchTwoKind::Bne => a != b,
    }
}

/// Whether a branch that compares a register, as a signed number, with zero is taken.
#[inline]
pub fn takes_one(kind: BranchOneKind, a: u32) -> bool
    ensures { result ≡ one_taken kind a }
{
    match kind {
        BranchOneKind::Blez => a.cast_signed() <= 0,
        BranchOneKind::Bgtz => a.cast_signed() > 0,
        BranchOneKind::Bltz => a.cast_signed() < 0,
        BranchOneKind::Bgez => a.cast_signed() >= 0,
    }
}

/// The register that `mfhi` or `mflo` reads: 32 (HI) or 33 (LO).
#[inline]
pub fn moved_register(kind: MoveFromKind) -> Reg
    ensures { result ≡ moved_from kind }
{
    match kind {
        MoveFromKind::Mfhi => Reg::HI,
        MoveFromKind::Mflo => Reg::LO,
    }
}

/// The register that `mthi` or `mtlo` writes: 32 (HI) or 33 (LO).
#[inline]
pub fn target_register(kind: MoveToKind) -> Reg
    ensures { result ≡ moved_to kind }
{
    match kind {
        MoveToKind::Mthi => Reg::HI,
        MoveToKind::Mtlo => Reg::LO,
    }
}

/// The word of a product for register r: the high half for HI, the low half for LO.
pub(crate) fn product_word(product: u64, r: Reg) -> Option<u32>
    ensures { result ≡ (if r == HI || r == LO then Some (if r == HI then product / 2 ^ 32 else product % 2 ^ 32) else None) }
{
    if r == Reg::HI {
        Some(high(product))
    } else if r == Reg::LO {
        Some(low(product))
    } else {
        None
    }
}
