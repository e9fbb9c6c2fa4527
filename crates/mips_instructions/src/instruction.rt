//! The instructions (MIPS32 manual, volume II, the integer instructions; `out`, `release` and `halt` are this
//! project's own): how each is written, what it reads and writes, and where it continues. Nothing here needs
//! memory. Each `Kind` lists the mnemonics of one row of the instruction table.

ghost use Rattle.std.specs.Prelude.{◌≡◌, ℕ, ◌||◌, if◌then◌else◌, [], ◌∷◌, map};
ghost use Rattle.mips_instructions.specs.Words.{has};
ghost use Rattle.mips_instructions.specs.InstructionTable.{three_name, shift_by_name, shift_var_name, imm_name, logic_name, mult_name, move_from_name, move_to_name, load_name, store_name, branch_two_name, branch_one_name, word_of, form_of, by_word, mnemonics, mnemonic_named, mnemonic_of, name_of, listed, operands, general};
ghost use Rattle.mips_instructions.specs.Instruction.{source_a, source_b, is_source, waits, dests, alu, taken, turn};

use self::InstructionOperand as Operand;
use crate::arithmetic::{
    imm, logic, moved_register, product, product_word, shift_by, shift_var, takes_one, takes_two,
    target_register, three,
};
use crate::number::{Amount, Gpr, Place, Reg, RegSet};
use crate::places::{address_of, following};

/// Operations on two registers: `addu subu and or xor nor slt sltu`.
#[derive(Clone, Copy, Debug, PartialEq, Eq)]
pub enum ThreeKind {
    /// The sum, modulo 2^32.
    Addu,
    /// The difference rs - rt, modulo 2^32.
    Subu,
    /// The bits that are 1 in both.
    And,
    /// The bits that are 1 in either.
    Or,
    /// The bits that are 1 in exactly one.
    Xor,
    /// The bits that are 1 in neither.
    Nor,
    /// 1 if rs is less than rt, both signed, else 0.
    Slt,
    /// 1 if rs is less than rt, both unsigned, else 0.
    Sltu,
}

impl ThreeKind {
    /// The mnemonic in lower case, as a program text spells it.
    pub fn name(self) -> &'static str
        ensures { result.now ≡ three_name self }
    {
        match self {
            ThreeKind::Addu => "addu",
            ThreeKind::Subu => "subu",
            ThreeKind::And => "and",
            ThreeKind::Or => "or",
            ThreeKind::Xor => "xor",
            ThreeKind::Nor => "nor",
            ThreeKind::Slt => "slt",
            ThreeKind::Sltu => "sltu",
        }
    }
}

/// Shifts by an amount in the instruction: `sll srl sra`.
#[derive(Clone, Copy, Debug, PartialEq, Eq)]
pub enum ShiftByKind {
    /// To the left, with zeros.
    Sll,
    /// To the right, with zeros.
    Srl,
    /// To the right, with copies of the sign bit.
    Sra,
}

impl ShiftByKind {
    /// The mnemonic in lower case, as a program text spells it.
    pub fn name(self) -> &'static str
        ensures { result.now ≡ shift_by_name self }
    {
        match self {
            ShiftByKind::Sll => "sll",
            ShiftByKind::Srl => "srl",
            ShiftByKind::Sra => "sra",
        }
    }
}

/// Shifts by the low 5 bits of a register: `sllv srlv srav`.
#[derive(Clone, Copy, Debug, PartialEq, Eq)]
pub enum ShiftVarKind {
    /// To the left, with zeros.
    Sllv,
    /// To the right, with zeros.
    Srlv,
    /// To the right, with copies of the sign bit.
    Srav,
}

impl ShiftVarKind {
    /// The mnemonic in lower case, as a program text spells it.
    pub fn name(self) -> &'static str
        ensures { result.now ≡ shift_var_name self }
    {
        match self {
            ShiftVarKind::Sllv => "sllv",
            ShiftVarKind::Srlv => "srlv",
            ShiftVarKind::Srav => "srav",
        }
    }
}

/// Operations with an immediate of 16 bits that is extended by its sign: `addiu slti sltiu`.
#[derive(Clone, Copy, Debug, PartialEq, Eq)]
pub enum ImmKind {
    /// The sum, modulo 2^32.
    Addiu,
    /// 1 if rs is less than n, both signed, else 0.
    Slti,
    /// 1 if rs is less than the extended n, both unsigned, else 0.
    Sltiu,
}

impl ImmKind {
    /// The mnemonic in lower case, as a program text spells it.
    pub fn name(self) -> &'static str
        ensures { result.now ≡ imm_name self }
    {
        match self {
            ImmKind::Addiu => "addiu",
            ImmKind::Slti => "slti",
            ImmKind::Sltiu => "sltiu",
        }
    }
}

/// Bit operations with an immediate of 16 bits that is extended with zeros: `andi ori xori`.
#[derive(Clone, Copy, Debug, PartialEq, Eq)]
pub enum LogicKind {
    /// The bits that are 1 in both.
    Andi,
    /// The bits that are 1 in either.
    Ori,
    /// The bits that are 1 in exactly one.
    Xori,
}

impl LogicKind {
    /// The mnemonic in lower case, as a program text spells it.
    pub fn name(self) -> &'static str
        ensures { result.now ≡ logic_name self }
    {
        match self {
            LogicKind::Andi => "andi",
            LogicKind::Ori => "ori",
            LogicKind::Xori => "xori",
        }
    }
}

/// Products of 64 bits, signed and unsigned: `mult multu`.
#[derive(Clone, Copy, Debug, PartialEq, Eq)]
pub enum MultKind {
    /// Of signed words.
    Mult,
    /// Of unsigned words.
    Multu,
}

impl MultKind {
    /// The mnemonic in lower case, as a program text spells it.
    pub fn name(self) -> &'static str
        ensures { result.now ≡ mult_name self }
    {
        match self {
            MultKind::Mult => "mult",
            MultKind::Multu => "multu",
        }
    }
}

/// Moves from HI or LO to a general register: `mfhi mflo`.
#[derive(Clone, Copy, Debug, PartialEq, Eq)]
pub enum MoveFromKind {
    /// From HI, register 32.
    Mfhi,
    /// From LO, register 33.
    Mflo,
}

impl MoveFromKind {
    /// The mnemonic in lower case, as a program text spells it.
    pub fn name(self) -> &'static str
        ensures { result.now ≡ move_from_name self }
    {
        match self {
            MoveFromKind::Mfhi => "mfhi",
            MoveFromKind::Mflo => "mflo",
        }
    }
}

/// Moves from a general register to HI or LO: `mthi mtlo`.
#[derive(Clone, Copy, Debug, PartialEq, Eq)]
pub enum MoveToKind {
    /// To HI, register 32.
    Mthi,
    /// To LO, register 33.
    Mtlo,
}

impl MoveToKind {
    /// The mnemonic in lower case, as a program text spells it.
    pub fn name(self) -> &'static str
        ensures { result.now ≡ move_to_name self }
    {
        match self {
            MoveToKind::Mthi => "mthi",
            MoveToKind::Mtlo => "mtlo",
        }
    }
}

/// Loads of 4, 2 and 1 bytes: `lw lh lhu lb lbu`; `lh` and `lb` extend the sign.
#[derive(Clone, Copy, Debug, PartialEq, Eq)]
pub enum LoadKind {
    /// A word of 4 bytes.
    Lw,
    /// 2 bytes, extended by their sign.
    Lh,
    /// 2 bytes, extended with zeros.
    Lhu,
    /// 1 byte, extended by its sign.
    Lb,
    /// 1 byte, extended with zeros.
    Lbu,
}

impl LoadKind {
    /// The mnemonic in lower case, as a program text spells it.
    pub fn name(self) -> &'static str
        ensures { result.now ≡ load_name self }
    {
        match self {
            LoadKind::Lw => "lw",
            LoadKind::Lh => "lh",
            LoadKind::Lhu => "lhu",
            LoadKind::Lb => "lb",
            LoadKind::Lbu => "lbu",
        }
    }
}

/// Stores of 4, 2 and 1 bytes: `sw sh sb`.
#[derive(Clone, Copy, Debug, PartialEq, Eq)]
pub enum StoreKind {
    /// A word of 4 bytes.
    Sw,
    /// The low 2 bytes.
    Sh,
    /// The low byte.
    Sb,
}

impl StoreKind {
    /// The mnemonic in lower case, as a program text spells it.
    pub fn name(self) -> &'static str
        ensures { result.now ≡ store_name self }
    {
        match self {
            StoreKind::Sw => "sw",
            StoreKind::Sh => "sh",
            StoreKind::Sb => "sb",
        }
    }
}

/// Conditional branches that compare two registers: `beq bne`.
#[derive(Clone, Copy, Debug, PartialEq, Eq)]
pub enum BranchTwoKind {
    /// Taken if they are equal.
    Beq,
    /// Taken if they are not equal.
    Bne,
}

impl BranchTwoKind {
    /// The mnemonic in lower case, as a program text spells it.
    pub fn name(self) -> &'static str
        ensures { result.now ≡ branch_two_name self }
    {
        match self {
            BranchTwoKind::Beq => "beq",
            BranchTwoKind::Bne => "bne",
        }
    }
}

/// Conditional branches that compare a register, as a signed number, with zero: `blez bgtz bltz bgez`.
#[derive(Clone, Copy, Debug, PartialEq, Eq)]
pub enum BranchOneKind {
    /// Taken if it is at most zero.
    Blez,
    /// Taken if it is above zero.
    Bgtz,
    /// Taken if it is below zero.
    Bltz,
    /// Taken if it is at least zero.
    Bgez,
}

impl BranchOneKind {
    /// The mnemonic in lower case, as a program text spells it.
    pub fn name(self) -> &'static str
        ensures { result.now ≡ branch_one_name self }
    {
        match self {
            BranchOneKind::Blez => "blez",
            BranchOneKind::Bgtz => "bgtz",
            BranchOneKind::Bltz => "bltz",
            BranchOneKind::Bgez => "bgez",
        }
    }
}

/// The first word of an instruction's text. `nop`, `move`, `li` and `la` are pseudo-instructions, which the
/// assembler replaces.
#[derive(Clone, Copy, Debug, PartialEq, Eq)]
pub enum Mnemonic {
    /// `addu subu and or xor nor slt sltu`
    Three(ThreeKind),
    /// `sll srl sra`
    ShiftBy(ShiftByKind),
    /// `sllv srlv srav`
    ShiftVar(ShiftVarKind),
    /// `addiu slti sltiu`
    Imm(ImmKind),
    /// `andi ori xori`
    Logic(LogicKind),
    /// `lui`
    Lui,
    /// `mult multu`
    Mult(MultKind),
    /// `mfhi mflo`
    MoveFrom(MoveFromKind),
    /// `mthi mtlo`
    MoveTo(MoveToKind),
    /// `lw lh lhu lb lbu`
    Load(LoadKind),
    /// `sw sh sb`
    Store(StoreKind),
    /// `beq bne`
    BranchTwo(BranchTwoKind),
    /// `blez bgtz bltz bgez`
    BranchOne(BranchOneKind),
    /// `j`
    Jump,
    /// `jal`
    JumpLink,
    /// `jr`
    JumpReg,
    /// `jalr`
    JumpLinkReg,
    /// `out`
    Out,
    /// `release`
    Release,
    /// `halt`
    Halt,
    /// `nop`
    Nop,
    /// `move`
    Move,
    /// `li`
    LoadImmediate,
    /// `la`
    LoadAddress,
}

/// The operands that follow a mnemonic: r, rd, rs, rt and base are registers, n is a number, T a place.
#[derive(Clone, Copy, Debug, PartialEq, Eq)]
pub enum Form {
    /// `rd,rs,rt`
    Three,
    /// `rd,rt,n`
    ShiftBy,
    /// `rd,rt,rs`
    ShiftVar,
    /// `rt,rs,n`, where n is signed
    Signed,
    /// `rt,rs,n`, where n is not signed
    Unsigned,
    /// `rt,n`
    Upper,
    /// `rs,rt`
    Sources,
    /// `rd`
    Dest,
    /// `rs`
    Source,
    /// `rt,n(base)`
    Memory,
    /// `rs,rt,T`
    BranchTwo,
    /// `rs,T`
    BranchOne,
    /// `T`
    Jump,
    /// `rd,rs`
    DestSource,
    /// `r,r,..`
    Registers,
    /// No operands.
    Nothing,
    /// `rd,n`
    LoadImmediate,
    /// `rd,NAME`
    LoadAddress,
}

/// All mnemonics, in the order of the instruction table.
pub const MNEMONICS: [Mnemonic; 52] = [
    Mnemonic::Three(ThreeKind::Addu),
    Mnemonic::Three(ThreeKind::Subu),
    Mnemonic::Three(ThreeKind::And),
    Mnemonic::Three(ThreeKind::Or),
    Mnemonic::Three(ThreeKind::Xor),
    Mnemonic::Three(ThreeKind::Nor),
    Mnemonic::Three(ThreeKind::Slt),
    Mnemonic::Three(ThreeKind::Sltu),
    Mnemonic::ShiftBy(ShiftByKind::Sll),
    Mnemonic::ShiftBy(ShiftByKind::Srl),
    Mnemonic::ShiftBy(ShiftByKind::Sra),
    Mnemonic::ShiftVar(ShiftVarKind::Sllv),
    Mnemonic::ShiftVar(ShiftVarKind::Srlv),
    Mnemonic::ShiftVar(ShiftVarKind::Srav),
    Mnemonic::Imm(ImmKind::Addiu),
    Mnemonic::Imm(ImmKind::Slti),
    Mnemonic::Imm(ImmKind::Sltiu),
    Mnemonic::Logic(LogicKind::Andi),
    Mnemonic::Logic(LogicKind::Ori),
    Mnemonic::Logic(LogicKind::Xori),
    Mnemonic::Lui,
    Mnemonic::Mult(MultKind::Mult),
    Mnemonic::Mult(MultKind::Multu),
    Mnemonic::MoveFrom(MoveFromKind::Mfhi),
    Mnemonic::MoveFrom(MoveFromKind::Mflo),
    Mnemonic::MoveTo(MoveToKind::Mthi),
    Mnemonic::MoveTo(MoveToKind::Mtlo),
    Mnemonic::Load(LoadKind::Lw),
    Mnemonic::Load(LoadKind::Lh),
    Mnemonic::Load(LoadKind::Lhu),
    Mnemonic::Load(LoadKind::Lb),
    Mnemonic::Load(LoadKind::Lbu),
    Mnemonic::Store(StoreKind::Sw),
    Mnemonic::Store(StoreKind::Sh),
    Mnemonic::Store(StoreKind::Sb),
    Mnemonic::BranchTwo(BranchTwoKind::Beq),
    Mnemonic::BranchTwo(BranchTwoKind::Bne),
    Mnemonic::BranchOne(BranchOneKind::Blez),
    Mnemonic::BranchOne(BranchOneKind::Bgtz),
    Mnemonic::BranchOne(BranchOneKind::Bltz),
    Mnemonic::BranchOne(BranchOneKind::Bgez),
    Mnemonic::Jump,
    Mnemonic::JumpLink,
    Mnemonic::JumpReg,
    Mnemonic::JumpLinkReg,
    Mnemonic::Out,
    Mnemonic::Release,
    Mnemonic::Halt,
    Mnemonic::Nop,
    Mnemonic::Move,
    Mnemonic::LoadImmediate,
    Mnemonic::LoadAddress,
];

impl Mnemonic {
    /// The mnemonic in lower case, as a program text spells it.
    #[inline]
    pub fn word(self) -> &'static str
        ensures { result.now ≡ word_of self }
    {
        match self {
            Mnemonic::Three(kind) => kind.name(),
            Mnemonic::ShiftBy(kind) => kind.name(),
            Mnemonic::ShiftVar(kind) => kind.name(),
            Mnemonic::Imm(kind) => kind.name(),
            Mnemonic::Logic(kind) => kind.name(),
            Mnemonic::Lui => "lui",
            Mnemonic::Mult(kind) => kind.name(),
            Mnemonic::MoveFrom(kind) => kind.name(),
            Mnemonic::MoveTo(kind) => kind.name(),
            Mnemonic::Load(kind) => kind.name(),
            Mnemonic::Store(kind) => kind.name(),
            Mnemonic::BranchTwo(kind) => kind.name(),
            Mnemonic::BranchOne(kind) => kind.name(),
            Mnemonic::Jump => "j",
            Mnemonic::JumpLink => "jal",
            Mnemonic::JumpReg => "jr",
            Mnemonic::JumpLinkReg => "jalr",
            Mnemonic::Out => "out",
            Mnemonic::Release => "release",
            Mnemonic::Halt => "halt",
            Mnemonic::Nop => "nop",
            Mnemonic::Move => "move",
            Mnemonic::LoadImmediate => "li",
            Mnemonic::LoadAddress => "la",
        }
    }

    /// The operands that follow the mnemonic.
    pub fn form(self) -> Form
        ensures { result ≡ form_of self }
    {
        match self {
            Mnemonic::Three(_) => Form::Three,
            Mnemonic::ShiftBy(_) => Form::ShiftBy,
            Mnemonic::ShiftVar(_) => Form::ShiftVar,
            Mnemonic::Imm(_) => Form::Signed,
            Mnemonic::Logic(_) => Form::Unsigned,
            Mnemonic::Lui => Form::Upper,
            Mnemonic::Mult(_) => Form::Sources,
            Mnemonic::MoveFrom(_) => Form::Dest,
            Mnemonic::MoveTo(_) | Mnemonic::JumpReg | Mnemonic::Out => Form::Source,
            Mnemonic::Load(_) | Mnemonic::Store(_) => Form::Memory,
            Mnemonic::BranchTwo(_) => Form::BranchTwo,
            Mnemonic::BranchOne(_) => Form::BranchOne,
            Mnemonic::Jump | Mnemonic::JumpLink => Form::Jump,
            Mnemonic::JumpLinkReg | Mnemonic::Move => Form::DestSource,
            Mnemonic::Release => Form::Registers,
            Mnemonic::Halt | Mnemonic::Nop => Form::Nothing,
            Mnemonic::LoadImmediate => Form::LoadImmediate,
            Mnemonic::LoadAddress => Form::LoadAddress,
        }
    }

    /// The mnemonic that a text spells with these bytes; `None` where no mnemonic is spelled so.
    pub fn named(word: &[u8]) -> Option<Mnemonic>
        ensures { result ≡ mnemonic_named word.now mnemonics }
    {
        match word.len() {
            1 => named_in(&OF_ONE, word),
            2 => named_in(&OF_TWO, word),
            _ => named_in(&MNEMONICS, word),
        }
    }
}

/// The mnemonics of one letter: they are sought alone, since a text may have millions of lines of one letter.
const OF_ONE: [Mnemonic; 1] = [Mnemonic::Jump];

/// Those of two letters.
const OF_TWO: [Mnemonic; 10] = [
    Mnemonic::Three(ThreeKind::Or),
    Mnemonic::Load(LoadKind::Lw),
    Mnemonic::Load(LoadKind::Lh),
    Mnemonic::Load(LoadKind::Lb),
    Mnemonic::Store(StoreKind::Sw),
    Mnemonic::Store(StoreKind::Sh),
    Mnemonic::Store(StoreKind::Sb),
    Mnemonic::JumpReg,
    Mnemonic::LoadImmediate,
    Mnemonic::LoadAddress,
];

/// The one of these mnemonics that has this word.
fn named_in(mnemonics: &[Mnemonic], word: &[u8]) -> Option<Mnemonic>
    ensures { result ≡ mnemonic_named word.now (map by_word mnemonics.now) }
{
    for mnemonic in mnemonics {
        if mnemonic.word().as_bytes() == word {
            return Some(*mnemonic);
        }
    }
    None
}

/// One instruction, without marks. The fields are in the order of the text, except that the base of a load or a
/// store comes before the offset.
#[derive(Clone, Copy, Debug, PartialEq, Eq)]
pub enum Op {
    /// `addu rd,rs,rt`: rd, rs, rt.
    Three(ThreeKind, Gpr, Gpr, Gpr),
    /// `sll rd,rt,n`: rd, rt, n, which is 0..=31 bits.
    ShiftBy(ShiftByKind, Gpr, Gpr, Amount),
    /// `sllv rd,rt,rs`: rd, rt, rs.
    ShiftVar(ShiftVarKind, Gpr, Gpr, Gpr),
    /// `addiu rt,rs,n`: rt, rs, n, which is extended by its sign.
    Imm(ImmKind, Gpr, Gpr, i16),
    /// `andi rt,rs,n`: rt, rs, n, which is extended with zeros.
    Logic(LogicKind, Gpr, Gpr, u16),
    /// `lui rt,n`: rt, n, the high 16 bits of the word; the low ones are 0.
    Lui(Gpr, u16),
    /// `mult rs,rt`: rs, rt.
    Mult(MultKind, Gpr, Gpr),
    /// `mfhi rd`: rd.
    MoveFrom(MoveFromKind, Gpr),
    /// `mthi rs`: rs.
    MoveTo(MoveToKind, Gpr),
    /// `lw rt,n(base)`: rt, base, n, an offset in bytes.
    Load(LoadKind, Gpr, Gpr, i16),
    /// `sw rt,n(base)`: rt, base, n, an offset in bytes.
    Store(StoreKind, Gpr, Gpr, i16),
    /// `beq rs,rt,T`: rs, rt, T, a code index.
    BranchTwo(BranchTwoKind, Gpr, Gpr, Place),
    /// `blez rs,T`: rs, T, a code index.
    BranchOne(BranchOneKind, Gpr, Place),
    /// `j T`: T, a code index.
    Jump(Place),
    /// `jal T`: T, a code index; register 31 takes the address of the next instruction.
    JumpLink(Place),
    /// `jr rs`: rs, which holds an address.
    JumpReg(Gpr),
    /// `jalr rd,rs`: rd, rs; rs holds an address and is read before rd takes the address of the next
    /// instruction.
    JumpLinkReg(Gpr, Gpr),
    /// `out rs`: rs, whose word is appended to the output.
    Out(Gpr),
    /// `release r,r,..`: the registers whose values go to the later tasks; the plain machine does nothing.
    Release(RegSet),
    /// `halt`: ends the run.
    Halt,
}

/// One operand of an instruction, in the form that the text has.
#[derive(Clone, Copy, Debug, PartialEq, Eq)]
pub enum InstructionOperand {
    /// A general register, 0..=31.
    Register(Gpr),
    /// A shift amount, 0..=31 bits.
    Amount(Amount),
    /// An immediate that is extended by its sign.
    Signed(i16),
    /// An immediate that is extended with zeros.
    Unsigned(u16),
    /// A signed offset in bytes, and the base register that it is added to.
    Offset(i16, Gpr),
    /// The code index of a branch's or jump's target.
    Place(Place),
    /// The registers that a `release` names.
    Registers(RegSet),
}

/// The operands of an instruction, 0 to 3, in the order of the text.
#[derive(Clone, Copy, Debug, PartialEq, Eq)]
pub enum OperandList {
    /// No operands.
    Nothing,
    /// One operand.
    One([InstructionOperand; 1]),
    /// Two operands.
    Two([InstructionOperand; 2]),
    /// Three operands.
    Three([InstructionOperand; 3]),
}

impl OperandList {
    /// The operands as a slice, in the order of the text.
    #[inline]
    pub fn as_slice(&self) -> &[InstructionOperand]
        ensures { result.now ≡ listed self.now }
    {
        match self {
            OperandList::Nothing => &[],
            OperandList::One(operands) => operands,
            OperandList::Two(operands) => operands,
            OperandList::Three(operands) => operands,
        }
    }
}

/// A set with a register added, if there is one.
fn insert_some(set: RegSet, register: Option<Reg>) -> RegSet
    ensures { (r : ℕ) → has result r ≡ (has set r || is_source register r) }
{
    match register {
        Some(register) => set.insert(register),
        None => set,
    }
}

/// The set of one general register; the empty set for register 0, to which nothing is written.
fn general_set(register: Gpr) -> RegSet
    ensures { (r : ℕ) → has result r ≡ general register r }
{
    if register.get() == 0 {
        RegSet::empty()
    } else {
        RegSet::empty().insert(Reg::from(register))
    }
}

/// The word for register r of an instruction that writes it to a general register.
fn general_word(register: Gpr, r: Reg, word: u32) -> Option<u32>
    ensures { result ≡ (if general register r then Some word else None) }
{
    if register.get() == r.get() && r.get() != 0 {
        Some(word)
    } else {
        None
    }
}

/// A register and another operand.
#[inline]
fn register_and(first: Gpr, second: InstructionOperand) -> OperandList
    ensures { result ≡ OperandList.Two (InstructionOperand.Register first ∷ second ∷ []) }
{
    OperandList::Two([InstructionOperand::Register(first), second])
}

/// Two registers and another operand.
#[inline]
fn two_registers_and(first: Gpr, second: Gpr, third: InstructionOperand) -> OperandList
    ensures { result ≡ OperandList.Three (InstructionOperand.Register first ∷ InstructionOperand.Register second ∷ third ∷ []) }
{
    OperandList::Three([
        InstructionOperand::Register(first),
        InstructionOperand::Register(second),
        third,
    ])
}

impl Op {
    /// The mnemonic that spells the instruction; never `nop`, `move`, `li` or `la`.
    #[inline]
    pub fn mnemonic(&self) -> Mnemonic
        ensures { result ≡ mnemonic_of self.now }
    {
        match *self {
            Op::Three(kind, ..) => Mnemonic::Three(kind),
            Op::ShiftBy(kind, ..) => Mnemonic::ShiftBy(kind),
            Op::ShiftVar(kind, ..) => Mnemonic::ShiftVar(kind),
            Op::Imm(kind, ..) => Mnemonic::Imm(kind),
            Op::Logic(kind, ..) => Mnemonic::Logic(kind),
            Op::Lui(..) => Mnemonic::Lui,
            Op::Mult(kind, ..) => Mnemonic::Mult(kind),
            Op::MoveFrom(kind, _) => Mnemonic::MoveFrom(kind),
            Op::MoveTo(kind, _) => Mnemonic::MoveTo(kind),
            Op::Load(kind, ..) => Mnemonic::Load(kind),
            Op::Store(kind, ..) => Mnemonic::Store(kind),
            Op::BranchTwo(kind, ..) => Mnemonic::BranchTwo(kind),
            Op::BranchOne(kind, ..) => Mnemonic::BranchOne(kind),
            Op::Jump(_) => Mnemonic::Jump,
            Op::JumpLink(_) => Mnemonic::JumpLink,
            Op::JumpReg(_) => Mnemonic::JumpReg,
            Op::JumpLinkReg(..) => Mnemonic::JumpLinkReg,
            Op::Out(_) => Mnemonic::Out,
            Op::Release(_) => Mnemonic::Release,
            Op::Halt => Mnemonic::Halt,
        }
    }

    /// The mnemonic's word in a program text, such as `addu`.
    #[inline]
    pub fn name(&self) -> &'static str
        ensures { result.now ≡ name_of self.now }
    {
        self.mnemonic().word()
    }

    /// The operands, in the order of the text.
    #[inline]
    pub fn operands(&self) -> OperandList
        ensures { listed result ≡ operands self.now }
    {
        match *self {
            Op::Three(_, a, b, c) | Op::ShiftVar(_, a, b, c) => two_registers_and(
                a,
                b,
                Operand::Register(c),
            ),
            Op::ShiftBy(_, rd, rt, n) => two_registers_and(rd, rt, Operand::Amount(n)),
            Op::Imm(_, rt, rs, n) => two_registers_and(rt, rs, Operand::Signed(n)),
            Op::Logic(_, rt, rs, n) => two_registers_and(rt, rs, Operand::Unsigned(n)),
            Op::Lui(rt, n) => register_and(rt, Operand::Unsigned(n)),
            Op::Mult(_, a, b) | Op::JumpLinkReg(a, b) => register_and(a, Operand::Register(b)),
            Op::Load(_, rt, base, n) | Op::Store(_, rt, base, n) => register_and(
                rt,
                Operand::Offset(n, base),
            ),
            Op::BranchTwo(_, rs, rt, to) => two_registers_and(rs, rt, Operand::Place(to)),
            Op::BranchOne(_, rs, to) => register_and(rs, Operand::Place(to)),
            Op::Jump(to) | Op::JumpLink(to) => OperandList::One([Operand::Place(to)]),
            Op::MoveFrom(_, r) | Op::MoveTo(_, r) | Op::JumpReg(r) | Op::Out(r) => OperandList::One(
                [Operand::Register(r)],
            ),
            Op::Release(set) => OperandList::One([Operand::Registers(set)]),
            Op::Halt => OperandList::Nothing,
        }
    }

    /// The registers that the operands a and b are read from (MIPS manual); `None` where there is no such
    /// operand. A load or a store has its base as a, a store its word as b.
    pub fn sources(&self) -> (Option<Reg>, Option<Reg>)
        ensures first { result.0 ≡ source_a self.now }
        ensures second { result.1 ≡ source_b self.now }
    {
        match *self {
            Op::Three(_, _, rs, rt) => (Some(Reg::from(rs)), Some(Reg::from(rt))),
            Op::ShiftBy(_, _, rt, _) => (Some(Reg::from(rt)), None),
            Op::ShiftVar(_, _, rt, rs) => (Some(Reg::from(rt)), Some(Reg::from(rs))),
            Op::Imm(_, _, rs, _) => (Some(Reg::from(rs)), None),
            Op::Logic(_, _, rs, _) => (Some(Reg::from(rs)), None),
            Op::Mult(_, rs, rt) => (Some(Reg::from(rs)), Some(Reg::from(rt))),
            Op::MoveFrom(kind, _) => (Some(moved_register(kind)), None),
            Op::MoveTo(_, rs) => (Some(Reg::from(rs)), None),
            Op::Load(_, _, base, _) => (Some(Reg::from(base)), None),
            Op::Store(_, rt, base, _) => (Some(Reg::from(base)), Some(Reg::from(rt))),
            Op::BranchTwo(_, rs, rt, _) => (Some(Reg::from(rs)), Some(Reg::from(rt))),
            Op::BranchOne(_, rs, _) => (Some(Reg::from(rs)), None),
            Op::JumpReg(rs) | Op::JumpLinkReg(_, rs) | Op::Out(rs) => (Some(Reg::from(rs)), None),
            Op::Lui(..) | Op::Jump(_) | Op::JumpLink(_) | Op::Release(_) | Op::Halt => (None, None),
        }
    }

    /// The registers whose values the instruction needs: its operands; for a `release` the registers that it
    /// names.
    pub fn waits(&self) -> RegSet
        ensures { (r : ℕ) → has result r ≡ waits self.now r }
    {
        if let Op::Release(set) = *self {
            return set;
        }
        let (a, b) = self.sources();
        insert_some(insert_some(RegSet::empty(), a), b)
    }

    /// The registers that the instruction writes, never register 0.
    pub fn dests(&self) -> RegSet
        ensures { (r : ℕ) → has result r ≡ dests self.now r }
    {
        match *self {
            Op::Three(_, rd, _, _) => general_set(rd),
            Op::ShiftBy(_, rd, _, _) => general_set(rd),
            Op::ShiftVar(_, rd, _, _) => general_set(rd),
            Op::Imm(_, rt, _, _) => general_set(rt),
            Op::Logic(_, rt, _, _) => general_set(rt),
            Op::Lui(rt, _) => general_set(rt),
            Op::Mult(..) => RegSet::empty().insert(Reg::HI).insert(Reg::LO),
            Op::MoveFrom(_, rd) => general_set(rd),
            Op::MoveTo(kind, _) => RegSet::empty().insert(target_register(kind)),
            Op::Load(_, rt, _, _) => general_set(rt),
            Op::JumpLink(_) => RegSet::empty().insert(Reg::LINK),
            Op::JumpLinkReg(rd, _) => general_set(rd),
            Op::Store(..)
            | Op::BranchTwo(..)
            | Op::BranchOne(..)
            | Op::Jump(_)
            | Op::JumpReg(_)
            | Op::Out(_)
            | Op::Release(_)
            | Op::Halt => RegSet::empty(),
        }
    }

    /// The word that an instruction which touches registers alone, at the address pc with the operands a and b,
    /// writes to register r; `None` where r is not one of its destinations, and for a load, a store, `out` and
    /// `halt`.
    pub fn alu(&self, a: u32, b: u32, pc: u32, r: Reg) -> Option<u32>
        ensures { result ≡ alu self.now a b pc r }
    {
        match *self {
            Op::Three(kind, rd, _, _) => general_word(rd, r, three(kind, a, b)),
            Op::ShiftBy(kind, rd, _, amount) => general_word(rd, r, shift_by(kind, a, amount)),
            Op::ShiftVar(kind, rd, _, _) => general_word(rd, r, shift_var(kind, a, b)),
            Op::Imm(kind, rt, _, n) => general_word(rt, r, imm(kind, a, n)),
            Op::Logic(kind, rt, _, n) => general_word(rt, r, logic(kind, a, n)),
            Op::Lui(rt, n) => general_word(rt, r, u32::from(n) << 16),
            Op::Mult(kind, _, _) => product_word(product(kind, a, b), r),
            Op::MoveFrom(_, rd) => general_word(rd, r, a),
            Op::MoveTo(kind, _) => if target_register(kind) == r {
                Some(a)
            } else {
                None
            },
            Op::JumpLink(_) => if r == Reg::LINK {
                Some(following(pc))
            } else {
                None
            },
            Op::JumpLinkReg(rd, _) => general_word(rd, r, following(pc)),
            Op::Load(..)
            | Op::Store(..)
            | Op::BranchTwo(..)
            | Op::BranchOne(..)
            | Op::Jump(_)
            | Op::JumpReg(_)
            | Op::Out(_)
            | Op::Release(_)
            | Op::Halt => None,
        }
    }

    /// The address that follows the instruction at the address pc, with the operands a and b; a `halt` stays at
    /// pc.
    pub fn turn(&self, a: u32, b: u32, pc: u32) -> u32
        ensures { result ≡ turn self.now a b pc }
    {
        match *self {
            Op::BranchTwo(kind, _, _, place) if takes_two(kind, a, b) => address_of(place.get()),
            Op::BranchOne(kind, _, place) if takes_one(kind, a) => address_of(place.get()),
            Op::Jump(place) | Op::JumpLink(place) => address_of(place.get()),
            Op::JumpReg(_) | Op::JumpLinkReg(..) => a,
            Op::Halt => pc,
            _ => following(pc),
        }
    }

    /// Whether a conditional branch with these operands is taken; false for everything else.
    #[inline]
    pub fn taken(&self, a: u32, b: u32) -> bool
        ensures { result ≡ taken self.now a b }
    {
        match *self {
            Op::BranchTwo(kind, _, _, _) => takes_two(kind, a, b),
            Op::BranchOne(kind, _, _) => takes_one(kind, a),
            _ => false,
        }
    }
}
