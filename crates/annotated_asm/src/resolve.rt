//! The parts of the program that items make, with their names resolved.

ghost use Rattle.std.specs.Prelude.{◌≡◌, ◌++◌, ◌/◌, ◌%◌, ◌^◌, List, [], ◌∷◌, replicate, is_some, OnOk};
ghost use Rattle.mips_instructions.specs.declared.instruction.Op.TheVariants.{Lui, Logic};
ghost use Rattle.std.specs.List.{list_all};
ghost use Rattle.task_descriptor.specs.Listing.{Listing, listing_of};
ghost use Rattle.annotated_asm.specs.Steps.{Answers};
ghost use Rattle.annotated_asm.specs.Tables.{lookup};
ghost use Rattle.annotated_asm.specs.Resolve.{index_of_symbol, code_label, address_of, is_known_target, is_known_instruction, is_known, known, limit, place_of, target_place, label_address, marked, all_marked, spelled, target_places, with_data, with_code, descriptor, with_part, parts, no_parts};
ghost use Rattle.annotated_asm.specs.Expansions.{ops_of};

use crate::fault::AsmFault;
use crate::item::PlacedStatement;
use crate::table::{Symbol, Table};
use mips_instructions::instruction::{LogicKind, Op};
use mips_instructions::number::{Gpr, Place};
use mips_instructions::places::address_of;
use mips_plain::memory::{DATA_START, FIXED_START};
use program_statements::statement::{
    Instruction, Marks, Section, Statement, Target, Targets, Task,
};
use std::alloc::{AllocError, Global};
use task_descriptor::descriptor::{Descriptor, Marked};
use task_descriptor::name::Name;
use task_descriptor::places::Places;
use task_descriptor::program::{BuildFault, Parts};

/// The machine instructions, one or two, that an instruction of the text expands to.
#[derive(Clone, Copy, Debug)]
pub enum Expansion {
    /// One machine instruction.
    One(Op),
    /// Two machine instructions, in their order.
    Two(Op, Op),
}

/// The index of a label in code.
fn code_label(labels: &Table, name: &Name) -> Option<u64>
    ensures { result ≡ code_label labels.now name.now }
{
    match labels.get(name) {
        None => None,
        Some(symbol) => match symbol.section {
            Section::Text => Some(symbol.offset),
            Section::Data | Section::Rodata => None,
        },
    }
}

fn is_known_target(labels: &Table, target: &Target) -> bool
    ensures { result ≡ is_known_target labels.now target.now }
{
    match target {
        Target::Label(name) => code_label(labels, name).is_some(),
        Target::Index(_) => true,
    }
}

fn is_known_instruction(labels: &Table, instruction: &Instruction) -> bool
    ensures { result ≡ is_known_instruction labels.now instruction.now }
{
    match instruction {
        Instruction::BranchTwo(_, _, _, target) => is_known_target(labels, target),
        Instruction::BranchOne(_, _, target) => is_known_target(labels, target),
        Instruction::Jump(target) => is_known_target(labels, target),
        Instruction::JumpLink(target) => is_known_target(labels, target),
        Instruction::LoadAddress(_, name) => labels.get(name).is_some(),
        Instruction::One(_) | Instruction::Two(_, _) => true,
    }
}

fn are_known_targets(labels: &Table, targets: &[Target]) -> bool
    ensures { result ≡ list_all (is_known_target labels.now) targets.now }
{
    for target in targets {
        if !is_known_target(labels, target) {
            return false;
        }
    }
    true
}

/// Whether the names of a statement are labels of the wanted kinds.
fn is_known(labels: &Table, statement: &Statement) -> bool
    ensures { result ≡ is_known labels.now statement.now }
{
    match statement {
        Statement::Start(name) => code_label(labels, name).is_some(),
        Statement::Task(task) => {
            code_label(labels, &task.name).is_some()
                && are_known_targets(labels, task.targets.as_slice())
        }
        Statement::Code(instruction, _) => is_known_instruction(labels, instruction),
        _ => true,
    }
}

/// Checks that each name that an item uses is a label of the wanted kind.
///
/// # Errors
///
/// `Unknown` with the line, from 1, of the first item that uses another name.
pub fn check_names(labels: &Table, items: &[PlacedStatement]) -> Result<(), AsmFault>
    ensures { result ≡ known labels.now items.now }
{
    for item in items {
        if !is_known(labels, &item.statement) {
            return Err(AsmFault::Unknown(item.line));
        }
    }
    Ok(())
}

/// The place of an index.
fn place_of(line: u32, index: Option<u64>) -> Result<Place, AsmFault>
    ensures { result ≡ place_of line index }
{
    match index {
        None => Err(AsmFault::Unknown(line)),
        Some(index) => {
            if index > 4096 {
                return Err(AsmFault::Build(BuildFault::TooMany));
            }
            match Place::new(index as u32) {
                Some(place) => Ok(place),
                None => Err(AsmFault::Build(BuildFault::TooMany)),
            }
        }
    }
}

fn target_place(labels: &Table, line: u32, target: &Target) -> Result<Place, AsmFault>
    ensures { result ≡ target_place labels.now line target.now }
{
    match target {
        Target::Label(name) => place_of(line, code_label(labels, name)),
        Target::Index(place) => Ok(*place),
    }
}

/// The highest offset of a label in a section.
fn limit(section: Section) -> u64
    ensures { result ≡ limit section }
{
    match section {
        Section::Text => 4096,
        Section::Data | Section::Rodata => 65_536,
    }
}

/// The address of a label.
#[tactic(auto, unfolding(mips_instructions::specs::Words::address))]
fn label_address(line: u32, symbol: Option<Symbol>) -> Result<u32, AsmFault>
    ensures { result ≡ label_address line symbol }
{
    let Some(symbol) = symbol else {
        return Err(AsmFault::Unknown(line));
    };
    if symbol.offset > limit(symbol.section) {
        return Err(AsmFault::Build(BuildFault::TooMany));
    }
    let offset = symbol.offset as u32;
    match symbol.section {
        Section::Text => Ok(address_of(offset)),
        Section::Data => Ok(DATA_START + offset),
        Section::Rodata => Ok(FIXED_START + offset),
    }
}

/// The address of a label in two instructions.
fn address_pair(rd: Gpr, address: u32) -> Expansion
    ensures { result ≡ Expansion.Two (Lui rd (address / 2 ^ 16)) (Logic LogicKind.Ori rd rd (address % 2 ^ 16)) }
{
    let high = Op::Lui(rd, (address >> 16) as u16);
    let low = Op::Logic(LogicKind::Ori, rd, rd, (address & 0xffff) as u16);
    Expansion::Two(high, low)
}

/// The machine instructions that an instruction expands to.
fn spelled(labels: &Table, line: u32, instruction: &Instruction) -> Result<Expansion, AsmFault>
    ensures { Answers ops_of result (spelled labels.now line instruction.now) }
{
    match instruction {
        Instruction::One(op) => Ok(Expansion::One(*op)),
        Instruction::Two(high, low) => Ok(Expansion::Two(*high, *low)),
        Instruction::BranchTwo(kind, rs, rt, target) => {
            let place = target_place(labels, line, target)?;
            Ok(Expansion::One(Op::BranchTwo(*kind, *rs, *rt, place)))
        }
        Instruction::BranchOne(kind, rs, target) => {
            let place = target_place(labels, line, target)?;
            Ok(Expansion::One(Op::BranchOne(*kind, *rs, place)))
        }
        Instruction::Jump(target) => {
            let place = target_place(labels, line, target)?;
            Ok(Expansion::One(Op::Jump(place)))
        }
        Instruction::JumpLink(target) => {
            let place = target_place(labels, line, target)?;
            Ok(Expansion::One(Op::JumpLink(place)))
        }
        Instruction::LoadAddress(rd, name) => {
            let address = label_address(line, labels.get(name))?;
            Ok(address_pair(*rd, address))
        }
    }
}

/// The places of a task's targets.
#[tactic(auto, using(program_statements::proofs::Fronts::regroup, program_statements::proofs::Fronts::no_front))]
fn target_places(
    alloc: Global,
    labels: &Table,
    line: u32,
    targets: &[Target],
) -> Result<Places, AsmFault>
    ensures { Answers (λ places. places) result (target_places labels.now line targets.now) }
{
    let mut places = Vec::new(alloc);
    for target in targets {
        let place = target_place(labels, line, target)?;
        places.push(place)?;
    }
    Ok(Places::new(places))
}

/// A task's descriptor.
fn descriptor_of(
    alloc: Global,
    labels: &Table,
    line: u32,
    task: &Task,
) -> Result<Descriptor, AsmFault>
    ensures { Answers (λ d. d) result (descriptor labels.now line task.now) }
{
    let entry = place_of(line, code_label(labels, &task.name))?;
    let targets = target_places(alloc, labels, line, task.targets.as_slice())?;
    Ok(Descriptor {
        name: task.name,
        entry,
        create: task.create,
        targets,
    })
}

/// Adds bytes to the data of a section.
fn add_data(parts: &mut Parts, section: Section, bytes: &[u8]) -> Result<(), AllocError>
    ensures { OnOk result (listing_of parts.new ≡ with_data (listing_of parts.old) section bytes.now) }
{
    match section {
        Section::Text => {}
        Section::Data => parts.bytes.extend_from_slice(bytes)?,
        Section::Rodata => parts.fixed.extend_from_slice(bytes)?,
    }
    Ok(())
}

/// Adds zeros after bytes.
fn append_zeros(bytes: &mut Vec<u8>, size: u32) -> Result<(), AllocError>
    ensures { OnOk result (bytes.new.items ≡ bytes.old.items ++ replicate size 0) }
{
    let len = bytes.len() + size as usize;
    bytes.resize(len, 0)
}

/// Adds zeros to the data of a section.
fn add_zeros(parts: &mut Parts, section: Section, size: u32) -> Result<(), AllocError>
    ensures { OnOk result (listing_of parts.new ≡ with_data (listing_of parts.old) section (replicate size 0)) }
{
    match section {
        Section::Text => {}
        Section::Data => append_zeros(&mut parts.bytes, size)?,
        Section::Rodata => append_zeros(&mut parts.fixed, size)?,
    }
    Ok(())
}

/// Adds an instruction with its marks.
fn push_marked(code: &mut Vec<Marked>, op: Op, marks: Marks) -> Result<(), AllocError>
    ensures { OnOk result (code.new.items ≡ code.old.items ++ marked op marks ∷ []) }
{
    code.push(Marked {
        op,
        forward: marks.forward,
        stop: marks.stop,
    })?;
    Ok(())
}

/// Adds instructions; the marks stand on the last.
fn add_code(parts: &mut Parts, marks: Marks, code: Expansion) -> Result<(), AllocError>
    ensures { OnOk result (listing_of parts.new ≡ with_code (listing_of parts.old) (all_marked marks (ops_of code))) }
{
    match code {
        Expansion::One(only) => push_marked(&mut parts.code, only, marks),
        Expansion::Two(first, last) => {
            push_marked(&mut parts.code, first, Marks::NONE)?;
            push_marked(&mut parts.code, last, marks)
        }
    }
}

/// Adds what an item stands for to the program so far.
fn add_part(
    alloc: Global,
    labels: &Table,
    parts: &mut Parts,
    item: &PlacedStatement,
) -> Result<(), AsmFault>
    ensures { Answers (λ _. listing_of parts.new) result (with_part labels.now (listing_of parts.old) item.now) }
{
    match &item.statement {
        Statement::Start(name) => {
            parts.start = place_of(item.line, code_label(labels, name))?;
        }
        Statement::Task(task) => {
            let descriptor = descriptor_of(alloc, labels, item.line, task)?;
            parts.tasks.push(descriptor)?;
        }
        Statement::Bytes(bytes) => add_data(parts, item.section, bytes.as_slice())?,
        Statement::Space(size) => add_zeros(parts, item.section, *size)?,
        Statement::Code(instruction, marks) => match spelled(labels, item.line, instruction) {
            Ok(code) => add_code(parts, *marks, code)?,
            Err(fault) => return Err(fault),
        },
        Statement::Empty | Statement::Label(_) | Statement::Section(_) => {}
    }
    Ok(())
}

/// The parts of the program that items make.
///
/// # Errors
///
/// `Unknown` with the line, from 1, of an item that uses a name which is no label of the wanted kind;
/// `Build(TooMany)` where a label lies beyond what a program may have. `OutOfMemory` where memory was refused.
pub fn parts_of(alloc: Global, labels: &Table, items: &[PlacedStatement]) -> Result<Parts, AsmFault>
    ensures { Answers listing_of result (parts labels.now no_parts items.now) }
{
    let start = match Place::new(0) {
        Some(start) => start,
        None => unreachable!(),
    };
    let mut all = Parts {
        code: Vec::new(alloc),
        bytes: Vec::new(alloc),
        fixed: Vec::new(alloc),
        tasks: Vec::new(alloc),
        start,
    };
    for item in items {
        add_part(alloc, labels, &mut all, item)?;
    }
    Ok(all)
}
