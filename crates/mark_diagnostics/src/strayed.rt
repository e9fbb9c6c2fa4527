//! One instruction that no task reaches, at the edge of a task which is to write what it writes: a delay slot may be meant, or
//! a label may stand behind it.

use crate::sending::{writes, written_from};
use crate::warning::is_created;
use diagnostics::words;
use exit_diagnostics::advice::Names;
use exit_diagnostics::jump::{is_behind, is_reached};
use exit_diagnostics::meant::{halts, is_slot};
use exit_diagnostics::stop::entry_of;
use mark_subjects::parts::registers_where;
use mark_subjects::subject::{Made, Subject};
use mips_instructions::instruction::Op;

/// Whether no task reaches an instruction, which writes some register of these.
fn is_strayed(subject: &Subject, index: u32, registers: &[u8]) -> bool {
    let mut registers = registers.iter().copied();
    !is_reached(subject, index)
        && registers.any(|register| register < 34 && writes(subject, index, register))
}

/// The instruction that no task reaches and that writes one of some registers, directly before a task, or behind a jump of it
/// as a delay slot would be.
pub(crate) fn strayed(subject: &Subject, task: u32, registers: &[u8]) -> Option<u32> {
    let entry = entry_of(subject, task);
    let ahead = entry.saturating_sub(1);
    if ahead < entry && is_strayed(subject, ahead, registers) {
        return Some(ahead);
    }
    let entries = subject.entries(task).iter();
    let mut behind = entries.map(|entry| entry.0.saturating_add(1));
    behind.find(|index| is_slot(subject, *index) && is_strayed(subject, *index, registers))
}

/// Whether an instruction writes a register of a task's create mask that the task does not write.
fn is_lacked(subject: &Subject, task: u32, index: u32) -> Made<bool> {
    let start = Some(entry_of(subject, task));
    let lacked = registers_where(subject.alloc(), |register| {
        writes(subject, index, register)
            && (is_created(subject, task, register)
                && !written_from(subject, task, start, register))
    })?;
    Ok(!lacked.is_empty())
}

/// Whether a task that ends before a place lacks what is written there: it is a delay slot.
pub(crate) fn slot_is_lacked(subject: &Subject, index: u32) -> Made<bool> {
    let before = index.saturating_sub(1);
    for task in 0..subject.task_count() {
        if subject.mask(task, before).is_some() && is_lacked(subject, task, index)? {
            return Ok(true);
        }
    }
    Ok(false)
}

/// Whether code belongs to the label behind it: it is a release, to which no call comes back, or the task that begins there
/// lacks what is written.
fn belongs_to_label(subject: &Subject, index: u32) -> Made<bool> {
    if matches!(subject.op(index), Some(Op::Release(_))) && !is_behind(subject, index) {
        return Ok(true);
    }
    match subject.task_at(index.saturating_add(1)) {
        Some(task) => is_lacked(subject, task, index),
        None => Ok(false),
    }
}

/// Whether an instruction does nothing.
fn is_idle(subject: &Subject, index: u32) -> bool {
    match subject.code().get(index as usize) {
        Some(marked) => match marked.op {
            Op::ShiftBy(_, register, _, _) => register.get() == 0,
            _ => false,
        },
        None => true,
    }
}

/// The label directly behind an instruction that does something and is no halt, if a task reaches what is there.
fn label_behind<'a>(subject: &'a Subject, index: u32) -> Option<&'a str> {
    let behind = index.saturating_add(1);
    if halts(subject, index) || is_idle(subject, index) || !is_reached(subject, behind) {
        None
    } else {
        subject.label(behind)
    }
}

/// Adds what to do about one instruction that no task reaches, if a label is behind it, which may be meant before it: first
/// of all, as the word `meant`, if that is seen; and else besides, as `moved`. Returns whether that is seen.
pub(crate) fn name_label(subject: &Subject, index: u32, names: &mut Names) -> Made<bool> {
    let Some(label) = label_behind(subject, index) else {
        return Ok(false);
    };
    let alloc = subject.alloc();
    let is_meant = belongs_to_label(subject, index)?;
    if is_meant {
        names.add(
            "meant",
            words!(in alloc; "is the label {label} meant here? if not, ")?,
        )?;
    } else {
        names.add(
            "moved",
            words!(in alloc; "; or move the label {label} here")?,
        )?;
    }
    Ok(is_meant)
}
