//! Marks that one warning covers.

ghost use Rattle.std.specs.Prelude.{◌≡◌, ◌++◌, IfOk, OnOk};
ghost use Rattle.mark_diagnostics.specs.Together.{are_together, register_of, registers_behind, told_after, told_marks};

use diagnostics::listed::Listed;
use exit_diagnostics::remark::Remark;
use finding_paths::mark::CostlyMark;
use mark_subjects::subject::Made;
use std::alloc::Global;

/// Whether two marks are of one create mask, or of one release.
fn are_together(before: &CostlyMark, mark: &CostlyMark) -> bool
    ensures { result ≡ are_together before.now mark.now }
{
    match (before, mark) {
        (CostlyMark::NeverProduced { task, .. }, CostlyMark::NeverProduced { task: other, .. }) =>
            *task == *other,
        (CostlyMark::SentBefore { index, .. }, CostlyMark::SentBefore { index: other, .. }) =>
            *index == *other,
        _ => false,
    }
}

/// Adds the register of a mark, if it is about one.
fn add_register(list: &mut Vec<u8>, mark: &CostlyMark) -> Made<()>
    ensures { OnOk result (list.new.items ≡ list.old.items ++ register_of mark.now) }
{
    match mark {
        CostlyMark::NeverProduced { register, .. } | CostlyMark::SentBefore { register, .. } => {
            list.push(register.get())?;
        }
        _ => {}
    }
    Ok(())
}

/// The registers of a mark and of those right after it that stand together with it.
fn registers_of(alloc: Global, mark: &CostlyMark, behind: &[CostlyMark]) -> Made<Vec<u8>>
    ensures { IfOk result (λ list. list.items ≡ register_of mark.now ++ registers_behind mark.now behind.now) }
{
    let mut list = Vec::new(alloc);
    add_register(&mut list, mark)?;
    let mut rest = behind;
    while let [next, more @ ..] = rest {
        if !are_together(mark, next) {
            return Ok(list);
        }
        add_register(&mut list, next)?;
        rest = more;
    }
    Ok(list)
}

/// Adds a mark with its registers, unless it stands together with the one before it.
fn add_mark(
    alloc: Global,
    remarks: &mut Vec<Remark>,
    before: Option<CostlyMark>,
    mark: &CostlyMark,
    behind: &[CostlyMark],
) -> Made<()>
    ensures { OnOk result (remarks.new.items ≡ remarks.old.items ++ told_after before mark.now behind.now) }
{
    match before {
        Some(before) if are_together(&before, mark) => Ok(()),
        _ => {
            let list = registers_of(alloc, mark, behind)?;
            remarks.push(Remark::Costly {
                mark: *mark,
                registers: Listed::new(list),
            })?;
            Ok(())
        }
    }
}

/// Adds the marks that cost speed: of those that stand together the first, with the registers of all.
pub(crate) fn add_marks(alloc: Global, remarks: &mut Vec<Remark>, marks: &[CostlyMark]) -> Made<()>
    ensures { OnOk result (remarks.new.items ≡ remarks.old.items ++ told_marks marks.now) }
{
    let mut before = None;
    let mut rest = marks;
    while let [mark, behind @ ..] = rest {
        add_mark(alloc, remarks, before, mark, behind)?;
        before = Some(*mark);
        rest = behind;
    }
    Ok(())
}
