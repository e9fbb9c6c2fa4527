//! The offsets of labels, and names that are defined twice.

ghost use Rattle.std.specs.Prelude.{◌≡◌, List};
ghost use Rattle.annotated_asm.specs.Steps.{Answers};
ghost use Rattle.annotated_asm.specs.Layout.{grown, symbol_at, with_item, no_layout, laid, is_beyond};

use crate::fault::AsmFault;
use crate::item::PlacedStatement;
use crate::line::instruction_count;
use crate::name_key::NameKey;
use crate::table::{Symbol, Table};
use program_statements::statement::{Section, Statement};
use std::alloc::Global;

/// The number of instructions, and of bytes of data and of read-only data.
#[derive(Clone, Copy, Debug, PartialEq, Eq)]
pub struct Sizes {
    /// Machine instructions.
    pub code: u64,
    /// Bytes of data.
    pub bytes: u64,
    /// Bytes of read-only data.
    pub fixed: u64,
}

/// What is known of the items so far: sizes, labels, tasks and the start.
#[derive(Drop)]
pub struct Layout {
    /// The sizes after these items.
    pub sizes: Sizes,
    /// The labels of code and data.
    pub labels: Table,
    /// The names of the `.task` statements.
    pub tasks: Table,
    /// Whether there was a `.start`.
    pub started: bool,
}

/// The sizes with a section grown.
fn grown(sizes: Sizes, section: Section, more: u64) -> Sizes
    ensures { result ≡ grown sizes section more }
{
    match section {
        Section::Text => Sizes {
            code: sizes.code.saturating_add(more),
            bytes: sizes.bytes,
            fixed: sizes.fixed,
        },
        Section::Data => Sizes {
            code: sizes.code,
            bytes: sizes.bytes.saturating_add(more),
            fixed: sizes.fixed,
        },
        Section::Rodata => Sizes {
            code: sizes.code,
            bytes: sizes.bytes,
            fixed: sizes.fixed.saturating_add(more),
        },
    }
}

/// Where the next label of a section stands.
fn symbol_at(sizes: Sizes, section: Section) -> Symbol
    ensures { result ≡ symbol_at sizes section }
{
    let offset = match section {
        Section::Text => sizes.code,
        Section::Data => sizes.bytes,
        Section::Rodata => sizes.fixed,
    };
    Symbol { section, offset }
}

/// Lays out one more item.
fn with_item(alloc: Global, layout: &mut Layout, item: &PlacedStatement) -> Result<(), AsmFault>
    ensures { Answers (λ _. layout.new) result (with_item layout.old item.now) }
{
    let here = symbol_at(layout.sizes, item.section);
    match &item.statement {
        Statement::Label(name) => {
            if layout.labels.get(name).is_some() {
                return Err(AsmFault::Duplicate(item.line));
            }
            layout.labels.add(alloc, name, here)?;
        }
        Statement::Task(task) => {
            if layout.tasks.get(&task.name).is_some() {
                return Err(AsmFault::Duplicate(item.line));
            }
            layout.tasks.add(alloc, &task.name, here)?;
        }
        Statement::Start(_) => {
            if layout.started {
                return Err(AsmFault::Duplicate(item.line));
            }
            layout.started = true;
        }
        Statement::Empty | Statement::Section(_) => {}
        Statement::Bytes(bytes) => {
            layout.sizes = grown(layout.sizes, item.section, bytes.as_slice().len() as u64);
        }
        Statement::Space(size) => {
            layout.sizes = grown(layout.sizes, item.section, u64::from(*size));
        }
        Statement::Code(instruction, _) => {
            layout.sizes = grown(layout.sizes, item.section, instruction_count(instruction));
        }
    }
    Ok(())
}

/// The layout of a text's items.
///
/// # Errors
///
/// `Duplicate` for the first line that defines a label, a task or the start a second time; `OutOfMemory` where
/// memory was refused.
pub fn laid_out(alloc: Global, items: &[PlacedStatement]) -> Result<Layout, AsmFault>
    ensures { Answers (λ layout. layout) result (laid no_layout items.now) }
{
    let key = NameKey::of(items);
    let mut layout = Layout {
        sizes: Sizes {
            code: 0,
            bytes: 0,
            fixed: 0,
        },
        labels: Table::new(alloc, key),
        tasks: Table::new(alloc, key),
        started: false,
    };
    for item in items {
        with_item(alloc, &mut layout, item)?;
    }
    Ok(layout)
}

/// Whether these are more instructions or bytes than a program may have.
pub fn is_beyond(sizes: Sizes) -> bool
    ensures { result ≡ is_beyond sizes }
{
    sizes.code > 4096 || sizes.bytes > 65_536 || sizes.fixed > 65_536
}
