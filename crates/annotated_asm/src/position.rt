//! Positions in a program text, and what begins at them.

use program_statements::statement::Section;
use task_descriptor::name::Name;

/// A line and a column of a text.
#[derive(Clone, Copy, Debug, PartialEq, Eq)]
pub struct Position {
    /// The line, counted from 1.
    pub line: u32,
    /// The column, counted in bytes from 1.
    pub column: usize,
}

/// A part of a line: where it begins and how wide it is.
#[derive(Clone, Copy, Debug, PartialEq, Eq)]
pub struct Stretch {
    /// The position of its first byte.
    pub position: Position,
    /// Its width in bytes.
    pub width: usize,
}

/// The two lists of a `.task` statement in the text.
#[derive(Clone, Copy, Debug, PartialEq, Eq)]
pub struct TaskLists {
    /// `create=` and its registers.
    pub create: Stretch,
    /// `targets=` and its targets.
    pub targets: Stretch,
}

/// A label and its position.
#[derive(Clone, Copy, Debug, PartialEq, Eq)]
pub struct LabelSource {
    /// The label's name.
    pub name: Name,
    /// The position of the name's first byte.
    pub position: Position,
}

/// A `.word`, `.byte` or `.space` statement and its position.
#[derive(Clone, Copy, Debug, PartialEq, Eq)]
pub struct DataSource {
    /// The section that it adds to.
    pub section: Section,
    /// The position of the directive's first byte.
    pub position: Position,
}

/// The map from a program's instructions, tasks, targets and data to their positions in its text.
#[derive(Debug, Drop)]
pub struct SourceMap {
    /// For each machine instruction, index 0 first, the position of the instruction of the text that it is part
    /// of: the two of a pseudo-instruction have one position.
    pub code: Vec<Position>,
    /// For each machine instruction, the width in bytes of the instruction of the text, from its mnemonic to
    /// its last operand or mark.
    pub widths: Vec<usize>,
    /// For each task, task 0 first, the position of its `.task`.
    pub tasks: Vec<Position>,
    /// For each task, its two lists.
    pub lists: Vec<TaskLists>,
    /// For each task, its targets in their order; if it has none, the `-`.
    pub targets: Vec<Vec<Stretch>>,
    /// The labels, in the order of the text.
    pub labels: Vec<LabelSource>,
    /// The pieces of data, in the order of the text.
    pub pieces: Vec<DataSource>,
    /// The position of `.start`, if there is one.
    pub start: Option<Position>,
}
