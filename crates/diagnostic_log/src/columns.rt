//! Columns in characters, from columns in bytes.

use diagnostics::diagnostic::Source;
use diagnostics::files::Files;
use std::alloc::{AllocError, Global};

/// How many bytes of a line are counted at most for one column.
const STEP: usize = 1_024;

/// A line that is longer than this, and how many bytes before each 1,024th of it continue a character: so a column
/// far to the right does not cost the whole line.
#[derive(Drop)]
struct Ruler {
    source: Source,
    line: u32,
    marks: Vec<usize>,
}

/// The columns of some texts.
#[derive(Drop)]
pub(crate) struct Columns {
    alloc: Global,
    rulers: Vec<Ruler>,
}

/// How many bytes continue a character.
fn inside(bytes: &[u8]) -> usize {
    let inside = bytes.iter().filter(|byte| matches!(**byte, 128..=191));
    inside.count()
}

/// The marks of a line.
fn marks_of(alloc: Global, row: &[u8]) -> Result<Vec<usize>, AllocError> {
    let mut marks = Vec::new(alloc);
    let mut count = 0usize;
    for piece in row.chunks(STEP) {
        marks.push(count)?;
        count = count.saturating_add(inside(piece));
    }
    Ok(marks)
}

impl Columns {
    /// The columns of texts that nothing is known of yet.
    pub(crate) fn new(alloc: Global) -> Columns {
        let rulers = Vec::new(alloc);
        Columns { alloc, rulers }
    }

    /// How many bytes before a mark of a line continue a character.
    fn mark(
        &mut self,
        source: Source,
        line: u32,
        row: &[u8],
        index: usize,
    ) -> Result<usize, AllocError> {
        if index == 0 {
            return Ok(0);
        }
        for ruler in &self.rulers {
            if ruler.line == line && ruler.source == source {
                return Ok(ruler.marks.get(index).copied().unwrap_or(0));
            }
        }
        let marks = marks_of(self.alloc, row)?;
        let count = marks.get(index).copied().unwrap_or(0);
        self.rulers.push(Ruler {
            source,
            line,
            marks,
        })?;
        Ok(count)
    }

    /// A column in characters, from one in bytes.
    pub(crate) fn column(
        &mut self,
        files: &Files<'_>,
        source: Source,
        line: u32,
        column: usize,
    ) -> Result<usize, AllocError> {
        let rows = files.text_of(source).rows;
        let Some(row) = rows.get(line.saturating_sub(1) as usize) else {
            return Ok(column);
        };
        let end = column.saturating_sub(1).min(row.len());
        let rest = end % STEP;
        let before = self.mark(source, line, row, end / STEP)?;
        let count = before.saturating_add(inside(&row[end - rest..end]));
        Ok(column.saturating_sub(count))
    }
}
