//! The line of C that an instruction comes from.

/// A line of a file.
#[derive(Clone, Copy)]
pub struct Origin<'a> {
    /// The file's name.
    pub file: &'a str,
    /// The line, from 1.
    pub line: u32,
}

/// How many bytes at the end of a row are looked at, which may be as long as a text.
const MOST_BYTES: usize = 4096;

/// The line that a comment `# at FILE:LINE` at the end of a row names, as a translator from C writes it.
pub fn origin_of(row: &[u8]) -> Option<Origin<'_>> {
    let end = row.get(row.len().saturating_sub(MOST_BYTES)..)?;
    let text = str::from_utf8(end).ok()?;
    let (_, place) = text.trim_end().rsplit_once("# at ")?;
    let (file, digits) = place.rsplit_once(':')?;
    match digits.parse::<u32>() {
        Ok(line) if line > 0 && !file.is_empty() => Some(Origin { file, line }),
        _ => None,
    }
}
