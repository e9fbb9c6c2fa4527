//! The lines of a table of examples.

/// The meaning of a line of a table. Its first word is its kind, and the rest comes after one blank.
#[derive(Clone, Copy)]
pub enum Line<'a> {
    /// `# ..`, or an empty line: nothing.
    Remark,
    /// `@ NAME`: here begins a file of this name.
    File(&'a str),
    /// `| TEXT`: the next line of that file.
    Text(&'a str),
    /// `* COUNT TEXT`: its next COUNT lines, each with its number, from 0, in place of `{}`.
    Texts(u32, &'a str),
    /// `$ WORDS`: a command line.
    Command(&'a str),
    /// `% WORDS`: a command line where standard error is a terminal.
    OnTerminal(&'a str),
    /// `> TEXT`: the next line that standard output is to get.
    Output(&'a str),
    /// `>...`: any text on standard output.
    AnyOutput,
    /// `! TEXT`: the next line that standard error is to get.
    Errors(&'a str),
    /// `!...`: any text on standard error.
    AnyErrors,
    /// `= STATUS`: the status, and so the end of the row.
    Status(u8),
}

/// The meaning of a line; `None` if it is no line of a table.
pub fn line_of(line: &str) -> Option<Line<'_>> {
    if line.is_empty() {
        return Some(Line::Remark);
    }
    let (kind, rest) = line.split_once(' ').unwrap_or((line, ""));
    match kind {
        "#" => Some(Line::Remark),
        "@" => Some(Line::File(rest)),
        "|" => Some(Line::Text(rest)),
        "*" => {
            let (count, text) = rest.split_once(' ')?;
            Some(Line::Texts(count.parse().ok()?, text))
        }
        "$" => Some(Line::Command(rest)),
        "%" => Some(Line::OnTerminal(rest)),
        ">" => Some(Line::Output(rest)),
        ">..." => Some(Line::AnyOutput),
        "!" => Some(Line::Errors(rest)),
        "!..." => Some(Line::AnyErrors),
        "=" => Some(Line::Status(rest.parse().ok()?)),
        _ => None,
    }
}
