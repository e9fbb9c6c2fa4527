//! The texts that diagnostics are about.

use crate::diagnostic::Source;

/// A text file: its name and its lines, each without its LF; no lines if the text is not available.
#[derive(Clone, Copy)]
pub struct TextFile<'a> {
    /// The name of the file, as messages give it.
    pub name: &'a str,
    /// The lines, line 1 first.
    pub rows: &'a [&'a [u8]],
}

/// The text files of a command. One that the command lacks has an empty name and no lines.
#[derive(Clone, Copy)]
pub struct Files<'a> {
    /// The program text.
    pub program: TextFile<'a>,
    /// The certificate.
    pub certificate: TextFile<'a>,
    /// The event script.
    pub script: TextFile<'a>,
}

impl<'a> Files<'a> {
    /// The text file that diagnostics of this source are about.
    pub fn text_of(&self, source: Source) -> &TextFile<'a> {
        match source {
            Source::Program => &self.program,
            Source::Certificate => &self.certificate,
            Source::Script => &self.script,
        }
    }
}
