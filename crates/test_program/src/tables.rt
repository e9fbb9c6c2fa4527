//! Tables of examples, and their rows.

use crate::expected::push_line;
use crate::lines::{Line, line_of};
use crate::rows::{Command, Runtime, TableRow};
use std::fs::File;
use std::io::Write;
use std::{fs, io, mem};

/// A table that is being read.
#[derive(Drop)]
struct Table<'a, R> {
    host: &'a HostRuntime,
    rt: &'a R,
    path: &'a str,
    // The file that is being written.
    file: Option<File>,
    row: TableRow<'a>,
    // How many command lines were run.
    count: usize,
    // Whether nothing was reported so far.
    is_right: bool,
}

/// Runs the rows of the table of this path in their order. It reports the command lines whose output differs from their
/// row, the lines that it does not understand, and last how many command lines it ran. False if there was a difference or
/// such a line.
///
/// # Errors
///
/// The error of the system where the table or a file of its rows cannot be read, the report cannot be written, or memory was
/// refused.
pub fn run_table(
    host: &HostRuntime,
    rt: &impl Runtime,
    path: &str,
    told: &mut impl Write,
) -> io::Result<bool> {
    let text = fs::read_to_string(host, path)?;
    let mut table = Table {
        host,
        rt,
        path,
        file: None,
        row: TableRow::new(host.alloc()),
        count: 0,
        is_right: true,
    };
    for (index, line) in text.split('\n').enumerate() {
        table.read(index.saturating_add(1), line, told)?;
    }
    table.close(told)
}

impl<'a, R: Runtime> Table<'a, R> {
    // Does what a line says, or reports that it does not understand it.
    fn read(&mut self, number: usize, line: &'a str, told: &mut impl Write) -> io::Result<()> {
        let is_understood = match line_of(line) {
            Some(line) => self.take(number, line, told)?,
            None => false,
        };
        if is_understood {
            return Ok(());
        }
        self.is_right = false;
        writeln!(
            told,
            "{} line {number} is not understood: {line}",
            self.path
        )
    }

    // Does what a line says; whether it can stand here.
    fn take(&mut self, number: usize, line: Line<'a>, told: &mut impl Write) -> io::Result<bool> {
        match line {
            Line::Remark => Ok(true),
            Line::File(name) => self.begin(name),
            Line::Text(text) => self.write(text),
            Line::Texts(count, text) => self.write_numbered(count, text),
            Line::Command(words) => self.add(Command {
                number,
                words,
                is_terminal: false,
            }),
            Line::OnTerminal(words) => self.add(Command {
                number,
                words,
                is_terminal: true,
            }),
            Line::Status(status) => self.run(status, told),
            _ => self.expect(line),
        }
    }

    // Runs the row, if it has a command line, and begins another one.
    fn run(&mut self, status: u8, told: &mut impl Write) -> io::Result<bool> {
        if self.row.commands.is_empty() {
            return Ok(false);
        }
        let row = mem::replace(&mut self.row, TableRow::new(self.host.alloc()));
        if !row.run(self.host, self.rt, self.path, status, told)? {
            self.is_right = false;
        }
        self.count = self.count.saturating_add(row.commands.len());
        Ok(true)
    }
}

impl<'a, R> Table<'a, R> {
    // Makes a file of this name, with nothing in it; whether it can stand here.
    fn begin(&mut self, name: &str) -> io::Result<bool> {
        if !self.row.commands.is_empty() {
            return Ok(false);
        }
        self.file = Some(fs::create(self.host, name)?);
        Ok(true)
    }

    // Writes a line to the file, if there is one and it can stand here.
    fn write(&mut self, text: &str) -> io::Result<bool> {
        let Some(file) = &mut self.file else {
            return Ok(false);
        };
        if !self.row.commands.is_empty() {
            return Ok(false);
        }
        let mut line = Vec::new(self.host.alloc());
        push_line(&mut line, text)?;
        file.write_all(line.as_slice())?;
        Ok(true)
    }

    // Writes so many lines to the file, each with its number, if there is one and they can stand here.
    fn write_numbered(&mut self, count: u32, text: &str) -> io::Result<bool> {
        for number in 0..count {
            let number = format!(in self.host.alloc(); "{number}")?;
            let line = text.replace(self.host.alloc(), "{}", number.as_str())?;
            if !self.write(line.as_str())? {
                return Ok(false);
            }
        }
        Ok(true)
    }

    // Adds a command line to the row, if nothing is expected yet of those before it.
    fn add(&mut self, command: Command<'a>) -> io::Result<bool> {
        if !self.row.output.is_empty() || !self.row.errors.is_empty() {
            return Ok(false);
        }
        self.row.commands.push(command)?;
        Ok(true)
    }

    // Adds a line to what is expected of the row, if it has a command line.
    fn expect(&mut self, line: Line<'a>) -> io::Result<bool> {
        if self.row.commands.is_empty() {
            return Ok(false);
        }
        match line {
            Line::Output(text) => self.row.output.push(text)?,
            Line::AnyOutput => return Ok(self.row.output.skip()),
            Line::Errors(text) => self.row.errors.push(text)?,
            Line::AnyErrors => return Ok(self.row.errors.skip()),
            _ => return Ok(false),
        }
        Ok(true)
    }

    // Tells how many command lines were run, and whether some were not; whether all is right.
    fn close(self, told: &mut impl Write) -> io::Result<bool> {
        let Table {
            path,
            row,
            count,
            is_right,
            ..
        } = self;
        let is_whole = row.commands.is_empty();
        if !is_whole {
            writeln!(
                told,
                "{path} ends in a row with no status, which was not run"
            )?;
        }
        writeln!(told, "{path}: {count} command lines")?;
        Ok(is_right && is_whole && count > 0)
    }
}
