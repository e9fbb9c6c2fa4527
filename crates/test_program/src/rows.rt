//! A row of a table: command lines, and the output that each of them is to have.

use crate::expected::Expected;
use program_edge::answer::answer_reader;
use program_edge::asked::asked_by;
use program_edge::named_files::SystemFiles;
use result_files::system::SystemFolder;
use std::alloc::{AllocError, Global};
use std::io;
use std::io::Write;
use std::marker::Sync;
use std::sync::Wait;
use std::thread::Threads;

/// A runtime that can make threads and wait.
pub trait Runtime: Threads + Wait + Sync {}

impl<R: Threads + Wait + Sync> Runtime for R {}

/// The process number by which the program names new files in the tests.
pub const NUMBER: u32 = 1;

/// A command line of a table.
#[derive(Clone, Copy)]
pub struct Command<'a> {
    /// The number of its line in the table, from 1.
    pub number: usize,
    /// The words after the program's name.
    pub words: &'a str,
    /// Whether standard error is a terminal.
    pub is_terminal: bool,
}

/// Command lines with equal expected output.
#[derive(Drop)]
pub struct TableRow<'a> {
    /// The command lines.
    pub commands: Vec<Command<'a>>,
    /// What standard output is to get.
    pub output: Expected,
    /// What standard error is to get.
    pub errors: Expected,
}

// What a command line wrote, and its status.
#[derive(Drop)]
struct Written {
    output: Vec<u8>,
    errors: Vec<u8>,
    status: u8,
}

impl<'a> TableRow<'a> {
    /// An empty row.
    pub fn new(alloc: Global) -> TableRow<'a> {
        TableRow {
            commands: Vec::new(alloc),
            output: Expected::new(alloc),
            errors: Expected::new(alloc),
        }
    }

    /// Runs each command line, and reports those whose output differs from the row; returns whether there is none.
    ///
    /// # Errors
    ///
    /// The error of the system where the report cannot be written, or memory was refused.
    pub fn run(
        &self,
        host: &HostRuntime,
        rt: &impl Runtime,
        path: &str,
        status: u8,
        told: &mut impl Write,
    ) -> io::Result<bool> {
        let mut is_right = true;
        for command in &self.commands {
            is_right = self.judge(host, rt, path, command, status, told)? && is_right;
        }
        Ok(is_right)
    }

    // Runs a command line, and reports it if its output differs from the row; answers whether it does not.
    fn judge(
        &self,
        host: &HostRuntime,
        rt: &impl Runtime,
        path: &str,
        command: &Command<'_>,
        status: u8,
        told: &mut impl Write,
    ) -> io::Result<bool> {
        let written = command.run(host, rt)?;
        let fits = written.status == status
            && self.output.fits(written.output.as_slice())
            && self.errors.fits(written.errors.as_slice());
        if fits {
            return Ok(true);
        }
        let Command { number, words, .. } = *command;
        writeln!(told, "{path} line {number} differs: multiscalar {words}")?;
        written.show(told)?;
        Ok(false)
    }
}

impl Command<'_> {
    // What the program writes to its two streams, and its status.
    fn run(&self, host: &HostRuntime, rt: &impl Runtime) -> Result<Written, AllocError> {
        let alloc = host.alloc();
        let words = words_of(alloc, self.words)?;
        let asked = asked_by(alloc, words.as_slice());
        let mut folder = SystemFolder::new(host, alloc, NUMBER);
        let mut output = Vec::new(alloc);
        let mut errors = Vec::new(alloc);
        let ending = answer_reader(
            rt,
            alloc,
            asked,
            &SystemFiles::new(host),
            &mut folder,
            &mut output,
            &mut errors,
            self.is_terminal,
        );
        Ok(Written {
            output,
            errors,
            status: ending.status,
        })
    }
}

impl Written {
    // Writes it, with a line before standard error and before the status.
    fn show(&self, told: &mut impl Write) -> io::Result<()> {
        told.write_all(self.output.as_slice())?;
        if !self.errors.is_empty() {
            writeln!(told, "standard error:")?;
            told.write_all(self.errors.as_slice())?;
        }
        writeln!(told, "status {}", self.status)
    }
}

// The words of a command line, the name of the program first.
fn words_of(alloc: Global, line: &str) -> Result<Vec<String>, AllocError> {
    let mut words = Vec::new(alloc);
    words.push(String::from_str(alloc, "multiscalar")?)?;
    for word in line.split(' ') {
        words.push(String::from_str(alloc, word)?)?;
    }
    Ok(words)
}
