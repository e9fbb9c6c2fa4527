//! Advice as rows of a table: what is said of a place and what to do there, as templates that names fill.

use diagnostics::diagnostic::{Help, Replacement, Span};
use diagnostics::words;
use diagnostics::words::Words;
use mark_subjects::parts::help;
use mark_subjects::subject::{Made, Subject};
use std::alloc::Global;
use std::fmt::Display;

/// A message, and what to do.
pub type Advice = (Words, Help);

/// A row of a table of advice. Its texts are templates: each `{name}` is replaced by a word that the place gives, and `{fix}`
/// by what is written in the marked place.
#[derive(Clone, Copy)]
pub struct Row {
    /// The message: what is wrong, or could be better.
    pub says: &'static str,
    /// The message of the help.
    pub help: &'static str,
}

/// The words that fill the templates of a row, by name.
#[derive(Drop)]
pub struct Names {
    alloc: Global,
    words: Vec<(&'static str, Words)>,
}

impl Names {
    /// No words.
    pub fn new(alloc: Global) -> Names {
        let words = Vec::new(alloc);
        Names { alloc, words }
    }

    /// The word `task` alone: the name of a task.
    ///
    /// # Errors
    ///
    /// `AllocError` where memory was refused.
    pub fn of_task(subject: &Subject, task: u32) -> Made<Names> {
        let mut names = Names::new(subject.alloc());
        names.add("task", subject.task(task))?;
        Ok(names)
    }

    /// Adds a word under a name.
    ///
    /// # Errors
    ///
    /// `AllocError` where memory was refused; no word is added then.
    pub fn add<D: Display + Drop>(&mut self, name: &'static str, word: D) -> Made<()> {
        let text = words!(in self.alloc; "{word}")?;
        self.words.push((name, text))?;
        Ok(())
    }

    /// A template with each `{name}` replaced by its word; by nothing where no word has the name.
    ///
    /// # Errors
    ///
    /// `AllocError` where memory was refused.
    pub fn filled(&self, template: &str) -> Made<Words> {
        let mut text = String::new(self.alloc);
        for piece in template.split('{') {
            match piece.split_once('}') {
                Some((name, behind)) => {
                    let word = self.words.iter().find(|word| word.0 == name);
                    text.push_str(word.map_or("", |word| word.1.as_str()))?;
                    text.push_str(behind)?;
                }
                None => text.push_str(piece)?,
            }
        }
        Ok(Words::new(text))
    }

    /// The help with a filled template as its message, and these replacements.
    ///
    /// # Errors
    ///
    /// `AllocError` where memory was refused.
    pub fn help(&self, template: &str, changes: Vec<Replacement>) -> Made<Help> {
        Ok(help(self.filled(template)?, changes))
    }

    /// The help with a filled template as its message alone.
    ///
    /// # Errors
    ///
    /// `AllocError` where memory was refused.
    pub fn advice(&self, template: &str) -> Made<Help> {
        self.help(template, Vec::new(self.alloc))
    }

    /// The message of a row, and its help with these replacements.
    ///
    /// # Errors
    ///
    /// `AllocError` where memory was refused.
    pub fn said(&self, row: Row, changes: Vec<Replacement>) -> Made<Advice> {
        let says = self.filled(row.says)?;
        Ok((says, self.help(row.help, changes)?))
    }

    /// The message of a row, and its help, which writes `text` at `span`. The word `fix` is added.
    ///
    /// # Errors
    ///
    /// `AllocError` where memory was refused; the word `fix` may have been added then.
    pub fn fixed(&mut self, row: Row, span: Span, text: Words) -> Made<Advice> {
        self.add("fix", text.as_str())?;
        self.said(row, vec![in self.alloc; Replacement { span, text }]?)
    }
}
