//! The results of a log as JSON: one for each diagnostic.

use crate::artifact::{write_artifact, write_named};
use crate::columns::Columns;
use crate::paths::{is_listed, left_out};
use diagnostics::code::Code;
use diagnostics::diagnostic::{Diagnostic, Help, Note, Severity, Source, Span};
use diagnostics::files::Files;
use json_text::{JsonText, Written};
use program_tokens::origin::{Origin, origin_of};
use std::alloc::Global;

/// How severe a diagnostic is, in the word of the formats.
pub(crate) fn severity_word(severity: Severity) -> &'static str {
    match severity {
        Severity::Error => "error",
        Severity::Warning => "warning",
        Severity::Note => "note",
    }
}

/// The results that are added to a log, about texts of which one is meant.
#[derive(Drop)]
pub(crate) struct Results<'a> {
    pub(crate) alloc: Global,
    pub(crate) out: &'a mut JsonText,
    pub(crate) files: &'a Files<'a>,
    pub(crate) rules: &'a [Code],
    pub(crate) columns: Columns,
    pub(crate) source: Source,
}

impl<'a> Results<'a> {
    /// Adds a part of a line, as the member of this name.
    fn region(&mut self, name: &str, span: Span) -> Written {
        let Span {
            line,
            column,
            width,
        } = span;
        let start = self.columns.column(self.files, self.source, line, column)?;
        let behind = column.saturating_add(width);
        let end = self.columns.column(self.files, self.source, line, behind)?;
        self.out.object(name)?;
        self.out.number("startLine", line as usize)?;
        self.out.number("startColumn", start)?;
        self.out.number("endColumn", end)?;
        self.out.end()
    }

    /// Adds the text's file, as the member of this name.
    fn file(&mut self) -> Written {
        self.out.key("artifactLocation")?;
        write_artifact(self.alloc, self.out, self.files.text_of(self.source).name)
    }

    /// Adds a location, with a message about it, if there is one: a place in the text, or the text as a whole.
    fn location(&mut self, span: Option<Span>, sentence: &str) -> Written {
        self.out.begin()?;
        self.out.object("physicalLocation")?;
        self.file()?;
        if let Some(span) = span {
            self.region("region", span)?;
        }
        self.out.end()?;
        if !sentence.is_empty() {
            self.out.message("message", sentence)?;
        }
        self.out.end()
    }

    /// Adds a note's path.
    fn flow(&mut self, note: &Note) -> Written {
        let path = note.path.as_slice();
        self.out.begin()?;
        self.out.message("message", note.message.as_str())?;
        self.out.list("threadFlows")?;
        self.out.begin()?;
        self.out.list("locations")?;
        for (number, span) in path.iter().enumerate() {
            if is_listed(path, number) {
                self.out.begin()?;
                self.out.key("location")?;
                self.location(Some(*span), "")?;
                self.out.end()?;
            }
        }
        self.out.end_list()?;
        let count = left_out(path);
        if count > 0 {
            let text = format!(in self.alloc;
                "{count} places in the middle of the path are left out"
            )?;
            self.out.message("message", text.as_str())?;
        }
        self.out.end()?;
        self.out.end_list()?;
        self.out.end()
    }

    /// Adds what is replaced by what.
    fn fix(&mut self, help: &Help) -> Written {
        self.out.begin()?;
        self.out.message("description", help.message.as_str())?;
        self.out.list("artifactChanges")?;
        self.out.begin()?;
        self.file()?;
        self.out.list("replacements")?;
        for change in help.replacements.as_slice() {
            self.out.begin()?;
            self.region("deletedRegion", change.span)?;
            self.out.object("insertedContent")?;
            self.out.text("text", change.text.as_str())?;
            self.out.end()?;
            self.out.end()?;
        }
        self.out.end_list()?;
        self.out.end()?;
        self.out.end_list()?;
        self.out.end()
    }

    /// Adds the line of C that a place comes from, if a comment there names it.
    fn origin(&mut self, span: Span) -> Written {
        let rows = self.files.text_of(self.source).rows;
        let row = rows.get(span.line.saturating_sub(1) as usize);
        let Some(Origin { file, line }) = row.and_then(|row| origin_of(row)) else {
            return Ok(());
        };
        self.out.begin()?;
        self.out.object("physicalLocation")?;
        self.out.key("artifactLocation")?;
        write_named(self.alloc, self.out, file)?;
        self.out.object("region")?;
        self.out.number("startLine", line as usize)?;
        self.out.end()?;
        self.out.end()?;
        let text = format!(in self.alloc; "the instruction comes from line {line} of {file}")?;
        self.out.message("message", text.as_str())?;
        self.out.end()
    }

    /// Adds the line of C, the further places, and what to do: at the first change, or else at the diagnostic's place.
    fn related(&mut self, said: &Diagnostic) -> Written {
        if let Some(span) = said.span {
            self.origin(span)?;
        }
        for note in said.notes.as_slice() {
            self.location(note.span, note.message.as_str())?;
        }
        if let Some(help) = &said.help {
            let change = help.replacements.as_slice().first();
            let place = change.map_or(said.span, |change| Some(change.span));
            self.location(place, help.message.as_str())?;
        }
        Ok(())
    }

    /// Adds the paths, and what to do as changes, of a diagnostic.
    fn flows(&mut self, said: &Diagnostic) -> Written {
        self.out.list("codeFlows")?;
        for note in said.notes.as_slice() {
            if !note.path.as_slice().is_empty() {
                self.flow(note)?;
            }
        }
        self.out.end_list()?;
        self.out.list("fixes")?;
        match &said.help {
            Some(help) if !help.replacements.as_slice().is_empty() => self.fix(help)?,
            _ => {}
        }
        self.out.end_list()
    }

    /// Adds the result of a diagnostic. What stays the same when lines move are its rule, its sentence, and its number among
    /// the results of its text that have both.
    pub(crate) fn add(&mut self, said: &Diagnostic, number: usize) -> Written {
        self.source = said.source;
        let index = self.rules.iter().position(|rule| *rule == said.code);
        self.out.begin()?;
        self.out.text("ruleId", said.code.id())?;
        self.out.number("ruleIndex", index.unwrap_or(0))?;
        self.out.text("level", severity_word(said.severity))?;
        self.out.message("message", said.message.as_str())?;
        self.out.list("locations")?;
        self.location(said.span, "")?;
        self.out.end_list()?;
        self.out.list("relatedLocations")?;
        self.related(said)?;
        self.out.end_list()?;
        self.flows(said)?;
        self.out.object("partialFingerprints")?;
        self.out.text("rule/v1", said.code.id())?;
        self.out.text("sentence/v1", said.message.as_str())?;
        let number = format!(in self.alloc; "{number}")?;
        self.out.text("occurrence/v1", number.as_str())?;
        self.out.end()?;
        self.out.end()
    }
}
