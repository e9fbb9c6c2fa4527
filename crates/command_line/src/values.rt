//! The values of a subcommand's arguments, by their names.
ghost use Rattle.std.specs.Prelude.{◌≡◌, IfErr, IfOk, Some, map, option_map};
ghost use Rattle.std.specs.String.{string_bytes};
ghost use Rattle.clap.specs.Words.{first_of};
ghost use Rattle.command_line.specs.Asked.{Refuses, is_given, number_at, values_at, values_in};

use crate::command::error_of_kind;
use crate::words::UsageFault;
use clap::ArgMatches;
use clap::error::ErrorKind;
use std::alloc::{AllocError, Global};

/// The values of the arguments of the subcommand of this name.
#[derive(Clone, Copy)]
pub(crate) struct Values<'v, 'a> {
    pub(crate) alloc: Global,
    pub(crate) name: &'v str,
    pub(crate) matches: &'v ArgMatches<'a>,
}

impl<'v, 'a> Values<'v, 'a> {
    /// The value of a file or an option.
    pub(crate) fn text(&self, id: &str) -> Option<&'a str>
        ensures { option_map (λ t. t.now) result ≡ first_of id.now (values_in self.now.matches.now) }
    {
        self.matches.get_str(id)
    }

    /// Whether an option without a value is given.
    pub(crate) fn is_given(&self, id: &str) -> bool
        ensures { result ≡ is_given id.now (values_in self.now.matches.now) }
    {
        match self.text(id) {
            Some(word) => word == "true",
            None => false,
        }
    }

    /// The value of an option with a number.
    pub(crate) fn number(&self, id: &str) -> Option<u32>
        ensures { result ≡ number_at id.now (values_in self.now.matches.now) }
    {
        self.matches.get_one::<u32>(id)
    }

    /// What the value of an option stands for, by this table; `message` says what it may be.
    pub(crate) fn word<T: Copy>(
        &self,
        id: &str,
        table: &[(&str, T)],
        message: &str,
    ) -> Result<T, UsageFault>
        ensures { IfErr result (Refuses self.now.name.now (values_in self.now.matches.now)) }
    {
        let word = self.text(id).unwrap_or("");
        match table.iter().find(|row| row.0 == word) {
            Some(row) => Ok(row.1),
            None => Err(self.fault(ErrorKind::InvalidValue, message)),
        }
    }

    /// The name of a file.
    pub(crate) fn path(&self, id: &str) -> Result<String, UsageFault>
        ensures value { IfOk result (λ path. first_of id.now (values_in self.now.matches.now) ≡ Some (string_bytes path)) }
        ensures fault { IfErr result (Refuses self.now.name.now (values_in self.now.matches.now)) }
    {
        match self.text(id) {
            Some(path) => Ok(String::from_str(self.alloc, path)?),
            // All other files are missed before: by `clap`, or where the certificate is looked for.
            None => Err(self.fault(
                ErrorKind::MissingRequiredArgument,
                "a file is missing: give SCRIPT",
            )),
        }
    }

    /// The name of a file that need not be named.
    pub(crate) fn free_path(&self, id: &str) -> Result<Option<String>, AllocError>
        ensures { IfOk result (λ path. first_of id.now (values_in self.now.matches.now) ≡ option_map string_bytes path) }
    {
        match self.text(id) {
            Some(path) => Ok(Some(String::from_str(self.alloc, path)?)),
            None => Ok(None),
        }
    }

    /// The names of files, in the order of the words.
    pub(crate) fn names(&self, id: &str) -> Result<Vec<String>, AllocError>
        ensures { IfOk result (λ names. map string_bytes names.items ≡ values_at id.now (values_in self.now.matches.now)) }
    {
        match self.matches.get_strs(id) {
            Some(texts) => names_of(self.alloc, texts),
            None => Ok(Vec::new(self.alloc)),
        }
    }

    /// A number in its range. `clap` sees to it that there is one.
    pub(crate) fn there<T>(&self, number: Option<T>) -> Result<T, UsageFault>
        ensures value { IfOk result (λ there. number ≡ Some there) }
        ensures fault { IfErr result (Refuses self.now.name.now (values_in self.now.matches.now)) }
    {
        match number {
            Some(number) => Ok(number),
            None => Err(self.no_job()),
        }
    }

    /// The fault of words that `clap` lets through and that are no job, of which there are none.
    pub(crate) fn no_job(&self) -> UsageFault
        ensures { Refuses self.now.name.now (values_in self.now.matches.now) result }
    {
        self.fault(ErrorKind::MissingSubcommand, "no job")
    }

    /// A fault of `clap`'s, with the usage of the subcommand.
    pub(crate) fn fault(&self, kind: ErrorKind, message: &str) -> UsageFault
        ensures { Refuses self.now.name.now (values_in self.now.matches.now) result }
    {
        match error_of_kind(self.alloc, self.name, kind, message) {
            Ok(error) => UsageFault::Words(error),
            Err(AllocError) => UsageFault::OutOfMemory,
        }
    }
}

fn names_of(alloc: Global, texts: &[&str]) -> Result<Vec<String>, AllocError>
    ensures { IfOk result (λ names. map string_bytes names.items ≡ map (λ t. t.now) texts.now) }
{
    let mut names = Vec::new(alloc);
    for text in texts {
        names.push(String::from_str(alloc, text)?)?;
    }
    Ok(names)
}
