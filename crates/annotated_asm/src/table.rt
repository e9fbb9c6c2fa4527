//! Names and their symbols.

use crate::name_key::NameKey;
use indexmap::IndexMap;
use program_statements::statement::Section;
use std::alloc::{AllocError, Global};
use std::marker::Model;
use task_descriptor::name::Name;

/// The value of a label: its section and its offset there.
#[derive(Clone, Copy, Debug, PartialEq, Eq)]
pub struct Symbol {
    /// The section of the label's line.
    pub section: Section,
    /// In code the code index of the next instruction, else the offset in bytes of the next byte.
    pub offset: u64,
}

/// Names with their symbols, in the order of the text; a name is found in one step.
#[derive(Drop)]
pub struct Table {
    // Texts, not vectors: a text is hashed up to 16 bytes at a time, a vector byte by byte.
    rows: IndexMap<String, Symbol, NameKey>,
}

impl Model for Table {
    ghost use Rattle.std.specs.Prelude.{List, ℕ, map};
    ghost use Rattle.annotated_asm.specs.declared.table.Symbol.{Symbol};

    ghost Value = { List (List ℕ × Symbol) };

    ghost use Rattle.std.specs.Prelude.{string_bytes};

    ghost view = { λ t. map (λ e. (string_bytes e.0, e.1)) t.rows.entries };
}

impl Table {
    ghost use Rattle.std.specs.Prelude.{◌≡◌, ◌++◌, [], ◌∷◌, None, OnOk};
    ghost use Rattle.annotated_asm.specs.Tables.{lookup};

    /// A table without names; those added later are hashed with the key.
    pub fn new(alloc: Global, key: NameKey) -> Table
        ensures { result ≡ [] }
    {
        Table {
            rows: IndexMap::with_hasher(alloc, key),
        }
    }

    /// The symbol of a name; `None` where the table does not have the name.
    pub fn get(&self, name: &Name) -> Option<Symbol>
        ensures { result ≡ lookup self.now name.now }
    {
        self.rows.get(name.as_str()).copied()
    }

    /// Adds a name that is not in the table yet.
    ///
    /// # Errors
    ///
    /// `AllocError` where memory was refused; what the table holds then is not known.
    pub fn add(&mut self, alloc: Global, name: &Name, symbol: Symbol) -> Result<(), AllocError>
        requires { lookup self.old name.now ≡ None }
        ensures { OnOk result (self.new ≡ self.old ++ (name.now, symbol) ∷ []) }
    {
        let key = String::from_str(alloc, name.as_str())?;
        self.rows.insert(key, symbol)?;
        Ok(())
    }
}
