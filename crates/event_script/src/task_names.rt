//! The numbers of tasks, by their names.

use crate::name_key::NameKey;
use indexmap::IndexSet;
use std::alloc::{AllocError, Global};
use std::marker::Model;
use task_descriptor::descriptor::Descriptor;
use task_descriptor::name::Name;

/// The names of a program's tasks, in their order: a name's task number is found without comparing it with
/// every other one.
#[derive(Drop)]
pub struct TaskNames {
    // Texts, not names: a text is hashed up to 16 bytes at a time, and compared as bytes.
    names: IndexSet<String, NameKey>,
}

impl Model for TaskNames {
    ghost use Rattle.std.specs.Prelude.{List, ℕ, map, string_bytes};

    ghost Value = { List (List ℕ) };

    ghost view = { λ t. map string_bytes t.names.keys };
}

impl TaskNames {
    ghost use Rattle.std.specs.Prelude.{◌≡◌, ◌<◌, false, length, position, IfOk, IfSome};
    ghost use Rattle.std.specs.Str.{bytes_eq};
    ghost use Rattle.task_descriptor.specs.Listing.{has_duplicate};
    ghost use Rattle.event_script.specs.EventScript.{names_in};

    /// The names of these tasks, task 0 first; no two tasks share a name.
    ///
    /// # Errors
    ///
    /// `AllocError` where memory was refused.
    pub fn of(alloc: Global, tasks: &[Descriptor]) -> Result<TaskNames, AllocError>
        requires { has_duplicate tasks.now ≡ false }
        ensures { IfOk result (λ names. names ≡ names_in tasks.now) }
    {
        let mut names = IndexSet::with_hasher(alloc, NameKey::of(tasks));
        for task in tasks {
            names.insert(String::from_str(alloc, task.name.as_str())?)?;
        }
        Ok(TaskNames { names })
    }

    /// The number, from 0, of the task of this name; `None` where no task has it.
    pub fn number_of(&self, name: &Name) -> Option<usize>
        ensures number { result ≡ position (λ other. bytes_eq other name.now) self.now }
        ensures within { IfSome result (λ number. number < length self.now) }
    {
        self.names.get_index_of(name.as_str())
    }
}
