//! The key of the index of task names.

ghost use Rattle.std.specs.Prelude.{◌≡◌};
ghost use Rattle.event_script.specs.NameKeys.{keyed_by};

use std::hash::{BuildHasher, DefaultHasher, FoldHasher, Hasher};
use task_descriptor::descriptor::Descriptor;

/// Makes the hashers of the index, from a key of 64 bits that depends on the name of every task.
///
/// With hashers that are the same for every program, names could be chosen that all fall into one group of
/// the index; each line of a script that names one of them would then walk through all of them.
#[derive(Clone, Copy)]
pub(crate) struct NameKey {
    hasher: FoldHasher,
}

impl NameKey {
    /// The key of the names of tasks.
    pub(crate) fn of(tasks: &[Descriptor]) -> NameKey
        ensures { result.hasher ≡ keyed_by tasks.now }
    {
        let mut names = DefaultHasher::new();
        for task in tasks {
            names.write(task.name.bytes());
        }
        let mut hasher = FoldHasher::default();
        hasher.write_u64(names.finish());
        NameKey { hasher }
    }
}

impl BuildHasher for NameKey {
    type Hasher = FoldHasher;

    ghost build_hasher = { λ key. key.hasher };

    fn build_hasher(&self) -> FoldHasher {
        self.hasher
    }
}
