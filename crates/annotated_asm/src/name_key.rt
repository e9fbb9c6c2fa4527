//! The key of the tables of names.

ghost use Rattle.std.specs.Prelude.{◌≡◌};
ghost use Rattle.annotated_asm.specs.NameKeys.{after_name, keyed_by};

use crate::item::PlacedStatement;
use program_statements::statement::Statement;
use std::hash::{BuildHasher, DefaultHasher, FoldHasher, Hasher};

/// The key, of 64 bits, with which the tables of names hash; it depends on every name of the text.
///
/// With hashers that are the same for every text, names could be chosen that all fall into one group of a
/// table; each look-up would then walk through all of them.
#[derive(Clone, Copy)]
pub struct NameKey {
    hasher: FoldHasher,
}

/// Takes in the name that an item defines, if it defines one.
fn take_name(names: &mut DefaultHasher, item: &PlacedStatement)
    ensures { names.new ≡ after_name names.old item.now }
{
    match &item.statement {
        Statement::Label(name) => names.write(name.bytes()),
        Statement::Task(task) => names.write(task.name.bytes()),
        _ => {}
    }
}

impl NameKey {
    /// The key for the labels and tasks that items define.
    pub fn of(items: &[PlacedStatement]) -> NameKey
        ensures { result.hasher ≡ keyed_by items.now }
    {
        let mut names = DefaultHasher::new();
        for item in items {
            take_name(&mut names, item);
        }
        let mut hasher = FoldHasher::default();
        hasher.write_u64(names.finish());
        NameKey { hasher }
    }
}

impl BuildHasher for NameKey {
    type Hasher = FoldHasher;

    ghost build_hasher = { λ key. key.hasher };

    fn build_hasher(&self) -> FoldHasher {
        self.hasher
    }
}
