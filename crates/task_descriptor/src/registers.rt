//! That parts name only registers, and that their tasks' names are names, as their types state. These
//! calls do nothing: their contracts expose what the types guarantee.

ghost use Rattle.std.specs.Prelude.{◌≡◌, true};
ghost use Rattle.std.specs.List.{All};
ghost use Rattle.mips_instructions.specs.Words.{has};
ghost use Rattle.task_descriptor.specs.Names.{is_name};
ghost use Rattle.task_descriptor.specs.Listing.{listing_of, OfRegisters, NamesRegisters, IsInRange};

use crate::descriptor::{Descriptor, Marked};
use crate::name::Name;
use crate::program::Parts;
use mips_instructions::number::RegSet;

/// Each register that the parts name is below 34, and each task's name is a name.
pub(crate) fn name_registers(parts: &Parts)
    ensures { IsInRange (listing_of parts.now) }
{
    all_name_registers(&parts.code);
    all_create_registers(&parts.tasks);
    all_have_names(&parts.tasks);
}

fn all_name_registers(code: &[Marked])
    ensures { All NamesRegisters code.now }
{
    for marked in code {
        names_registers(marked);
    }
}

fn all_create_registers(tasks: &[Descriptor])
    ensures { All (λ t. OfRegisters (has t.create)) tasks.now }
{
    for task in tasks {
        has_registers(task.create);
    }
}

fn all_have_names(tasks: &[Descriptor])
    ensures { All (λ t. is_name t.name ≡ true) tasks.now }
{
    for task in tasks {
        has_name(&task.name);
    }
}

fn has_name(name: &Name)
    ensures { is_name name.now ≡ true }
{
    let _ = name.bytes();
}

fn names_registers(marked: &Marked)
    ensures { NamesRegisters marked.now }
{
    has_registers(marked.op.waits());
    has_registers(marked.op.dests());
}

fn has_registers(set: RegSet)
    ensures { OfRegisters (has set) }
{
    let _ = set.bits();
}
