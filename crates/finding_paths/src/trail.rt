//! The way back from a visit to the first one.

ghost use Rattle.std.specs.Prelude.{◌≡◌, ℕ, ◌<◌, Some, length, slice_get, IfOk};
ghost use Rattle.task_descriptor.specs.Listing.{Listing};
ghost use Rattle.finding_paths.specs.declared.visits.Visit.{Visit};
ghost use Rattle.finding_paths.specs.Witnesses.{ListsPath};
ghost use Rattle.finding_paths.specs.Visits.{AreVisits, ComeFromEarlier, IsAsLong};

use crate::visits::Visit;
use std::alloc::{AllocError, Global};

/// The indices on the way from the first visit to the visit `at`.
pub(crate) fn trail(alloc: Global, visits: &[Visit], at: usize) -> Result<Vec<u32>, AllocError>
    requires there { at < length visits.now }
    requires earlier { ComeFromEarlier visits.now }
    ensures path { IfOk result (λ path. (p : Listing) (start : ℕ) (v : Visit) → AreVisits p start visits.now
        → slice_get visits.now at ≡ Some v → ListsPath p start v.index path.items) }
    ensures long { IfOk result (λ path. IsAsLong visits.now at path.items) }
{
    let mut path = Vec::new(alloc);
    let mut number = at;
    while number > 0 {
        path.push(visits[number].index)?;
        number = visits[number].from;
    }
    path.push(visits[0].index)?;
    path.reverse();
    Ok(path)
}
