//! Which registers instructions write or release, and which instructions write them last.

ghost use Rattle.std.specs.Prelude.{◌≡◌, ℕ, ◌<◌, ◌↔◌, true, length};
ghost use Rattle.std.specs.List.{All};
ghost use Rattle.mips_instructions.specs.Words.{has};
ghost use Rattle.task_descriptor.specs.Listing.{Listing};
ghost use Rattle.annotator.specs.Proposed.{produces as produces_of, WritesLast};
ghost use Rattle.annotator.specs.Marking.{WrittenBehind, indices_of, ProducedAt};

use mips_instructions::instruction::Op;
use mips_instructions::number::RegSet;
use task_descriptor::descriptor::Marked;
use task_descriptor::marks::has_member;

/// Whether an instruction is a last update: it has a destination, and none of its destinations is in `again`,
/// the registers that may be written again after it.
pub fn writes_last(op: &Op, again: RegSet) -> bool
    ensures { (program : Listing) (index : ℕ)
        → ((r : ℕ) → (has again r ≡ true) ↔ WrittenBehind program index r)
        → (result ≡ true) ↔ WritesLast program index op.now }
{
    let written = op.dests();
    has_member(written) && written.is_subset(written.minus(again))
}

/// The registers that the instructions at the code indices of a list write or release.
pub fn produced_at(code: &[Marked], list: &[(u32, RegSet)]) -> RegSet
    requires { All (λ entry. entry.0 < length code.now) list.now }
    ensures { (r : ℕ) → (has result r ≡ true) ↔ ProducedAt code.now (indices_of list.now) r }
{
    let mut set = RegSet::empty();
    for (index, _) in list {
        set = set.union(produces(&code[*index as usize].op));
    }
    set
}

/// The registers that an instruction writes or releases.
fn produces(op: &Op) -> RegSet
    ensures { (r : ℕ) → has result r ≡ produces_of op.now r }
{
    match op {
        Op::Release(set) => *set,
        _ => op.dests(),
    }
}
