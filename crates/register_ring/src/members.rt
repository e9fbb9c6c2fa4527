//! Sets of registers, one member after another.

ghost use Rattle.std.specs.Prelude.{◌≡◌, ℕ, ◌<◌, ◌≤◌, true, false, IfSome, IfNone};
ghost use Rattle.mips_instructions.specs.Words.{has};

use mips_instructions::number::{Reg, RegSet};

/// The least member of a set that is `from`, 0..=34, or above; `None` where there is none.
#[inline]
pub fn next_member(set: RegSet, from: u8) -> Option<Reg>
    requires { from ≤ 34 }
    ensures member { IfSome result (λ r. (has set r ≡ true) × (from ≤ r)) }
    ensures range { IfSome result (λ r. r < 34) }
    ensures least { IfSome result (λ r. (s : ℕ) → from ≤ s → s < r → has set s ≡ false) }
    ensures none { IfNone result ((s : ℕ) → from ≤ s → has set s ≡ false) }
{
    let bits = set.bits() >> from;
    if bits == 0 {
        return None;
    }
    Reg::new(from + bits.trailing_zeros() as u8)
}
