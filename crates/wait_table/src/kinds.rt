//! The kinds of reasons for which units wait, and how many waits there are of each.

ghost use Rattle.std.specs.Prelude.{◌≡◌, ◌≤◌};
ghost use Rattle.unit_waits.specs.Counts.{all_waits as all_waits_of};
ghost use Rattle.wait_table.specs.Kinds.{is_for_head as is_for_head_of, is_for_sent as is_for_sent_of, is_for_unsent as is_for_unsent_of, is_of as is_of_kind, part, waits_of as waits_of_kind};

use unit_waits::count::Count;
use unit_waits::waiting::Reason;

/// The kind of a wait's reason.
#[derive(Clone, Copy, Debug, PartialEq, Eq)]
pub enum Kind {
    /// A register that was not sent yet.
    Unsent,
    /// A register that is on its way.
    Sent,
    /// The unit's turn to be the head.
    Head,
    /// Any reason.
    Any,
}

/// Whether a reason is of a kind.
fn is_of(reason: &Reason, kind: Kind) -> bool
    ensures { result ≡ is_of_kind kind reason.now }
{
    match kind {
        Kind::Unsent => is_for_unsent(reason),
        Kind::Sent => is_for_sent(reason),
        Kind::Head => is_for_head(reason),
        Kind::Any => true,
    }
}

/// Whether it is a register that was not sent.
fn is_for_unsent(reason: &Reason) -> bool
    ensures { result ≡ is_for_unsent_of reason.now }
{
    match reason {
        Reason::NeedsRegister(_, owed) | Reason::HasToPass(_, owed) => !owed.is_sent,
        _ => false,
    }
}

/// Whether it is a register on its way.
fn is_for_sent(reason: &Reason) -> bool
    ensures { result ≡ is_for_sent_of reason.now }
{
    match reason {
        Reason::NeedsRegister(_, owed) | Reason::HasToPass(_, owed) => owed.is_sent,
        _ => false,
    }
}

/// Whether it is the turn to be the head.
fn is_for_head(reason: &Reason) -> bool
    ensures { result ≡ is_for_head_of reason.now }
{
    match reason {
        Reason::NeedsHead | Reason::HasFinished => true,
        _ => false,
    }
}

/// How many waits of a count are of a kind: all, or none.
fn part_of(kind: Kind, count: &Count) -> u32
    ensures { result ≡ part kind count.now }
{
    if is_of(&count.first.reason, kind) {
        count.waits
    } else {
        0
    }
}

/// How many waits are of a kind.
pub(crate) fn waits_of(kind: Kind, counts: &[Count]) -> u32
    requires { all_waits_of counts.now ≤ 16000000 }
    ensures { result ≡ waits_of_kind kind counts.now }
{
    let mut waits = 0;
    for count in counts {
        waits += part_of(kind, count);
    }
    waits
}
