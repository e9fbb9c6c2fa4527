//! Which path is looked for, rule by rule.

ghost use Rattle.std.specs.Prelude.{◌≡◌};
ghost use Rattle.finding_paths.specs.Queries.{to_writer, query_of};

use crate::sought::Sought;
use mark_checker::finding::{Finding, Rule};
use mips_instructions::number::Reg;

/// A query for a path inside a task: where it begins and what it reaches.
#[derive(Clone, Copy, Debug, PartialEq, Eq)]
pub struct Query {
    /// The code index of the instruction where the path begins.
    pub start: u32,
    /// Whether the path has at least one edge, even where `start` is what is sought.
    pub onward: bool,
    /// What the path reaches.
    pub sought: Sought,
}

/// The query for an instruction that writes the register, if there is one.
fn to_writer(register: Option<Reg>, start: u32, onward: bool) -> Option<Query>
    ensures { result ≡ to_writer register start onward }
{
    match register {
        Some(register) => Some(Query {
            start,
            onward,
            sought: Sought::Writes(register),
        }),
        None => None,
    }
}

/// The query for a path that shows a finding of the task whose entry is code index `entry`; `None` where the
/// rule concerns masks or targets alone.
pub fn query_of(entry: u32, finding: &Finding) -> Option<Query>
    ensures { result ≡ query_of entry finding.now }
{
    match finding.rule {
        Rule::ExceedsCreate => to_writer(finding.reg, entry, false),
        Rule::ForwardedInNext | Rule::ReleasedInNext => {
            to_writer(finding.reg, finding.index, true)
        }
        Rule::SentNotCreated | Rule::ExitNotListed | Rule::FallsOff | Rule::IndirectGoesOn => {
            Some(Query {
                start: entry,
                onward: false,
                sought: Sought::At(finding.index),
            })
        }
        Rule::EntryWithoutMask
        | Rule::NextWithoutMask
        | Rule::LacksDestination
        | Rule::LacksNext
        | Rule::TargetNotEntry => None,
    }
}
