//! Findings: what the rules report against a program and its certificate.

use mips_instructions::number::Reg;
use std::marker::Model;

/// The twelve rules on a task's places. The create mask, forward bits, releases and stop bits are the paper's
/// (Sohi, Breach, Vijaykumar, "Multiscalar Processors", ISCA 1995, section 2.2); the rules on masks are this
/// project's choice.
#[derive(Clone, Copy, Debug, PartialEq, Eq)]
pub enum Rule {
    /// 1: the task's entry has no mask.
    EntryWithoutMask,
    /// 2: an inner successor has no mask.
    NextWithoutMask,
    /// 3: the mask lacks a destination of the instruction.
    LacksDestination,
    /// 4: the mask lacks a register of an inner successor's mask.
    LacksNext,
    /// 5: the entry's mask has a register outside of the create mask.
    ExceedsCreate,
    /// 6: a forwarded register is in an inner successor's mask, so it may be written again.
    ForwardedInNext,
    /// 7: a released register is in an inner successor's mask, so it may be written again.
    ReleasedInNext,
    /// 8: a forwarded or released register is not in the create mask.
    SentNotCreated,
    /// 9: a direct exit is not a listed target.
    ExitNotListed,
    /// 10: an inner edge leads to no instruction.
    FallsOff,
    /// 11: a jump to an address in a register that doesn't stop always.
    IndirectGoesOn,
    /// 12: a listed target is no task's entry.
    TargetNotEntry,
}

impl Rule {
    ghost use Rattle.std.specs.Prelude.{◌≡◌};
    ghost use Rattle.mark_checker.specs.Numbers.{number_of};

    /// The rule's number, 1..=12.
    pub fn number(self) -> u8
        ensures { result ≡ number_of self }
    {
        match self {
            Rule::EntryWithoutMask => 1,
            Rule::NextWithoutMask => 2,
            Rule::LacksDestination => 3,
            Rule::LacksNext => 4,
            Rule::ExceedsCreate => 5,
            Rule::ForwardedInNext => 6,
            Rule::ReleasedInNext => 7,
            Rule::SentNotCreated => 8,
            Rule::ExitNotListed => 9,
            Rule::FallsOff => 10,
            Rule::IndirectGoesOn => 11,
            Rule::TargetNotEntry => 12,
        }
    }
}

/// A rule that is broken, with the task, the instruction and the register.
#[derive(Clone, Copy, Debug, PartialEq, Eq)]
pub struct Finding {
    /// The task's number, from 0.
    pub task: u32,
    /// The code index of the instruction.
    pub index: u32,
    /// The rule that is broken.
    pub rule: Rule,
    /// The register, 0..=33, for rules 3 to 8; `None` for the others.
    pub reg: Option<Reg>,
}

/// A list of findings, in order of task, code index, rule and register.
#[derive(Debug, Drop)]
pub struct Findings {
    items: Vec<Finding>,
}

impl Model for Findings {
    ghost use Rattle.std.specs.Prelude.{List};
    ghost use Rattle.mark_checker.specs.declared.finding.Finding.{Finding};

    ghost Value = { List Finding };

    ghost view = { λ findings. findings.items.items };
}

impl Findings {
    ghost use Rattle.std.specs.Prelude.{◌≡◌};

    /// The findings of a list, in its order.
    pub fn new(items: Vec<Finding>) -> Findings
        ensures { result ≡ items.items }
    {
        Findings { items }
    }

    /// The findings, in their order.
    pub fn as_slice(&self) -> &[Finding]
        ensures { result.now ≡ self.now }
    {
        &self.items
    }

    /// The findings as a `Vec`, in their order.
    pub fn into_vec(self) -> Vec<Finding>
        ensures { result.items ≡ self }
    {
        let Findings { items } = self;
        items
    }
}

/// The checker's answer for a whole program and its certificate.
#[derive(Debug, Drop)]
pub struct Verdict {
    /// The findings; none where the program is accepted.
    pub findings: Findings,
}
