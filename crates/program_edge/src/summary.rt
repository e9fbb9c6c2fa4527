//! The summary of several programs.
ghost use Rattle.std.specs.Prelude.{◌≡◌, ◌+◌, ◌≤◌};
ghost use Rattle.program_edge.specs.Summaries.{all_of, counted, judged_by, no_program, worst_status};

use std::alloc::{AllocError, Global};

/// The verdict on one of several programs.
#[derive(Clone, Copy, Debug, PartialEq, Eq)]
pub enum ProgramVerdict {
    /// The status of its report is 0.
    Right,
    /// The status of its report is another.
    Wrong,
    /// It has no report: its file gives no text, or a certificate.
    Unjudged,
}

/// The verdict on a program whose report has this status.
pub fn judged_by(status: u8) -> ProgramVerdict
    ensures { result ≡ judged_by status }
{
    if status == 0 {
        ProgramVerdict::Right
    } else {
        ProgramVerdict::Wrong
    }
}

/// How many of several programs are right, wrong, and not judged.
#[derive(Clone, Copy, Debug, PartialEq, Eq)]
pub struct ProgramTally {
    /// The number of programs that are right.
    pub right: usize,
    /// The number of programs that are wrong.
    pub wrong: usize,
    /// The number of programs that are not judged.
    pub unjudged: usize,
}

/// The tally of no programs.
pub fn empty_tally() -> ProgramTally
    ensures { result ≡ no_program }
{
    ProgramTally {
        right: 0,
        wrong: 0,
        unjudged: 0,
    }
}

/// A tally with one more program.
pub fn count(tally: ProgramTally, judged: ProgramVerdict) -> ProgramTally
    requires { all_of tally + 1 ≤ usize.MAX }
    ensures { result ≡ counted tally judged }
{
    match judged {
        ProgramVerdict::Right => ProgramTally {
            right: tally.right + 1,
            ..tally
        },
        ProgramVerdict::Wrong => ProgramTally {
            wrong: tally.wrong + 1,
            ..tally
        },
        ProgramVerdict::Unjudged => ProgramTally {
            unjudged: tally.unjudged + 1,
            ..tally
        },
    }
}

/// The exit status for several programs: 2 where one is not judged, else 1 where one is wrong, else 0.
pub fn worst_status(tally: ProgramTally) -> u8
    ensures { result ≡ worst_status tally }
{
    if tally.unjudged > 0 {
        2
    } else if tally.wrong > 0 {
        1
    } else {
        0
    }
}

/// The line with the numbers of a tally.
///
/// # Errors
///
/// `AllocError` where memory was refused.
pub fn summary_line(alloc: Global, tally: ProgramTally) -> Result<String, AllocError>
    requires { all_of tally ≤ usize.MAX }
{
    let ProgramTally {
        right,
        wrong,
        unjudged,
    } = tally;
    let all = right + wrong + unjudged;
    format!(in alloc; "{all} programs: {right} right, {wrong} wrong, {unjudged} not judged\n")
}
