//! The numbers of a row, in hundredths, rounded to the nearest.

ghost use Rattle.std.specs.Prelude.{◌≡◌, ◌<◌, ◌^◌, IfSome};
ghost use Rattle.speed_curve.specs.Numbers.{has_ended as has_ended_by, hundredths as hundredths_of, rate as rate_of, share as share_of, speed_up as speed_up_of};

use crate::row::Row;
use machine_model::event::Standing;
use std::fmt;

/// How many instructions retired in a step, in hundredths; 0 where there was no step.
pub fn rate(row: &Row) -> u64
    ensures value { result ≡ rate_of row.now }
    ensures few { result < 2 ^ 48 }
{
    rounded(u64::from(row.retired), u64::from(row.steps))
}

/// How many times as many steps the run on one unit took, in hundredths; `None` unless both runs ended, since then they
/// did the same work, and an instruction retired.
pub fn speed_up(one: &Row, row: &Row) -> Option<u64>
    ensures value { result ≡ speed_up_of one.now row.now }
    ensures few { IfSome result (λ speed. speed < 2 ^ 48) }
{
    if has_ended(one.standing) && has_ended(row.standing) && row.retired > 0 {
        Some(rounded(u64::from(one.steps), u64::from(row.steps)))
    } else {
        None
    }
}

/// The share, in hundredths of a percent, of the instructions of tasks that retired, were squashed or were dropped, that
/// were of tasks that were squashed or dropped; 0 where there were none.
pub fn share(row: &Row) -> u64
    ensures { result ≡ share_of row.now }
{
    let wasted = u64::from(row.wasted);
    rounded(100 * wasted, u64::from(row.retired) + wasted)
}

/// Whether a run ended before its budget did.
fn has_ended(standing: Standing) -> bool
    ensures { result ≡ has_ended_by standing }
{
    !matches!(standing, Standing::Running)
}

/// A part of a whole in hundredths, rounded to the nearest; 0 where the whole is 0.
fn rounded(part: u64, whole: u64) -> u64
    requires part { part < 2 ^ 40 }
    requires whole { whole < 2 ^ 40 }
    ensures value { result ≡ hundredths_of part whole }
    ensures few { result < 2 ^ 48 }
{
    if whole == 0 {
        0
    } else {
        (100 * part + whole / 2) / whole
    }
}

/// The words for how a run ended: `halted`, `trapped`, `unlisted`, or `out of budget` where it still goes on.
pub(crate) fn end_of(standing: Standing) -> &'static str {
    match standing {
        Standing::Running => "out of budget",
        Standing::Halted => "halted",
        Standing::Trapped(_) => "trapped",
        Standing::Unlisted(_) => "unlisted",
    }
}

/// A number in hundredths, written with two decimals.
#[derive(Clone, Copy, Debug)]
pub(crate) struct Hundredths(pub(crate) u64);

impl fmt::Display for Hundredths {
    fn fmt<W: fmt::Write>(&self, f: &mut fmt::Formatter<W>) -> fmt::Result {
        let whole = self.0 / 100;
        let tenths = self.0 / 10 % 10;
        let hundredths = self.0 % 10;
        write!(f, "{whole}.{tenths}{hundredths}")
    }
}
