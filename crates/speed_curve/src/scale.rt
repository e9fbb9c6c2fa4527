//! Where things are in the picture. All lengths are in pixels, from the left and from the top.

ghost use Rattle.std.specs.Prelude.{◌≤◌};

use crate::numbers::{rate, share, speed_up};
use crate::row::Row;

/// The scales of a picture: how many columns there are, and which number, in hundredths, stands at the top.
#[derive(Clone, Copy, Debug)]
pub(crate) struct Scale {
    columns: u64,
    top: u64,
    /// How far apart the lines of the upper scale are, in hundredths.
    pub(crate) step: u64,
}

impl Scale {
    /// The scales for some rows, with a column for each: up to the greatest rate or speed-up.
    pub(crate) fn of(one: &Row, rows: &[Row]) -> Scale {
        let mut most: u64 = 20;
        for row in rows {
            most = most.max(rate(row).max(speed_up(one, row).unwrap_or(0)));
        }
        let step = step_for(most);
        let above = most.saturating_add(step.saturating_sub(1));
        let top = above.saturating_sub(above % step.max(1)).max(1);
        Scale {
            columns: (rows.len() as u64).max(1),
            top,
            step: step_for(top),
        }
    }

    /// How far apart the lines of the upper scale are, in pixels.
    pub(crate) fn gap(self) -> u64
        ensures { 1 ≤ result }
    {
        (self.step.saturating_mul(360) / self.top.max(1)).max(1)
    }

    /// The middle of the column of `units` units, from the left.
    pub(crate) fn column(self, units: u32) -> u64 {
        88 + (2 * u64::from(units)).saturating_sub(1) * 580 / self.columns.max(1)
    }

    /// Where a number of hundredths stands on the upper scale, from above.
    pub(crate) fn height(self, hundredths: u64) -> u64
        ensures { result ≤ 496 }
    {
        496_u64.saturating_sub(hundredths.saturating_mul(360) / self.top.max(1))
    }

    /// The foot of the number over a point: further up where it would lie on a line of the upper scale.
    pub(crate) fn foot_over(self, point: u64) -> u64 {
        let foot = point.saturating_sub(12);
        let below = 508_u64.saturating_sub(foot) % self.gap();
        foot.saturating_sub(16_u64.saturating_sub(below))
    }

    /// The foot of the number under a point: further down where it would lie on a line of the upper scale.
    pub(crate) fn foot_under(self, point: u64) -> u64
        requires { point ≤ 496 }
        ensures { result ≤ 534 }
    {
        let foot = point + 22;
        foot + 16_u64.saturating_sub((foot + 227) % self.gap())
    }

    /// Whether a line goes down by more than three pixels for four across from a point to the one a column further, by
    /// their heights.
    fn goes_down(self, from: u64, to: u64) -> bool {
        from.saturating_add(870 / self.columns.max(1)) < to
    }

    /// Where the middle of the number under a point is, by the heights of the points before, here and after: at the left
    /// of a line that goes down from it steeply, at the right of one that goes up to it.
    pub(crate) fn beside_under(self, [before, point, after]: [u64; 3]) -> &'static str {
        beside(self.goes_down(point, after), self.goes_down(point, before))
    }

    /// Where the middle of the number over a point is: at the left of a line that goes up from it steeply, at the right of
    /// one that goes down to it.
    pub(crate) fn beside_over(self, [before, point, after]: [u64; 3]) -> &'static str {
        beside(self.goes_down(after, point), self.goes_down(before, point))
    }
}

/// Where the middle of a number is, from its point: at the left of it, at the right, or at the point.
fn beside(left: bool, right: bool) -> &'static str {
    if left {
        "-20"
    } else if right {
        "20"
    } else {
        "0"
    }
}

/// How far apart the lines of a scale up to this number are: the least of 1, 2 and 5, times 1, 10, 100 and so on, of which
/// five are not less than the number.
fn step_for(hundredths: u64) -> u64 {
    const STEPS: [u32; 24] = [
        1, 2, 5, 10, 20, 50, 100, 200, 500, 1_000, 2_000, 5_000, 10_000, 20_000, 50_000, 100_000,
        200_000, 500_000, 1_000_000, 2_000_000, 5_000_000, 10_000_000, 20_000_000, 50_000_000,
    ];
    for step in STEPS {
        if hundredths <= 5 * u64::from(step) {
            return u64::from(step);
        }
    }
    hundredths
}

/// How high the bar of a run is: at least one if any instruction was thrown away.
pub(crate) fn bar(row: &Row) -> u64 {
    (share(row) / 125).max(u64::from(row.wasted).min(1))
}
