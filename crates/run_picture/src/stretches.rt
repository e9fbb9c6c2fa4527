//! Long histories, summed by stretches of equal length: how many events or steps of a stretch each unit spent on tasks
//! that ended in each way.

ghost use Rattle.std.specs.Prelude.{◌≡◌, ◌+◌, ◌*◌, ◌++◌, ◌<◌, ◌≤◌, ◌^◌, IfOk, OnOk, length, map, slice_index};
ghost use Rattle.std.specs.List.{range_with_len};
ghost use Rattle.machine_model.specs.Answer.{most_events};
ghost use Rattle.run_picture.specs.Meanings.{meanings};
ghost use Rattle.run_picture.specs.Stretches.{ending_of as ending_of_part, end_of, length_of, overlap as overlap_of, share_of, shares_told};
ghost use Rattle.run_picture.specs.Adding.{AddsLife, HaveRoom, share_by, with_overlap};
ghost use Rattle.run_picture.specs.Charts.{HasRoom};

use crate::chart::Chart;
use crate::scale::{BAR_HEIGHT, left_edge, top};
use crate::shape::{Axis, Element, Geometry, Meaning, Shape, StretchShare, StretchTally, Style};
use crate::stretch_tallies::{StretchSums, part_of, sums_of};
use std::alloc::{AllocError, Global};
use task_lives::life::{Ending, Life};

/// The most stretches of a picture: each has 4 pixels.
const STRETCHES: u32 = 290;

/// How many of `count` columns a stretch has, so that there are at most 290 stretches; the last ones may be shorter, or
/// empty.
pub fn stretch_length(count: u32) -> u32
    ensures { result ≡ length_of count }
{
    count / STRETCHES + 1
}

/// The ending of a part.
fn ending_of(part: usize) -> Ending
    ensures { result ≡ ending_of_part part }
{
    match part {
        0 => Ending::Retired,
        1 => Ending::Squashed,
        2 => Ending::Dropped,
        _ => Ending::Unfinished,
    }
}

/// Adds the parts of the stretches of a chart.
pub(crate) fn push_shares(
    alloc: Global,
    shapes: &mut Vec<Shape>,
    chart: &Chart,
) -> Result<(), AllocError>
    requires { HasRoom chart.now }
    ensures { OnOk result (meanings shapes.new.items ≡ meanings shapes.old.items
        ++ shares_told chart.now.axis chart.now.columns.items chart.now.events.items chart.now.lives.items) }
{
    let axis = chart.axis;
    let parts = axis.units as usize * 1_160;
    let span = stretch_length(axis.count);
    let shares = shares_of(alloc, parts, span, &chart.lives)?;
    let sums = sums_of(alloc, span, &chart.columns, &chart.events, &chart.lives)?;
    for part in 0..parts {
        push_share(shapes, axis, &shares, &sums, part)?;
    }
    Ok(())
}

/// The shares of `parts` parts: how many columns of its stretch count for each.
#[tactic(auto, using(crate::proofs::Shares::no_shares))]
fn shares_of(alloc: Global, parts: usize, span: u32, lives: &[Life]) -> Result<Vec<u64>, AllocError>
    requires some { 0 < span }
    requires short { span ≤ 4000 }
    requires few { length lives.now ≤ most_events }
    ensures { IfOk result (λ shares. shares.items ≡ map (share_of span lives.now) (range_with_len 0 parts)) }
{
    let mut shares = vec![in alloc; 0; parts]?;
    for life in lives {
        add_life(&mut shares, span, *life);
    }
    Ok(shares)
}

/// Adds a life to the shares of its unit.
fn add_life(shares: &mut Vec<u64>, span: u32, life: Life)
    requires some { 0 < span }
    requires room { HaveRoom (span + span) shares.old.items }
    ensures { AddsLife span life shares.old.items shares.new.items }
{
    let last = (life.last / span).min(STRETCHES - 1);
    for stretch in life.first / span..last + 1 {
        add_overlap(shares, span, stretch, life);
    }
}

/// Adds the columns of a life that are in a stretch, if there is such a stretch.
fn add_overlap(shares: &mut Vec<u64>, span: u32, stretch: u32, life: Life)
    requires { HaveRoom span shares.old.items }
    ensures { shares.new.items ≡ with_overlap span stretch life shares.old.items }
{
    if stretch < STRETCHES {
        let column = life.unit as usize * 290 + stretch as usize;
        let part = column * 4 + part_of(life.ending);
        if part < shares.len() {
            let share = shares[part];
            shares[part] = share + overlap(span, stretch, life);
        }
    }
}

/// How many columns of a life are in a stretch.
fn overlap(span: u32, stretch: u32, life: Life) -> u64
    ensures value { result ≡ overlap_of span stretch life }
    ensures bound { result ≤ span }
{
    let begin = u64::from(stretch) * u64::from(span);
    let end = begin + u64::from(span);
    let first = u64::from(life.first).max(begin);
    let behind = (u64::from(life.last) + 1).min(end);
    behind.saturating_sub(first)
}

/// Adds the rectangle of a part of a stretch, if there is something in it.
fn push_share(
    shapes: &mut Vec<Shape>,
    axis: Axis,
    shares: &[u64],
    sums: &StretchSums,
    part: usize,
) -> Result<(), AllocError>
    requires within { part < length shares.now }
    requires units { part < 1160 * 2 ^ 32 }
    requires executed { length sums.now.executed.items ≡ 290 }
    requires ended { length sums.now.ended.items ≡ 1160 }
    ensures { OnOk result (meanings shapes.new.items
        ≡ meanings shapes.old.items ++ share_by axis (slice_index shares.now part) sums.now.executed.items sums.now.ended.items part) }
{
    let count = shares[part];
    if count == 0 {
        return Ok(());
    }
    let stretch = part / 4 % 290;
    let first = stretch as u64 * u64::from(stretch_length(axis.count)) + 1;
    let share = StretchShare {
        unit: (part / 1_160) as u32,
        ending: ending_of(part % 4),
        count,
        first,
        last: end(axis.count, stretch as u64),
        tally: StretchTally {
            executed: sums.executed[stretch],
            retired: sums.ended[stretch * 4],
            squashed: sums.ended[stretch * 4 + 1],
            dropped: sums.ended[stretch * 4 + 2],
        },
    };
    let below = below(&shares[part - part % 4..part]);
    shapes.push(Shape {
        element: rectangle(axis, share, below),
        event: usize::MAX,
        meaning: Meaning::OfShare(axis.counted, share),
    })?;
    Ok(())
}

/// The sum of the shares below a part of a stretch.
fn below(shares: &[u64]) -> u64 {
    let mut sum: u64 = 0;
    for share in shares {
        sum = sum.saturating_add(*share);
    }
    sum
}

/// The rectangle of a part, above what lies below it. A column is as high as a bar where its unit had tasks throughout.
fn rectangle(axis: Axis, share: StretchShare, below: u64) -> Element {
    let begin = share.first.saturating_sub(1);
    let size = share.last.saturating_sub(begin).max(1);
    let low = below.saturating_mul(BAR_HEIGHT) / size;
    let high = below.saturating_add(share.count).saturating_mul(BAR_HEIGHT) / size;
    let left = left_edge(axis.count, column_at(begin));
    let right = left_edge(axis.count, column_at(share.last));
    let form = Geometry::Rectangle(
        left,
        (top(share.unit) + BAR_HEIGHT).saturating_sub(high),
        right.saturating_sub(left),
        high.saturating_sub(low),
    );
    Element {
        style: Style::Share(share.ending),
        form,
    }
}

/// The number of a column.
fn column_at(number: u64) -> u32 {
    number.min(u64::from(u32::MAX)) as u32
}

/// Where a stretch ends.
fn end(count: u32, stretch: u64) -> u64
    requires few { stretch < 290 }
    ensures value { result ≡ end_of count stretch }
    ensures bound { result ≤ count }
{
    let span = u64::from(stretch_length(count));
    (stretch * span + span).min(u64::from(count))
}
