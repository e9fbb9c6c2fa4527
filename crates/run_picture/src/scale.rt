//! Where things are in a picture. All lengths are in hundredths of a pixel, from the left and from the top.

ghost use Rattle.std.specs.Prelude.{◌≤◌, ◌<◌, ◌^◌};

use crate::shape::Axis;

/// Where the axis begins.
pub(crate) const AXIS_LEFT: u64 = 8_800;

/// How long the axis is.
pub(crate) const AXIS_WIDTH: u64 = 116_000;

/// Where the lane of unit 0 begins, from above.
pub(crate) const LANES_TOP: u64 = 15_200;

/// How high a lane is: a bar, and room for arrows above and below it.
pub(crate) const LANE_HEIGHT: u64 = 6_800;

/// How high the line is for the units that have no lane.
const IDLE_HEIGHT: u64 = 2_600;

/// How high a bar is.
pub(crate) const BAR_HEIGHT: u64 = 4_000;

/// How far below the beginning of its lane a bar begins.
const BAR_INSET: u64 = 1_400;

/// The left edge of an event or step, numbered from 0, on an axis of `count`; for `count` itself the end of the axis. Each
/// has the same width.
pub fn left_edge(count: u32, column: u32) -> u64
    ensures low { 8800 ≤ result }
    ensures high { result < 2 ^ 60 }
{
    AXIS_LEFT + u64::from(column) * AXIS_WIDTH / u64::from(count.max(1))
}

/// Where a column, from 0, begins that a picture may have; one before it begins where the axis does, one after it where the
/// axis ends.
pub(crate) fn left_in(axis: Axis, column: u32) -> u64
    ensures low { 8800 ≤ result }
    ensures high { result < 2 ^ 60 }
{
    left_edge(
        axis.count,
        column.saturating_sub(axis.before).min(axis.count),
    )
}

/// Where the middle of the room of a column is, numbered from 1.
pub(crate) fn middle(axis: Axis, column: u32) -> u64
    ensures low { 8800 ≤ result }
    ensures high { result < 2 ^ 60 }
{
    let begin = left_in(axis, column.saturating_sub(1));
    let end = left_in(axis, column.max(1));
    (begin + end) / 2
}

/// How much room each of `count` columns has.
pub(crate) fn room(count: u32) -> u64 {
    AXIS_WIDTH / u64::from(count.max(1))
}

/// The upper edge of the bars of a unit, by its number round the ring.
pub fn top(unit: u32) -> u64
    ensures low { 15200 ≤ result }
    ensures high { result < 2 ^ 60 }
{
    bottom(unit) + BAR_INSET
}

/// The lower edge of the lanes of `units` units.
pub fn bottom(units: u32) -> u64
    ensures low { 15200 ≤ result }
    ensures high { result < 2 ^ 59 }
{
    LANES_TOP + u64::from(units) * LANE_HEIGHT
}

/// Where the lanes of a picture end, from above, and the line for the units that have none.
pub(crate) fn end_of_lanes(axis: Axis) -> u64
    ensures low { 15200 ≤ result }
    ensures high { result < 2 ^ 60 }
{
    let idle = if axis.lanes < axis.units {
        IDLE_HEIGHT
    } else {
        0
    };
    bottom(axis.lanes) + idle
}

/// The distance of the numbers on an axis of `count` columns, in columns: the least of 1, 2 and 5, times 1, 10, 100 and so
/// on up to 500,000, that gives at most 14 numbers; for still more columns 1,000,000.
pub fn axis_step(count: u32) -> u32 {
    const STEPS: [u32; 18] = [
        1, 2, 5, 10, 20, 50, 100, 200, 500, 1_000, 2_000, 5_000, 10_000, 20_000, 50_000, 100_000,
        200_000, 500_000,
    ];
    for step in STEPS {
        if count / step.max(1) <= 14 {
            return step;
        }
    }
    1_000_000
}

/// How many letters of a name a bar of this width has room for: all of them, or as many as leave room for three periods.
/// It is not a single one of several, which would say too little.
pub fn letters_in(name: &str, width: u64) -> usize {
    let name = name.as_bytes();
    let whole = fitting(name, width.saturating_sub(1_000));
    if whole == name.len() {
        return whole;
    }
    match fitting(name, width.saturating_sub(2_300)) {
        1 => 0,
        letters => letters,
    }
}

/// How many letters from the first on stand in a room of this width.
fn fitting(name: &[u8], room: u64) -> usize {
    let mut left = room;
    for (count, letter) in name.iter().enumerate() {
        let width = letter_width(*letter);
        if width > left {
            return count;
        }
        left -= width;
    }
    name.len()
}

/// How wide a letter of a name is at most, in the 13 pixels of a bar's text.
fn letter_width(letter: u8) -> u64 {
    match letter {
        b'm' | b'w' | b'M' | b'W' => 1_300,
        b'i' | b'j' | b'l' | b't' | b'f' | b'I' => 600,
        b'A'..=b'Z' => 1_100,
        _ => 900,
    }
}
