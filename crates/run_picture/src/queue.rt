//! The queue of the units at work: the position of an event in it, its length after an event, and where on the ring it begins.

ghost use Rattle.std.specs.Prelude.{◌≡◌, ◌+◌, ◌%◌, ◌<◌, ◌≤◌, ◌^◌, max};
ghost use Rattle.machine_model.specs.HeadEvent.{active_after, position_of as position_of_event, retired_after};
ghost use Rattle.run_picture.specs.Meanings.{unit_before as unit_before_of};

use machine_model::event::Event;

/// The position of an event in the queue, 0 at the head, where `active` units are at work. An Assign is at the position
/// after the tail.
pub fn position_of(active: u64, event: Event) -> u64
    ensures { result ≡ position_of_event active event }
{
    match event {
        Event::Assign(_) => active,
        Event::Exec(position) => u64::from(position),
        Event::Transfer(position, _) => u64::from(position),
        Event::Drain(position, _) => u64::from(position),
        Event::Squash(position) => u64::from(position),
        Event::Retire => 0,
        Event::Fault => 0,
        Event::Drop(position) => u64::from(position),
    }
}

/// How many units are at work after an event, where `active` were before it.
pub fn active_with(active: u64, event: Event) -> u64
    requires { active + 1 < 2 ^ 64 }
    ensures value { result ≡ active_after active event }
    ensures bound { result ≤ max active 4294967296 + 1 }
{
    match event {
        Event::Assign(_) => active + 1,
        Event::Squash(position) => u64::from(position) + 1,
        Event::Retire => active.saturating_sub(1),
        Event::Drop(position) => u64::from(position),
        _ => active,
    }
}

/// How many tasks have retired after an event, given how many had before it.
pub fn retired_with(retired: u32, event: Event) -> u32
    requires { retired < 2 ^ 31 }
    ensures value { result ≡ retired_after retired event }
    ensures bound { result ≤ retired + 1 }
{
    match event {
        Event::Retire => retired + 1,
        _ => retired,
    }
}

/// The number of the unit at a position, after `retired` tasks have retired.
pub fn unit_at(units: u32, retired: u32, position: u32) -> u32
    requires { 0 < units }
    ensures value { result ≡ (retired + position) % units }
    ensures bound { result < units }
{
    let place = u64::from(retired) + u64::from(position);
    (place % u64::from(units)) as u32
}

/// The unit before a unit round the ring.
pub fn unit_before(units: u32, unit: u32) -> u32
    requires { 0 < units }
    ensures { result ≡ unit_before_of units unit }
{
    if unit == 0 { units - 1 } else { unit - 1 }
}
