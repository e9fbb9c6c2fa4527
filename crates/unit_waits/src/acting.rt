//! Which unit does an event, and which event ends a step.

ghost use Rattle.std.specs.Prelude.{◌≡◌, ◌<◌, ◌≤◌, drop, length, position as position_by, IfSome, MatchOption, None};
ghost use Rattle.unit_waits.specs.Steps.{IsStepOf};
ghost use Rattle.unit_waits.specs.Waits.{acts as acts_in, ends_step as ends_step_of};

use machine_model::event::Event;
use run_picture::queue::position_of;

/// Whether an event ends a step that began with `active` units at work.
fn ends_step(active: u32, event: &Event) -> bool
    ensures { result ≡ ends_step_of active event.now }
{
    position_of(u64::from(active), *event) == 0
}

/// Whether the unit at a position does one of the events of a step.
pub(crate) fn acts(active: u32, position: u32, events: &[Event]) -> bool
    ensures { result ≡ acts_in active position events.now }
{
    events.iter().any(|event| position_of(u64::from(active), *event) == u64::from(position))
}

/// The index of the first event that ends a step; `None` where none does.
fn last_of_step(active: u32, events: &[Event]) -> Option<usize>
    ensures { result ≡ position_by (λ e. ends_step_of active e) events.now }
{
    events.iter().position(|event| ends_step(active, event))
}

/// The events of the step that begins where these are left and `active` units are at work: those up to the first that
/// ends a step. `None` where none does.
pub(crate) fn step_of(active: u32, left: &[Event]) -> Option<&[Event]>
    ensures step { MatchOption result (position_by (λ e. ends_step_of active e) left.now ≡ None) (λ events. IsStepOf active left.now events.now) }
    ensures some { IfSome result (λ events. 0 < length events.now) }
    ensures within { IfSome result (λ events. length events.now ≤ length left.now) }
{
    let Some(last) = last_of_step(active, left) else {
        return None;
    };
    let (events, _) = left.split_at(last + 1);
    Some(events)
}

/// The events after the first `start`.
pub(crate) fn behind(history: &[Event], start: usize) -> &[Event]
    requires { start ≤ length history.now }
    ensures { result.now ≡ drop start history.now }
{
    let (_, left) = history.split_at(start);
    left
}
