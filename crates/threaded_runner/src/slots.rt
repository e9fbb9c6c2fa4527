//! Places of an array that may not be there.

ghost use Rattle.std.specs.Prelude.{◌≡◌, slice_set};

/// Puts a value at a place, if there is one.
#[tactic(auto, using(std::proofs::lemmas::List::set_past))]
pub(crate) fn put<T: Copy>(slots: &mut [T], place: u32, value: T)
    ensures { slots.new ≡ slice_set slots.old place value }
{
    let place = place as usize;
    if place < slots.len() {
        slots[place] = value;
    }
}
