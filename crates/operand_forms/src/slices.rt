//! The beginnings and the ends of slices.

ghost use Rattle.std.specs.Prelude.{◌≡◌, take, drop};

/// The first `count` items, or all if there are fewer.
pub fn first<T>(all: &[T], count: usize) -> &[T]
    ensures { result.now ≡ take count all.now }
{
    if count < all.len() {
        &all[..count]
    } else {
        all
    }
}

/// The items after the first `count`; none if there are no more.
pub fn after<T>(all: &[T], count: usize) -> &[T]
    ensures { result.now ≡ drop count all.now }
{
    if count < all.len() {
        &all[count..]
    } else {
        &[]
    }
}
