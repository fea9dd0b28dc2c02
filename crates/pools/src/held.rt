ghost use Rattle.std.specs.Prelude.{◌≤◌, length};

mod calls;

/// A pool keeps its elements in the first `count` of the lent places, in order of arrival.
// The slice is the caller's, since a pool allocates nothing: so the count stands beside it.
#[derive(Drop)]
pub struct Pool<'a, T> {
    places: &'a mut [T],
    count: usize,
    ghost within: { count ≤ length places.now },
}
