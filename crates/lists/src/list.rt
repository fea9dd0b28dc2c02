ghost use Rattle.std.specs.Prelude.{◌≡◌, ◌≤◌, length, ⊤};

use std::alloc::AllocError;

mod calls;

/// All places of a list are taken.
#[derive(Clone, Copy, PartialEq, Eq, Debug)]
pub struct Full;

/// A list of at most `N` elements, which are in the first `count` of `N` places. It is copied as a whole and allocates nothing.
pub struct BoundedList<T, const N: usize> {
    places: [T; N],
    count: usize,
    ghost few: { count ≤ N },
    ghost all_places: { length places ≡ N },
}

// By hand, since no derive copies a struct with a ghost field and a type parameter.
impl<T: Copy, const N: usize> Clone for BoundedList<T, N> {
    ghost is_clone = { λ list copy. copy ≡ list };

    ghost is_infallible = { λ _. ⊤ };

    fn clone(&self) -> Result<BoundedList<T, N>, AllocError> {
        Ok(*self)
    }
}

impl<T: Copy, const N: usize> Copy for BoundedList<T, N> {}
