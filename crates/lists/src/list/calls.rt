ghost use Rattle.std.specs.Prelude.{◌≡◌, [], length, slice_get};
ghost use Rattle.lists.specs.Lists.{items, PushAnswers, CopyAnswers};

use super::{BoundedList, Full};

impl<T: Copy, const N: usize> BoundedList<T, N> {
    /// A list with no elements; its places hold the filler.
    pub fn new(filler: T) -> BoundedList<T, N>
        ensures { items result ≡ [] }
    {
        BoundedList {
            places: [filler; N],
            count: 0,
        }
    }

    /// The list of these elements, where there are at most `N`.
    pub fn from_slice(elements: &[T], filler: T) -> Option<BoundedList<T, N>>
        ensures { CopyAnswers N elements.now result }
    {
        let count = elements.len();
        if count > N {
            return None;
        }
        let mut places = [filler; N];
        places[..count].copy_from_slice(elements);
        Some(BoundedList { places, count })
    }

    /// Adds an element at the end, where there is a place for it.
    pub fn push(&mut self, x: T) -> Result<(), Full>
        ensures { PushAnswers N (items self.old) x (items self.new) result }
    {
        if self.count == N {
            return Err(Full);
        }
        self.places[self.count] = x;
        self.count += 1;
        Ok(())
    }

    pub fn len(&self) -> usize
        ensures { result ≡ length (items self.now) }
    {
        self.as_slice().len()
    }

    /// The element at a place, the first of which is 0.
    pub fn get(&self, at: usize) -> Option<T>
        ensures { result ≡ slice_get (items self.now) at }
    {
        self.as_slice().get(at).copied()
    }

    pub fn as_slice(&self) -> &[T]
        ensures { result.now ≡ items self.now }
    {
        &self.places[..self.count]
    }
}
