ghost use Rattle.std.specs.Prelude.{◌≡◌, ◌<◌, [], length};
ghost use Rattle.pools.specs.Contents.{contents, room, SamePlaces, AddAnswers, TakeAnswers};
ghost use Rattle.pools.specs.Least.{LeastAt, OutAt};

use super::Pool;
use crate::order::Ordered;
use crate::refusal::PoolRefusal;

/// The place of a least element.
fn place_of_least<T: Ordered>(items: &[T]) -> usize
    requires { 0 < length items.now }
    ensures { LeastAt T.before items.now (length items.now) result }
{
    let mut least = 0;
    for (i, item) in items.iter().enumerate() {
        if item.is_before(&items[least]) {
            least = i;
        }
    }
    least
}

impl<'a, T: Ordered> Pool<'a, T> {
    /// A pool over the lent places, with no elements.
    pub fn new(places: &'a mut [T]) -> Pool<'a, T>
        ensures empty { contents result ≡ [] }
        ensures room { room result ≡ length places.old }
        ensures loan { result.places.ghost_name ≡ places.entry.ghost_name }
    {
        Pool { places, count: 0 }
    }

    /// Adds an element, or refuses where every place is taken.
    pub fn add(&mut self, x: T) -> Result<(), PoolRefusal>
        ensures { AddAnswers self.old x self.new result }
    {
        if self.count == self.places.len() {
            return Err(PoolRefusal::Full(self.places.len()));
        }
        self.places[self.count] = x;
        self.count += 1;
        Ok(())
    }

    /// Takes out a least element, or refuses where there is none; its place is then free again.
    pub fn take_least(&mut self) -> Result<T, PoolRefusal>
        ensures { TakeAnswers T.before self.old self.new result }
    {
        if self.count == 0 {
            return Err(PoolRefusal::Empty);
        }
        let at = self.least_at();
        Ok(self.take_at(at))
    }

    /// The place of a least element.
    fn least_at(&self) -> usize
        requires { 0 < self.now.count }
        ensures { LeastAt T.before (contents self.now) (length (contents self.now)) result }
    {
        place_of_least(&self.places[..self.count])
    }

    /// Takes out the element at a place and moves those behind it down by one.
    fn take_at(&mut self, at: usize) -> T
        requires { at < self.old.count }
        ensures out { OutAt (contents self.old) at result (contents self.new) }
        ensures places { SamePlaces self.old self.new }
    {
        let x = self.places[at];
        self.places.copy_within(at + 1..self.count, at);
        self.count -= 1;
        x
    }
}
