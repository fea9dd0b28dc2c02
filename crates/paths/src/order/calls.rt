ghost use Rattle.std.specs.Prelude.{◌≡◌, length};
ghost use Rattle.lists.specs.Lists.{items};
ghost use Rattle.paths.specs.Rankings.{order_of, EntryAt};

use super::Ranking;
use lists::BoundedList;

impl Ranking {
    /// The activities of a list, as a ranking.
    pub(crate) fn new(order: BoundedList<u8, 32>) -> Ranking
        ensures { order_of result ≡ items order }
    {
        Ranking { order }
    }

    /// How many activities there are.
    pub fn len(&self) -> usize
        ensures { result ≡ length (order_of self.now) }
    {
        self.order.len()
    }

    /// The activity of a rank, the first of which is 0.
    pub fn get(&self, rank: usize) -> Option<u8>
        ensures { EntryAt (order_of self.now) rank result }
    {
        self.order.get(rank)
    }

    /// All activities by rank.
    pub fn as_slice(&self) -> &[u8]
        ensures { result.now ≡ order_of self.now }
    {
        self.order.as_slice()
    }
}
