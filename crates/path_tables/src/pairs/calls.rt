ghost use Rattle.std.specs.Prelude.{◌≡◌, ℕ, ◌≤◌, false};
ghost use Rattle.path_laws.specs.Tables.{Joins};
ghost use Rattle.path_tables.specs.Pairs.{paired, OnePairMore};
ghost use Rattle.path_tables.specs.Sets.{has};

use super::ActivityPairs;
use crate::sets::ActivitySet;

impl ActivityPairs {
    pub fn none() -> ActivityPairs
        ensures { (a b : ℕ) → paired result a b ≡ false }
    {
        ActivityPairs {
            rows: [ActivitySet::empty(); 32],
        }
    }

    /// All that one number is paired with.
    pub fn row(&self, first: u8) -> ActivitySet
        ensures { (b : ℕ) → has result b ≡ paired self.now first b }
    {
        self.rows
            .get(usize::from(first))
            .copied()
            .unwrap_or(ActivitySet::empty())
    }

    pub fn contains(&self, first: u8, second: u8) -> bool
        ensures { result ≡ paired self.now first second }
    {
        self.row(first).contains(second)
    }

    /// Adds a pair; one with a number from 32 on is left out.
    #[tactic(auto, using(crate::proofs::Rows::row_more))]
    pub fn add(&mut self, first: u8, second: u8)
        ensures { OnePairMore self.old first second self.new }
    {
        if first < 32 {
            self.rows[usize::from(first)] = self.rows[usize::from(first)].with(second);
        }
    }

    /// Pairs each number below `count` that is paired with `k` with all that `k` is paired with.
    #[tactic(auto, using(path_laws::proofs::Tables::joins_none, path_laws::proofs::Tables::joins_row, path_laws::proofs::Tables::joins_past, crate::proofs::Rows::same_row, crate::proofs::Rows::other_row))]
    pub(crate) fn join_through(&mut self, k: u8, count: usize)
        requires { count ≤ 32 }
        ensures { Joins count k (paired self.old) (paired self.new) }
    {
        let through = self.row(k);
        // By number: a part of the rows can't be lent here, and after a `take` no proof knows what was written to them.
        for a in 0..count {
            let row = self.rows[a];
            if row.contains(k) {
                self.rows[a] = row.union(through);
            }
        }
    }
}
