ghost use Rattle.std.specs.Prelude.{◌≡◌, ℕ, false, ◌||◌, Decides};
ghost use Rattle.path_tables.specs.Sets.{has, OneMore, Within};

use super::ActivitySet;

impl ActivitySet {
    #[tactic(auto, using(path_laws::proofs::Bits::bit_none))]
    pub fn empty() -> ActivitySet
        ensures { (a : ℕ) → has result a ≡ false }
    {
        ActivitySet { bits: 0 }
    }

    #[tactic(auto, using(path_laws::proofs::Bits::bit_read))]
    pub fn contains(self, activity: u8) -> bool
        ensures { result ≡ has self activity }
    {
        activity < 32 && self.bits >> activity & 1 == 1
    }

    /// The set with one more activity; a number from 32 on adds nothing.
    pub fn with(self, activity: u8) -> ActivitySet
        ensures { OneMore self activity result }
    {
        if activity < 32 {
            ActivitySet {
                bits: self.bits | 1 << activity,
            }
        } else {
            self
        }
    }

    #[tactic(auto, using(path_laws::proofs::Bits::bit_of_or))]
    pub fn union(self, other: ActivitySet) -> ActivitySet
        ensures { (a : ℕ) → has result a ≡ (has self a || has other a) }
    {
        ActivitySet {
            bits: self.bits | other.bits,
        }
    }

    /// Whether all its activities are in the other set.
    #[tactic(auto, using(path_laws::proofs::Bits::or_adds_none))]
    pub fn is_subset(self, other: ActivitySet) -> bool
        ensures { Decides result (Within self other) }
    {
        self.bits | other.bits == other.bits
    }
}
