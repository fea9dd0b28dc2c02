ghost use Rattle.std.specs.Prelude.{◌≡◌, MatchBool, MatchOption};
ghost use Rattle.values.specs.Amounts.{InRange, size, Holds, holds};

use super::{Amount, Comparison};

impl Amount {
    /// The amount of this size, where it is in range.
    pub fn new(value: i64) -> Option<Amount>
        ensures { MatchOption result (InRange value → ⊥) (λ a. size a ≡ value) }
    {
        if value > -1_000_000_000_000 && value < 1_000_000_000_000 {
            Some(Amount { value })
        } else {
            None
        }
    }

    pub fn get(self) -> i64
        ensures value { result ≡ size self }
        ensures range { InRange result }
    {
        self.value
    }

    /// Whether the comparison holds of the two amounts, by size.
    pub fn compares(self, comparison: Comparison, other: Amount) -> bool
        ensures value { result ≡ holds comparison (size self) (size other) }
        ensures says { MatchBool result (Holds comparison (size self) (size other)) (Holds comparison (size self) (size other) → ⊥) }
    {
        match comparison {
            Comparison::Less => self.value < other.value,
            Comparison::AtMost => self.value <= other.value,
            Comparison::Equal => self.value == other.value,
            Comparison::Unequal => self.value != other.value,
            Comparison::AtLeast => self.value >= other.value,
            Comparison::Greater => self.value > other.value,
        }
    }
}
