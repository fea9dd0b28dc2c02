ghost use Rattle.std.specs.Prelude.{pos, negsuc, ◌<ℤ◌};

pub mod sizes;

/// A signed whole number strictly between -10^12 and 10^12.
#[derive(Clone, Copy, Debug, PartialEq, Eq)]
pub struct Amount {
    value: i64,
    ghost above: { negsuc 999_999_999_999 <ℤ value },
    ghost below: { value <ℤ pos 1_000_000_000_000 },
}

/// The sign between the two sides of a comparison.
#[derive(Clone, Copy, PartialEq, Eq, Debug)]
pub enum Comparison {
    Less,
    AtMost,
    Equal,
    Unequal,
    AtLeast,
    Greater,
}
