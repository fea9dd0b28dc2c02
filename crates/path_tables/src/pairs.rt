ghost use Rattle.std.specs.Prelude.{◌≡◌, length};

use crate::sets::ActivitySet;

mod calls;

/// Pairs of numbers below 32: for each first number, the set of those that it is paired with.
#[derive(Clone, Copy)]
pub struct ActivityPairs {
    rows: [ActivitySet; 32],
    ghost places: { length rows ≡ 32 },
}
