ghost use Rattle.std.specs.Prelude.{◌^◌, ◌<◌, ◌≤ℤ◌};
ghost use Rattle.std.specs.Int.Signed.{mag};

use values::field::FieldNumber;

pub mod reading;

/// The tested field of an input, and the least and the greatest number that it may have.
#[derive(Clone, Copy, PartialEq, Eq, Debug)]
pub struct Span {
    field: FieldNumber,
    low: i64,
    high: i64,
    ghost ordered: { low ≤ℤ high },
    ghost low_in_bytes: { mag low < 2 ^ 63 },
    ghost high_in_bytes: { mag high < 2 ^ 63 },
}
