ghost use Rattle.std.specs.Prelude.{◌<◌};

use crate::amount::Amount;

pub mod reading;

/// A field of a container: blank, or an amount.
// Not an `Option`: a blank is a value with bytes and a text of its own, and `Option` can't be given a `Display`.
#[derive(Clone, Copy, Debug, PartialEq, Eq)]
pub enum Field {
    Blank,
    Number(Amount),
}

/// Which of the eight fields of a container: 0 to 7.
#[derive(Clone, Copy, PartialEq, Eq, Debug)]
pub struct FieldNumber {
    number: u8,
    ghost below: { number < 8 },
}

/// What the tag in front of a value says that the value is.
#[derive(Clone, Copy, PartialEq, Eq, Debug)]
pub enum Tag {
    Blank,
    Number,
}

/// A number that no tag has.
#[derive(Clone, Copy, PartialEq, Eq, Debug)]
pub struct UnknownTag(pub u8);

/// A tag's number and the value behind it, as nine bytes have them, whether they make a field or not.
#[derive(Clone, Copy, PartialEq, Eq, Debug)]
pub struct Tagged {
    pub tag: u8,
    pub value: i64,
}
