ghost use Rattle.std.specs.Prelude.{◌≡◌, length};

use crate::source::Source;

pub mod reading;

/// Where each of the eight fields of an output comes from.
#[derive(Clone, Copy, PartialEq, Eq, Debug)]
pub struct Outputs {
    sources: [Source; 8],
    ghost eight: { length sources ≡ 8 },
}
