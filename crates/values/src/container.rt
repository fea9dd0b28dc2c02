ghost use Rattle.std.specs.Prelude.{◌≡◌, length};

use crate::field::Field;

pub mod fields;

/// Eight fields, f0 to f7.
#[derive(Clone, Copy, PartialEq, Eq, Debug)]
pub struct Container {
    fields: [Field; 8],
    ghost eight: { length fields ≡ 8 },
}
