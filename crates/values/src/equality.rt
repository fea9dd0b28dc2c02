//! Two amounts, fields or containers are equal where they are the same.

ghost use Rattle.std.specs.Prelude.{◌≡◌, Bool, Decides};
ghost use Rattle.std.proofs.Common.{rules};
ghost use Rattle.values.specs.Equality.{amount_eq, field_eq, container_eq};
ghost use Rattle.values.specs.Equal.{amount_eq_decides, field_eq_decides, container_eq_decides, decided_as};

use crate::amount::Amount;
use crate::container::Container;
use crate::field::Field;

/// A type whose `==` computes a test, and that test says whether two values are the same.
pub trait Sameness: Eq {
    ghost test: { Self → Self → Bool };

    ghost computes: { (a b : Self) → Self.eq a b ≡ test a b };

    ghost decides: { (a b : Self) → Decides (Self.eq a b) (a ≡ b) };
}

impl Sameness for Amount {
    ghost test = { amount_eq };

    ghost computes = { Prim.search rules };

    ghost decides = { amount_eq_decides };
}

impl Sameness for Field {
    ghost test = { field_eq };

    ghost computes = { Prim.search rules };

    ghost decides = { decided_as field_eq (Prim.search rules) field_eq_decides };
}

impl Sameness for Container {
    ghost test = { container_eq };

    ghost computes = { Prim.search rules };

    ghost decides = { decided_as container_eq (Prim.search rules) container_eq_decides };
}
