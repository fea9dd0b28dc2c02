//! The truth values of conditions and their tables.

ghost use Rattle.std.specs.Prelude.{◌≡◌};
ghost use Rattle.values.specs.Amounts.{size};
ghost use Rattle.conditions.specs.Truths.{negated, both, either, of_bool, holds, compared, amount_of};

use values::amount::Comparison;
use values::field::Field;

pub type Truth = bool;

pub(crate) fn constant(value: bool) -> Truth
    ensures { result ≡ of_bool value }
{
    value
}

pub(crate) fn negation(a: Truth) -> Truth
    ensures { result ≡ negated a }
{
    !a
}

pub(crate) fn conjunction(a: Truth, b: Truth) -> Truth
    ensures { result ≡ both a b }
{
    a && b
}

pub(crate) fn disjunction(a: Truth, b: Truth) -> Truth
    ensures { result ≡ either a b }
{
    a || b
}

/// Whether a link with this value of its text is true.
pub(crate) fn is_true(value: Truth) -> bool
    ensures { result ≡ holds value }
{
    value
}

/// A comparison of two fields; with a blank it is false for every sign.
pub(crate) fn compare(left: Field, sign: Comparison, right: Field) -> Truth
    ensures { result ≡ compared sign (amount_of left) (amount_of right) }
{
    let (Field::Number(a), Field::Number(b)) = (left, right) else {
        return false;
    };
    constant(a.compares(sign, b))
}
