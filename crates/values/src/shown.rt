//! How amounts, fields and containers are written: `-` for a blank, `[250, -, ..]` for a container.

ghost use Rattle.std.specs.Prelude.{◌≡◌, Some};
ghost use Rattle.values.specs.Shown.{amount_text, field_text};

use crate::amount::Amount;
use crate::case::refusal::CaseRefusal;
use crate::container::Container;
use crate::field::Field;
use std::fmt;

impl fmt::Display for Amount {
    ghost output = { λ a. Some (amount_text a) };

    fn fmt<W: fmt::Write>(&self, f: &mut fmt::Formatter<W>) -> fmt::Result {
        let value = self.get();
        write!(f, "{value}")
    }
}

impl fmt::Display for Field {
    ghost output = { λ x. Some (field_text x) };

    fn fmt<W: fmt::Write>(&self, f: &mut fmt::Formatter<W>) -> fmt::Result {
        match self {
            Field::Blank => write!(f, "-"),
            Field::Number(amount) => write!(f, "{amount}"),
        }
    }
}

impl fmt::Display for Container {
    fn fmt<W: fmt::Write>(&self, f: &mut fmt::Formatter<W>) -> fmt::Result {
        let [a, b, c, d, e, g, h, i] = self.fields();
        write!(f, "[{a}, {b}, {c}, {d}, {e}, {g}, {h}, {i}]")
    }
}

/// In plain words, beside its number and place.
impl fmt::Display for CaseRefusal {
    fn fmt<W: fmt::Write>(&self, f: &mut fmt::Formatter<W>) -> fmt::Result {
        match self {
            CaseRefusal::Length => write!(f, "a case has 72 bytes"),
            CaseRefusal::BadField(number) => {
                let number = number.get();
                write!(f, "f{number} is neither a blank nor a number in range")
            }
        }
    }
}
