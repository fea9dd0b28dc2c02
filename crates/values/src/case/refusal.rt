ghost use Rattle.values.specs.Cases as cases;

use crate::field::FieldNumber;
use refusals::Refusal;

/// Why bytes are no case.
#[derive(Clone, Copy, PartialEq, Eq, Debug)]
pub enum CaseRefusal {
    /// They are not 72.
    Length,
    /// The first field whose nine bytes are no field's.
    BadField(FieldNumber),
}

impl Refusal for CaseRefusal {
    ghost cause_number = { cases.cause_number };

    ghost place_number = { cases.place_number };

    fn cause(&self) -> u16 {
        20
    }

    fn place(&self) -> usize {
        match self {
            CaseRefusal::Length => 8,
            CaseRefusal::BadField(number) => number.get() as usize,
        }
    }
}
