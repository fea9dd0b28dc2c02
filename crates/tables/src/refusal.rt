ghost use Rattle.std.specs.Prelude.{◌≡◌};
ghost use Rattle.tables.specs.declared.refusal.TableRefusal.TheVariants.{BadRow};
ghost use Rattle.tables.specs.Refusals.{cause_of, place_of};

use crate::records::BadRecord;
use refusals::Refusal;

/// Why bytes are no rule table.
#[derive(Clone, Copy, PartialEq, Eq, Debug)]
pub enum TableRefusal {
    /// They are not two bytes of a count and 93 bytes for each row, or there are over 64 rows.
    Size,
    /// The lowest row that is bad.
    BadRow(usize),
}

impl Refusal for TableRefusal {
    ghost cause_number = { cause_of };

    ghost place_number = { place_of };

    fn cause(&self) -> u16 {
        match self {
            TableRefusal::Size => 31,
            TableRefusal::BadRow(_) => 33,
        }
    }

    fn place(&self) -> usize {
        match self {
            TableRefusal::Size => 0,
            TableRefusal::BadRow(row) => *row,
        }
    }
}

impl From<BadRecord> for TableRefusal {
    ghost from_gives = { λ bad refusal. refusal ≡ BadRow bad.number };

    fn from(bad: BadRecord) -> TableRefusal {
        TableRefusal::BadRow(bad.number)
    }
}
