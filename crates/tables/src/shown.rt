use crate::refusal::TableRefusal;
use std::fmt;

/// In plain words, beside its number and place.
impl fmt::Display for TableRefusal {
    fn fmt<W: fmt::Write>(&self, f: &mut fmt::Formatter<W>) -> fmt::Result {
        match self {
            TableRefusal::Size => write!(
                f,
                "a table has a count of at most 64 and 93 bytes for each row"
            ),
            TableRefusal::BadRow(row) => write!(f, "row {row} is not sound"),
        }
    }
}
