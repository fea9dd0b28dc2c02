use crate::row::Row;
use lists::BoundedList;

pub mod calls;
pub mod reading;

/// A partner that answers by the first row that fits.
#[derive(Clone, Copy)]
pub struct RuleTable {
    rows: BoundedList<Row, 64>,
}
