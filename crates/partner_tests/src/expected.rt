//! What the tests expect, and how they ask.

use crate::bytes::{AnyRow, table_bytes};
use partners::fault::Fault;
use partners::partner::{Partner, Reply};
use partners::refusal::LayerRefusal;
use partners::retry::Retry;
use std::alloc::Global;
use std::process::Abort;
use std::test::Fail;
use tables::table::RuleTable;
use values::amount::Amount;
use values::container::Container;
use values::field::Field;

/// The numbers of the eight fields, or none for a blank.
pub(crate) type Fields = [Option<i64>; 8];

pub(crate) const BLANKS: Fields = [None; 8];

#[derive(Clone, Copy, PartialEq, Eq, Debug)]
pub(crate) enum Expected {
    Gives(Fields),
    Faults(u16),
    Busy,
}

fn field(number: Option<i64>) -> Result<Field, Fail> {
    let Some(number) = number else {
        return Ok(Field::Blank);
    };
    Ok(Field::Number(Amount::new(number).ok_or("no amount")?))
}

pub(crate) fn container(fields: &Fields) -> Result<Container, Fail> {
    Ok(Container::new((*fields).try_map(field)?))
}

pub(crate) fn fault(code: u16) -> Result<Fault, Fail> {
    Ok(Fault::new(code).ok_or("no fault")?)
}

/// The table of these rows.
pub(crate) fn table_of(alloc: Global, rows: &[AnyRow]) -> Result<RuleTable, Fail> {
    let count = u16::try_from(rows.len())?;
    let mut table = RuleTable::new();
    table.read(&table_bytes(alloc, count, rows)?)?;
    Ok(table)
}

/// A retry that is not refused.
pub(crate) fn retry_of<P: Partner + Drop>(
    below: P,
    tries: usize,
) -> Result<Retry<P>, LayerRefusal> {
    Retry::new(below, tries).map_err(|refused| refused.refusal)
}

/// One call, with an output's place that is not blank before: the reply, and what the place holds.
pub(crate) fn ask<P: Partner>(
    rt: &impl Abort,
    partner: &mut P,
    operation: u16,
    input: &Fields,
    expected: &Expected,
) -> Result<(), Fail> {
    let mut output = container(&[Some(77); 8])?;
    let reply = partner.call(operation, &container(input)?, &mut output);
    let (expected_reply, place) = match expected {
        Expected::Gives(fields) => (Reply::Done, container(fields)?),
        Expected::Faults(code) => (Reply::Fault(fault(*code)?), Container::blank()),
        Expected::Busy => (Reply::Busy, Container::blank()),
    };
    assert_eq!(rt; reply, expected_reply);
    assert_eq!(rt; output, place);
    Ok(())
}
