use crate::bytes::{AnyRow, BLANK, PLAIN, table_bytes};
use crate::expected::{BLANKS, Expected, ask, table_of};
use refusals::Refusal;
use std::alloc::{AllocError, Global};
use std::process::Abort;
use std::test::Fail;
use tables::refusal::TableRefusal;
use tables::table::RuleTable;

/// A row that tests a field, or none.
const fn testing(tested: u8, low: i64, high: i64) -> AnyRow {
    AnyRow {
        tested,
        low,
        high,
        ..PLAIN
    }
}

/// A row with a fault, and f7 of its outputs.
const fn giving(fault: u16, last: (u8, i64)) -> AnyRow {
    AnyRow {
        fault,
        outputs: [BLANK, BLANK, BLANK, BLANK, BLANK, BLANK, BLANK, last],
        ..PLAIN
    }
}

fn refused(
    rt: &impl Abort,
    alloc: Global,
    bytes: &[u8],
    refusal: TableRefusal,
) -> Result<(), Fail> {
    let mut table = table_of(alloc, &[giving(99, BLANK)])?;
    assert_eq!(rt; table.read(bytes), Err(refusal));
    ask(rt, &mut table, 1, &BLANKS, &Expected::Faults(99))
}

/// The row is bad, in front of a sound one and behind it.
fn bad(rt: &impl Abort, alloc: Global, row: AnyRow) -> Result<(), Fail> {
    let first = table_bytes(alloc, 2, &[row, PLAIN])?;
    refused(rt, alloc, &first, TableRefusal::BadRow(0))?;
    let second = table_bytes(alloc, 2, &[PLAIN, row])?;
    refused(rt, alloc, &second, TableRefusal::BadRow(1))
}

/// The row is sound.
fn sound(alloc: Global, row: AnyRow) -> Result<(), Fail> {
    let _table = table_of(alloc, &[PLAIN, row])?;
    Ok(())
}

/// Tested field, low and high of sound rows.
const SOUND_TESTS: [(u8, i64, i64); 9] = [
    (0, 5, 5),
    (1, -5, 5),
    (2, -5, -4),
    (3, 0, 0),
    (4, i64::MIN, i64::MIN),
    (5, i64::MAX, i64::MAX),
    (6, 1, 1_000_000_000_000),
    (7, i64::MIN, i64::MAX),
    (255, 0, 0),
];

const BAD_TESTS: [(u8, i64, i64); 9] = [
    (0, 5, 4),
    (7, -4, -5),
    (3, i64::MAX, i64::MIN),
    (8, 5, 5),
    (8, 0, 0),
    (254, 0, 0),
    (255, 0, 1),
    (255, -1, 0),
    (255, 1, 1),
];

/// Fault, and tag and value of f7, of sound rows.
const SOUND_OUTCOMES: [(u16, u8, i64); 8] = [
    (0, 0, 0),
    (0, 1, 0),
    (0, 1, 999_999_999_999),
    (0, 1, -999_999_999_999),
    (0, 2, 0),
    (0, 2, 7),
    (10, 0, 0),
    (65535, 0, 0),
];

const BAD_OUTCOMES: [(u16, u8, i64); 17] = [
    (1, 0, 0),
    (2, 0, 0),
    (9, 0, 0),
    (10, 1, 0),
    (10, 0, 1),
    (10, 2, 0),
    (65535, 1, 25),
    (0, 0, 1),
    (0, 0, -1),
    (0, 1, 1_000_000_000_000),
    (0, 1, -1_000_000_000_000),
    (0, 1, i64::MIN),
    (0, 2, 8),
    (0, 2, -1),
    (0, 2, 256),
    (0, 3, 0),
    (0, 255, 0),
];

#[test]
fn tested_fields(rt: HostRuntime) -> Result<(), Fail> {
    for (tested, low, high) in SOUND_TESTS {
        sound(rt.alloc(), testing(tested, low, high))?;
    }
    for (tested, low, high) in BAD_TESTS {
        bad(&rt, rt.alloc(), testing(tested, low, high))?;
    }
    Ok(())
}

#[test]
fn faults_and_outputs(rt: HostRuntime) -> Result<(), Fail> {
    for (fault, tag, value) in SOUND_OUTCOMES {
        sound(rt.alloc(), giving(fault, (tag, value)))?;
    }
    for (fault, tag, value) in BAD_OUTCOMES {
        bad(&rt, rt.alloc(), giving(fault, (tag, value)))?;
    }
    Ok(())
}

/// A table of so many rows, each the same, but with this one as the last.
fn ending_in(alloc: Global, count: u16, row: AnyRow) -> Result<Vec<u8>, AllocError> {
    let mut rows = vec![in alloc; PLAIN; usize::from(count)]?;
    if let Some(last) = rows.last_mut() {
        *last = row;
    }
    table_bytes(alloc, count, &rows)
}

/// Bytes that are no count and as many rows.
const MISFITS: [&[u8]; 5] = [b"", b"\0", b"\0\0\0", b"\x01\0", b"\xff\xff"];

#[test]
fn sizes(rt: HostRuntime) -> Result<(), Fail> {
    let mut table = RuleTable::new();
    for bytes in MISFITS {
        assert_eq!(rt; table.read(bytes), Err(TableRefusal::Size));
    }
    assert_eq!(rt; table.read(b"\0\0"), Ok(()));
    assert_eq!(rt; table.read(&ending_in(rt.alloc(), 64, PLAIN)?), Ok(()));
    let long = ending_in(rt.alloc(), 65, PLAIN)?;
    refused(&rt, rt.alloc(), &long, TableRefusal::Size)
}

#[test]
fn lowest_bad_row(rt: HostRuntime) -> Result<(), Fail> {
    let one = ending_in(rt.alloc(), 64, giving(9, BLANK))?;
    refused(&rt, rt.alloc(), &one, TableRefusal::BadRow(63))?;
    let two = table_bytes(rt.alloc(), 3, &[PLAIN, giving(9, BLANK), giving(9, BLANK)])?;
    refused(&rt, rt.alloc(), &two, TableRefusal::BadRow(1))
}

#[test]
fn a_wrong_size_goes_before_a_bad_row(rt: HostRuntime) -> Result<(), Fail> {
    let mut long = table_bytes(rt.alloc(), 2, &[giving(9, BLANK), PLAIN])?;
    long.push(0)?;
    refused(&rt, rt.alloc(), &long, TableRefusal::Size)
}

#[test]
fn numbers_and_places(rt: HostRuntime) {
    assert_eq!(rt; TableRefusal::Size.cause(), 31);
    assert_eq!(rt; TableRefusal::Size.place(), 0);
    assert_eq!(rt; TableRefusal::BadRow(63).cause(), 33);
    assert_eq!(rt; TableRefusal::BadRow(63).place(), 63);
}
