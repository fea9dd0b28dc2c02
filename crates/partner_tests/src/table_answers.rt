use crate::bytes::{AnyRow, BLANK, PLAIN};
use crate::expected::{BLANKS, Expected, Fields, ask, table_of};
use std::test::Fail;
use tables::table::RuleTable;

/// Operations 10 to 40 are those of the loan; 50 has overlapping rows; 60 tests f3; 70 has the widest
/// limits; 80 has every tag and the limits of an amount; 90 and 91 have the least and the greatest fault.
const ROWS: [AnyRow; 12] = [
    AnyRow {
        operation: 10,
        outputs: [(2, 0), BLANK, BLANK, BLANK, BLANK, BLANK, BLANK, (1, 25)],
        ..PLAIN
    },
    AnyRow {
        operation: 20,
        ..PLAIN
    },
    AnyRow {
        operation: 30,
        outputs: [BLANK, BLANK, BLANK, BLANK, BLANK, BLANK, BLANK, (1, 40)],
        ..PLAIN
    },
    AnyRow {
        operation: 40,
        outputs: [(2, 0), BLANK, BLANK, BLANK, BLANK, BLANK, BLANK, BLANK],
        ..PLAIN
    },
    AnyRow {
        operation: 50,
        tested: 0,
        low: 100,
        high: 200,
        outputs: [(1, 1), BLANK, BLANK, BLANK, BLANK, BLANK, BLANK, BLANK],
        ..PLAIN
    },
    AnyRow {
        operation: 50,
        tested: 0,
        low: 150,
        high: 300,
        outputs: [(1, 2), BLANK, BLANK, BLANK, BLANK, BLANK, BLANK, BLANK],
        ..PLAIN
    },
    AnyRow {
        operation: 50,
        fault: 17,
        ..PLAIN
    },
    AnyRow {
        operation: 60,
        tested: 3,
        low: -10,
        high: -10,
        outputs: [BLANK, BLANK, BLANK, (2, 3), BLANK, BLANK, BLANK, BLANK],
        ..PLAIN
    },
    AnyRow {
        operation: 70,
        tested: 7,
        low: i64::MIN,
        high: i64::MAX,
        outputs: [(2, 7), BLANK, BLANK, BLANK, BLANK, BLANK, BLANK, BLANK],
        ..PLAIN
    },
    AnyRow {
        operation: 80,
        outputs: [
            (2, 7),
            (2, 6),
            (1, 999_999_999_999),
            (1, -999_999_999_999),
            (1, 0),
            (2, 5),
            BLANK,
            (2, 0),
        ],
        ..PLAIN
    },
    AnyRow {
        operation: 90,
        fault: 10,
        ..PLAIN
    },
    AnyRow {
        operation: 65535,
        fault: 65535,
        ..PLAIN
    },
];

/// An operation, an input and what the rows above answer.
struct Example {
    operation: u16,
    input: Fields,
    answer: Expected,
}

const EXAMPLES: [Example; 32] = [
    Example {
        operation: 10,
        input: [Some(250), None, None, None, None, None, None, None],
        answer: Expected::Gives([Some(250), None, None, None, None, None, None, Some(25)]),
    },
    Example {
        operation: 10,
        input: BLANKS,
        answer: Expected::Gives([None, None, None, None, None, None, None, Some(25)]),
    },
    Example {
        operation: 20,
        input: [Some(250), None, None, None, None, None, None, None],
        answer: Expected::Gives(BLANKS),
    },
    Example {
        operation: 30,
        input: [Some(250), None, None, None, None, None, None, None],
        answer: Expected::Gives([None, None, None, None, None, None, None, Some(40)]),
    },
    Example {
        operation: 40,
        input: [Some(250), None, None, None, None, None, None, None],
        answer: Expected::Gives([Some(250), None, None, None, None, None, None, None]),
    },
    Example {
        operation: 40,
        input: [
            Some(1),
            Some(2),
            Some(3),
            Some(4),
            Some(5),
            Some(6),
            Some(7),
            Some(8),
        ],
        answer: Expected::Gives([Some(1), None, None, None, None, None, None, None]),
    },
    Example {
        operation: 50,
        input: [Some(100), None, None, None, None, None, None, None],
        answer: Expected::Gives([Some(1), None, None, None, None, None, None, None]),
    },
    Example {
        operation: 50,
        input: [Some(150), None, None, None, None, None, None, None],
        answer: Expected::Gives([Some(1), None, None, None, None, None, None, None]),
    },
    Example {
        operation: 50,
        input: [Some(200), None, None, None, None, None, None, None],
        answer: Expected::Gives([Some(1), None, None, None, None, None, None, None]),
    },
    Example {
        operation: 50,
        input: [Some(201), None, None, None, None, None, None, None],
        answer: Expected::Gives([Some(2), None, None, None, None, None, None, None]),
    },
    Example {
        operation: 50,
        input: [Some(300), None, None, None, None, None, None, None],
        answer: Expected::Gives([Some(2), None, None, None, None, None, None, None]),
    },
    Example {
        operation: 50,
        input: [Some(99), None, None, None, None, None, None, None],
        answer: Expected::Faults(17),
    },
    Example {
        operation: 50,
        input: [Some(301), None, None, None, None, None, None, None],
        answer: Expected::Faults(17),
    },
    Example {
        operation: 50,
        input: BLANKS,
        answer: Expected::Faults(17),
    },
    Example {
        operation: 50,
        input: [None, Some(150), None, None, None, None, None, None],
        answer: Expected::Faults(17),
    },
    Example {
        operation: 60,
        input: [None, None, None, Some(-10), None, None, None, None],
        answer: Expected::Gives([None, None, None, Some(-10), None, None, None, None]),
    },
    Example {
        operation: 60,
        input: [None, None, None, Some(-9), None, None, None, None],
        answer: Expected::Faults(1),
    },
    Example {
        operation: 60,
        input: [None, None, None, Some(-11), None, None, None, None],
        answer: Expected::Faults(1),
    },
    Example {
        operation: 60,
        input: [None, None, None, Some(10), None, None, None, None],
        answer: Expected::Faults(1),
    },
    Example {
        operation: 60,
        input: BLANKS,
        answer: Expected::Faults(1),
    },
    Example {
        operation: 60,
        input: [
            Some(-10),
            Some(-10),
            Some(-10),
            None,
            Some(-10),
            Some(-10),
            Some(-10),
            Some(-10),
        ],
        answer: Expected::Faults(1),
    },
    Example {
        operation: 70,
        input: [
            None,
            None,
            None,
            None,
            None,
            None,
            None,
            Some(999_999_999_999),
        ],
        answer: Expected::Gives([
            Some(999_999_999_999),
            None,
            None,
            None,
            None,
            None,
            None,
            None,
        ]),
    },
    Example {
        operation: 70,
        input: [
            None,
            None,
            None,
            None,
            None,
            None,
            None,
            Some(-999_999_999_999),
        ],
        answer: Expected::Gives([
            Some(-999_999_999_999),
            None,
            None,
            None,
            None,
            None,
            None,
            None,
        ]),
    },
    Example {
        operation: 70,
        input: [None, None, None, None, None, None, None, Some(0)],
        answer: Expected::Gives([Some(0), None, None, None, None, None, None, None]),
    },
    Example {
        operation: 70,
        input: BLANKS,
        answer: Expected::Faults(1),
    },
    Example {
        operation: 80,
        input: [
            Some(1),
            Some(2),
            Some(3),
            Some(4),
            Some(5),
            Some(6),
            Some(7),
            Some(8),
        ],
        answer: Expected::Gives([
            Some(8),
            Some(7),
            Some(999_999_999_999),
            Some(-999_999_999_999),
            Some(0),
            Some(6),
            None,
            Some(1),
        ]),
    },
    Example {
        operation: 80,
        input: BLANKS,
        answer: Expected::Gives([
            None,
            None,
            Some(999_999_999_999),
            Some(-999_999_999_999),
            Some(0),
            None,
            None,
            None,
        ]),
    },
    Example {
        operation: 90,
        input: [Some(250), None, None, None, None, None, None, None],
        answer: Expected::Faults(10),
    },
    Example {
        operation: 65535,
        input: BLANKS,
        answer: Expected::Faults(65535),
    },
    Example {
        operation: 0,
        input: BLANKS,
        answer: Expected::Faults(1),
    },
    Example {
        operation: 11,
        input: [Some(250), None, None, None, None, None, None, None],
        answer: Expected::Faults(1),
    },
    Example {
        operation: 91,
        input: BLANKS,
        answer: Expected::Faults(1),
    },
];

#[test]
fn rows_answer(rt: HostRuntime) -> Result<(), Fail> {
    let mut table = table_of(rt.alloc(), &ROWS)?;
    for example in &EXAMPLES {
        ask(
            &rt,
            &mut table,
            example.operation,
            &example.input,
            &example.answer,
        )?;
    }
    Ok(())
}

#[test]
fn a_fresh_table_faults(rt: HostRuntime) -> Result<(), Fail> {
    ask(
        &rt,
        &mut RuleTable::new(),
        10,
        &BLANKS,
        &Expected::Faults(1),
    )
}

/// One row, byte by byte: operation 0x0201, f4 from -2 to 258, no fault, f0 = -1, f7 copied from f4.
const WRITTEN: [u8; 95] = [
    1, 0, // count
    1, 2, // operation
    4, // tested field
    0xfe, 0xff, 0xff, 0xff, 0xff, 0xff, 0xff, 0xff, // low
    2, 1, 0, 0, 0, 0, 0, 0, // high
    0, 0, // fault
    1, 0xff, 0xff, 0xff, 0xff, 0xff, 0xff, 0xff, 0xff, // f0
    0, 0, 0, 0, 0, 0, 0, 0, 0, // f1
    0, 0, 0, 0, 0, 0, 0, 0, 0, // f2
    0, 0, 0, 0, 0, 0, 0, 0, 0, // f3
    0, 0, 0, 0, 0, 0, 0, 0, 0, // f4
    0, 0, 0, 0, 0, 0, 0, 0, 0, // f5
    0, 0, 0, 0, 0, 0, 0, 0, 0, // f6
    2, 4, 0, 0, 0, 0, 0, 0, 0, // f7
];

#[test]
fn a_row_as_written(rt: HostRuntime) -> Result<(), Fail> {
    let mut table = RuleTable::new();
    assert_eq!(rt; table.read(&WRITTEN), Ok(()));
    let input = [None, None, None, None, Some(258), None, None, None];
    let output = [Some(-1), None, None, None, None, None, None, Some(258)];
    ask(&rt, &mut table, 0x0201, &input, &Expected::Gives(output))?;
    ask(&rt, &mut table, 0x0102, &input, &Expected::Faults(1))
}
