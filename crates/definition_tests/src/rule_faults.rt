//! The loan with flags, links or connectors that break a rule.

use crate::expected::{Damage, are_refused};
use crate::loan::*;
use std::test::Fail;

static FLAGS: [Damage; 5] = [
    (&[(ACTIVITY_0, ACTIVITY_1, b"\x0a\x00\x00\x01")], 5, 0),
    (&[(ACTIVITY_0, ACTIVITY_1, b"\x0a\x00\x00\x80")], 5, 0),
    (&[(ACTIVITY_1, ACTIVITY_2, b"\x14\x00\x00\xff")], 5, 1),
    (&[(ACTIVITY_3, LINK_COUNT, b"\x28\x00\x00\x01")], 5, 3),
    (&[(ACTIVITY_3, LINK_COUNT, b"\x28\x00\x00\x80")], 5, 3),
];

static NO_END: [Damage; 6] = [
    (&[(LINK_0, LINK_1, b"\x04\x01")], 6, 0),
    (&[(LINK_0, LINK_1, b"\x00\x04")], 6, 0),
    (&[(LINK_1, LINK_2, b"\xff\xff")], 6, 1),
    (&[(LINK_2, LINK_3, b"\x01\x20")], 6, 2),
    (&[(LINK_3, CONNECTOR_COUNT, b"\x04\x03")], 6, 3),
    (&[(LINK_3, CONNECTOR_COUNT, b"\x02\x04")], 6, 3),
];

static TWICE: [Damage; 4] = [
    (&[(LINK_1, LINK_2, b"\x00\x01")], 7, 1),
    (&[(LINK_2, LINK_3, b"\x00\x01")], 7, 2),
    (&[(LINK_3, CONNECTOR_COUNT, b"\x00\x01")], 7, 3),
    (&[(LINK_3, CONNECTOR_COUNT, b"\x00\x02")], 7, 3),
];

/// The links that stand instead of the loan's, or of its last.
static CYCLES: [Damage; 11] = [
    // One activity with a link to itself.
    (&[(LINK_0, LINK_1, b"\x00\x00")], 8, 0),
    (&[(LINK_3, CONNECTOR_COUNT, b"\x03\x03")], 8, 3),
    // Two: 0 and 1; 1 and 3, with 0 before them; 2 and 3, with 1 and 0 after them.
    (&[(LINK_1, LINK_2, b"\x01\x00")], 8, 0),
    (&[(LINK_3, CONNECTOR_COUNT, b"\x03\x01")], 8, 1),
    (
        &[(LINK_0, CONNECTOR_COUNT, b"\x02\x03\x03\x02\x03\x01\x01\x00")],
        8,
        2,
    ),
    // Three: 0, 1 and 2; 1, 3 and 2, with 0 before them.
    (
        &[(LINK_0, CONNECTOR_COUNT, b"\x00\x01\x01\x02\x02\x00\x02\x03")],
        8,
        0,
    ),
    (
        &[(LINK_0, CONNECTOR_COUNT, b"\x00\x01\x03\x02\x01\x03\x02\x01")],
        8,
        1,
    ),
    // All four, the greatest linked first.
    (
        &[(LINK_0, CONNECTOR_COUNT, b"\x03\x02\x02\x01\x01\x00\x00\x03")],
        8,
        0,
    ),
    // Two cycles: 3 alone, and 1 with 2; 2 with 3, and 0 with 1; 3 alone, and 2 alone.
    (
        &[(LINK_0, CONNECTOR_COUNT, b"\x03\x03\x00\x02\x01\x02\x02\x01")],
        8,
        1,
    ),
    (
        &[(LINK_0, CONNECTOR_COUNT, b"\x02\x03\x03\x02\x01\x00\x00\x01")],
        8,
        0,
    ),
    (
        &[(LINK_0, CONNECTOR_COUNT, b"\x00\x01\x03\x03\x02\x02\x01\x03")],
        8,
        2,
    ),
];

static BAD_CONNECTORS: [Damage; 20] = [
    // The target is no activity.
    (&[(CONNECTOR_0, CONNECTOR_1, b"\x04\x00\x01\x00\x00")], 9, 0),
    (&[(CONNECTOR_1, TEXT_COUNT, b"\x04\x00\x02\x00\x00")], 9, 1),
    // The target has no such field.
    (&[(CONNECTOR_0, CONNECTOR_1, b"\x00\x08\x01\x00\x00")], 9, 0),
    (&[(CONNECTOR_1, TEXT_COUNT, b"\x03\x08\x02\x00\x00")], 9, 1),
    // There is no such kind.
    (&[(CONNECTOR_0, CONNECTOR_1, b"\x00\x00\x00\x00\x00")], 9, 0),
    (&[(CONNECTOR_0, CONNECTOR_1, b"\x00\x00\x03\x00\x00")], 9, 0),
    (&[(CONNECTOR_1, TEXT_COUNT, b"\x03\x00\x00\x00\x00")], 9, 1),
    (&[(CONNECTOR_1, TEXT_COUNT, b"\x03\x00\x03\x00\x00")], 9, 1),
    // A source activity with kind 1.
    (&[(CONNECTOR_0, CONNECTOR_1, b"\x00\x00\x01\x01\x00")], 9, 0),
    (&[(CONNECTOR_1, TEXT_COUNT, b"\x03\x00\x01\x01\x00")], 9, 1),
    (&[(CONNECTOR_1, TEXT_COUNT, b"\x03\x00\x01\xff\x00")], 9, 1),
    // The source of kind 2 is no activity.
    (&[(CONNECTOR_0, CONNECTOR_1, b"\x00\x00\x02\x04\x00")], 9, 0),
    (&[(CONNECTOR_1, TEXT_COUNT, b"\x03\x00\x02\x04\x00")], 9, 1),
    // The source has no such field.
    (&[(CONNECTOR_0, CONNECTOR_1, b"\x00\x00\x01\x00\x08")], 9, 0),
    (&[(CONNECTOR_1, TEXT_COUNT, b"\x03\x00\x02\x00\x08")], 9, 1),
    (&[(CONNECTOR_1, TEXT_COUNT, b"\x03\x00\x02\x00\xff")], 9, 1),
    // An earlier connector has the target and its field: next to it, and one further.
    (&[(CONNECTOR_1, TEXT_COUNT, b"\x00\x00\x01\x00\x07")], 9, 1),
    (
        &[
            (CONNECTOR_COUNT, CONNECTOR_0, b"\x03\x00"),
            (TEXT_COUNT, TEXT_COUNT, b"\x00\x00\x01\x00\x01"),
        ],
        9,
        2,
    ),
    (
        &[
            (CONNECTOR_COUNT, CONNECTOR_0, b"\x03\x00"),
            (TEXT_COUNT, TEXT_COUNT, b"\x03\x00\x01\x00\x01"),
        ],
        9,
        2,
    ),
    (
        &[
            (CONNECTOR_COUNT, CONNECTOR_0, b"\x04\x00"),
            (
                TEXT_COUNT,
                TEXT_COUNT,
                b"\x02\x00\x01\x00\x00\x03\x00\x02\x00\x00",
            ),
        ],
        9,
        3,
    ),
];

static NO_PATH: [Damage; 7] = [
    // The source comes after the target.
    (
        &[(CONNECTOR_0, CONNECTOR_1, b"\x00\x00\x02\x03\x00")],
        10,
        0,
    ),
    (&[(CONNECTOR_1, TEXT_COUNT, b"\x01\x00\x02\x03\x00")], 10, 1),
    // The source is the target.
    (
        &[(CONNECTOR_0, CONNECTOR_1, b"\x00\x00\x02\x00\x00")],
        10,
        0,
    ),
    (&[(CONNECTOR_1, TEXT_COUNT, b"\x03\x00\x02\x03\x00")], 10, 1),
    // Neither of 1 and 2 reaches the other.
    (&[(CONNECTOR_1, TEXT_COUNT, b"\x02\x00\x02\x01\x00")], 10, 1),
    (&[(CONNECTOR_1, TEXT_COUNT, b"\x01\x00\x02\x02\x00")], 10, 1),
    // Activity 2 has no link: they are 0 to 1, 0 to 3 and 1 to 3, and the text of a fourth is gone.
    (
        &[
            (
                LINK_COUNT,
                CONNECTOR_COUNT,
                b"\x03\x00\x00\x01\x00\x03\x01\x03",
            ),
            (CONNECTOR_1, TEXT_0, b"\x03\x00\x02\x02\x00\x07\x00"),
            (TEXT_3, TEXT_4, b""),
        ],
        10,
        1,
    ),
];

#[test]
fn bad_flags(rt: HostRuntime) -> Result<(), Fail> {
    are_refused(&rt, &FLAGS)
}

#[test]
fn bad_links(rt: HostRuntime) -> Result<(), Fail> {
    are_refused(&rt, &NO_END)?;
    are_refused(&rt, &TWICE)
}

#[test]
fn on_cycles(rt: HostRuntime) -> Result<(), Fail> {
    are_refused(&rt, &CYCLES)
}

#[test]
fn unfit_connectors(rt: HostRuntime) -> Result<(), Fail> {
    are_refused(&rt, &BAD_CONNECTORS)?;
    are_refused(&rt, &NO_PATH)
}
