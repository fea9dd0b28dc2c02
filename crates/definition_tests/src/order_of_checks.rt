//! The loan damaged in two ways: the check that comes first counts.

use crate::expected::{Damage, are_refused};
use crate::loan::*;
use std::test::Fail;

static LAYOUT_FIRST: [Damage; 7] = [
    // A link count and a text length; a text length and the last text cut; a text count and a byte too many.
    (
        &[
            (LINK_COUNT, LINK_0, b"\x81\x00"),
            (TEXT_0, TEXT_0 + 1, b"\x00"),
        ],
        2,
        18,
    ),
    (&[(TEXT_0, TEXT_0 + 1, b"\x3d"), (END - 1, END, b"")], 3, 42),
    (
        &[(TEXT_COUNT, TEXT_0, b"\x09\x00"), (END, END, b"\x00")],
        2,
        40,
    ),
    // Flags, and a byte too many, or the last text cut, or an earlier text without bytes.
    (
        &[
            (ACTIVITY_0, ACTIVITY_1, b"\x0a\x00\x00\x01"),
            (END, END, b"\x00"),
        ],
        4,
        91,
    ),
    (
        &[
            (ACTIVITY_0, ACTIVITY_1, b"\x0a\x00\x00\x01"),
            (END - 1, END, b""),
        ],
        1,
        83,
    ),
    (
        &[
            (ACTIVITY_0, ACTIVITY_1, b"\x0a\x00\x00\x01"),
            (TEXT_4, TEXT_5, b"\x00"),
        ],
        3,
        71,
    ),
    // A text that is no condition, and a byte too many.
    (&[(TEXT_0, TEXT_1, b"\x02L0"), (END, END, b"\x00")], 4, 84),
];

static FLAGS_THEN_LINKS: [Damage; 7] = [
    // The first of two flags; the last flags before the first link.
    (
        &[
            (ACTIVITY_1, ACTIVITY_2, b"\x14\x00\x00\x01"),
            (ACTIVITY_3, LINK_COUNT, b"\x28\x00\x00\x01"),
        ],
        5,
        1,
    ),
    (
        &[
            (ACTIVITY_3, LINK_COUNT, b"\x28\x00\x00\x01"),
            (LINK_0, LINK_1, b"\x04\x01"),
        ],
        5,
        3,
    ),
    // Link 1 has no end and link 2 is a second; and the other way round.
    (&[(LINK_1, LINK_3, b"\x00\x04\x00\x01")], 6, 1),
    (&[(LINK_1, LINK_3, b"\x00\x01\x04\x03")], 7, 1),
    // Two links alike without an end.
    (&[(LINK_0, LINK_2, b"\x00\x04\x00\x04")], 6, 0),
    // A cycle of the first link, and a last link that is a second, or without an end.
    (
        &[
            (LINK_0, LINK_1, b"\x00\x00"),
            (LINK_3, CONNECTOR_COUNT, b"\x00\x02"),
        ],
        7,
        3,
    ),
    (
        &[
            (LINK_0, LINK_1, b"\x00\x00"),
            (LINK_3, CONNECTOR_COUNT, b"\x02\x04"),
        ],
        6,
        3,
    ),
];

static CONNECTORS_AFTER_CYCLES: [Damage; 5] = [
    (
        &[
            (LINK_3, CONNECTOR_COUNT, b"\x03\x03"),
            (CONNECTOR_0, CONNECTOR_1, b"\x00\x00\x00\x00\x00"),
        ],
        8,
        3,
    ),
    // Connector 0 without a path and connector 1 of no kind; and the other way round.
    (
        &[(
            CONNECTOR_0,
            TEXT_COUNT,
            b"\x00\x00\x02\x00\x00\x03\x00\x03\x00\x00",
        )],
        10,
        0,
    ),
    (
        &[(
            CONNECTOR_0,
            TEXT_COUNT,
            b"\x00\x00\x00\x00\x00\x03\x00\x02\x03\x00",
        )],
        9,
        0,
    ),
    // Connector 1 has neither a field nor a path, and then the field of connector 0 and no path.
    (&[(CONNECTOR_1, TEXT_COUNT, b"\x00\x08\x02\x03\x00")], 9, 1),
    (&[(CONNECTOR_1, TEXT_COUNT, b"\x00\x00\x02\x03\x00")], 9, 1),
];

static TEXTS_LAST: [Damage; 4] = [
    (
        &[
            (CONNECTOR_1, TEXT_COUNT, b"\x03\x00\x02\x03\x00"),
            (TEXT_0, TEXT_1, b"\x02L0"),
        ],
        10,
        1,
    ),
    (
        &[
            (CONNECTOR_1, TEXT_COUNT, b"\x03\x08\x02\x00\x00"),
            (TEXT_0, TEXT_1, b"\x02L0"),
        ],
        9,
        1,
    ),
    // The end of text 0 and the start of text 1; the end of the last transition and the start of the first join.
    (&[(TEXT_0, TEXT_2, b"\x09f0 <=    \x08g0 > 300")], 11, 9),
    (&[(TEXT_3, TEXT_5, b"\x05true(\x02L0")], 11, 772),
];

#[test]
fn layout_before_rules(rt: HostRuntime) -> Result<(), Fail> {
    are_refused(&rt, &LAYOUT_FIRST)
}

#[test]
fn flags_before_links_one_by_one(rt: HostRuntime) -> Result<(), Fail> {
    are_refused(&rt, &FLAGS_THEN_LINKS)
}

#[test]
fn cycles_before_connectors_one_by_one(rt: HostRuntime) -> Result<(), Fail> {
    are_refused(&rt, &CONNECTORS_AFTER_CYCLES)
}

#[test]
fn texts_come_last(rt: HostRuntime) -> Result<(), Fail> {
    are_refused(&rt, &TEXTS_LAST)
}
