//! The loan's bytes cut, lengthened, or with a wrong count or length.

use crate::expected::{Damage, are_refused};
use crate::loan::*;
use std::test::Fail;

/// The input ends at the first offset of each.
static CUT: [Damage; 26] = [
    (&[(0, END, b"")], 1, 0),
    (&[(1, END, b"")], 1, 0),
    (&[(ACTIVITY_0, END, b"")], 1, ACTIVITY_0),
    (&[(ACTIVITY_0 + 3, END, b"")], 1, ACTIVITY_0),
    (&[(ACTIVITY_1, END, b"")], 1, ACTIVITY_1),
    (&[(ACTIVITY_3 + 3, END, b"")], 1, ACTIVITY_3),
    (&[(LINK_COUNT, END, b"")], 1, LINK_COUNT),
    (&[(LINK_COUNT + 1, END, b"")], 1, LINK_COUNT),
    (&[(LINK_0, END, b"")], 1, LINK_0),
    (&[(LINK_3 + 1, END, b"")], 1, LINK_3),
    (&[(CONNECTOR_COUNT, END, b"")], 1, CONNECTOR_COUNT),
    (&[(CONNECTOR_COUNT + 1, END, b"")], 1, CONNECTOR_COUNT),
    (&[(CONNECTOR_0, END, b"")], 1, CONNECTOR_0),
    (&[(CONNECTOR_1 + 4, END, b"")], 1, CONNECTOR_1),
    (&[(TEXT_COUNT, END, b"")], 1, TEXT_COUNT),
    (&[(TEXT_COUNT + 1, END, b"")], 1, TEXT_COUNT),
    (&[(TEXT_0, END, b"")], 1, TEXT_0),
    (&[(TEXT_0 + 1, END, b"")], 1, TEXT_0 + 1),
    (&[(TEXT_1 - 1, END, b"")], 1, TEXT_0 + 1),
    (&[(TEXT_1, END, b"")], 1, TEXT_1),
    (&[(TEXT_7, END, b"")], 1, TEXT_7),
    (&[(TEXT_7 + 1, END, b"")], 1, TEXT_7 + 1),
    (&[(TEXT_7 + 2, END, b"")], 1, TEXT_7 + 1),
    (&[(END - 1, END, b"")], 1, TEXT_7 + 1),
    // The last text's length is too great by one, and the greatest that there is.
    (&[(TEXT_7, TEXT_7 + 1, b"\x09")], 1, 83),
    (&[(TEXT_7, TEXT_7 + 1, b"\x3c")], 1, 83),
];

static COUNTS: [Damage; 14] = [
    (&[(ACTIVITY_COUNT, ACTIVITY_0, b"\x00\x00")], 2, 0),
    (&[(ACTIVITY_COUNT, ACTIVITY_0, b"\x21\x00")], 2, 0),
    (&[(ACTIVITY_COUNT, ACTIVITY_0, b"\x01\x01")], 2, 0),
    (&[(ACTIVITY_COUNT, ACTIVITY_0, b"\x00\x04")], 2, 0),
    (&[(LINK_COUNT, LINK_0, b"\x81\x00")], 2, 18),
    (&[(LINK_COUNT, LINK_0, b"\x04\x01")], 2, 18),
    (&[(LINK_COUNT, END, b"\xff\xff")], 2, 18),
    (&[(CONNECTOR_COUNT, CONNECTOR_0, b"\x01\x01")], 2, 28),
    (&[(CONNECTOR_COUNT, CONNECTOR_0, b"\x02\x80")], 2, 28),
    (&[(TEXT_COUNT, TEXT_0, b"\x07\x00")], 2, 40),
    (&[(TEXT_COUNT, TEXT_0, b"\x09\x00")], 2, 40),
    (&[(TEXT_COUNT, TEXT_0, b"\x00\x00")], 2, 40),
    (&[(TEXT_COUNT, TEXT_0, b"\x08\x01")], 2, 40),
    (&[(TEXT_COUNT, END, b"\x04\x00")], 2, 40),
];

static LENGTHS: [Damage; 7] = [
    (&[(TEXT_0, TEXT_0 + 1, b"\x00")], 3, 42),
    (&[(TEXT_0, TEXT_0 + 1, b"\x3d")], 3, 42),
    (&[(TEXT_4, TEXT_5, b"\x00")], 3, 71),
    (&[(TEXT_7, TEXT_7 + 1, b"\x00")], 3, 82),
    (&[(TEXT_7, TEXT_7 + 1, b"\x3d")], 3, 82),
    (&[(TEXT_7, END, b"\x3d")], 3, 82),
    (&[(TEXT_7, END, b"\xff")], 3, 82),
];

static EXTRA: [Damage; 4] = [
    (&[(END, END, b"\x00")], 4, 91),
    (&[(END, END, b"\x04true")], 4, 91),
    (&[(TEXT_7, TEXT_7 + 1, b"\x07")], 4, 90),
    (&[(TEXT_7, TEXT_7 + 1, b"\x01")], 4, 84),
];

#[test]
fn cut_short(rt: HostRuntime) -> Result<(), Fail> {
    are_refused(&rt, &CUT)
}

#[test]
fn out_of_limits(rt: HostRuntime) -> Result<(), Fail> {
    are_refused(&rt, &COUNTS)
}

#[test]
fn text_lengths(rt: HostRuntime) -> Result<(), Fail> {
    are_refused(&rt, &LENGTHS)
}

#[test]
fn extra_bytes(rt: HostRuntime) -> Result<(), Fail> {
    are_refused(&rt, &EXTRA)
}
