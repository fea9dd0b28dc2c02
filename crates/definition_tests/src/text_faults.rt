//! The loan with texts that are no conditions. The place is 256 times the text's number, and the place in it.

use crate::expected::{Damage, are_refused};
use crate::loan::*;
use std::test::Fail;

static BAD_TRANSITIONS: [Damage; 13] = [
    (&[(TEXT_0, TEXT_1, b"\x09g0 <= 300")], 11, 0),
    (&[(TEXT_0, TEXT_1, b"\x02L0")], 11, 0),
    (&[(TEXT_0, TEXT_1, b"\x09f0 <x 300")], 11, 4),
    (&[(TEXT_0, TEXT_1, b"\x09f0 <= 030")], 11, 6),
    (&[(TEXT_0, TEXT_1, b"\x05f0 <=")], 11, 5),
    (&[(TEXT_0, TEXT_1, b"\x09f0 <=    ")], 11, 9),
    (&[(TEXT_0, TEXT_1, b"\x01 ")], 11, 1),
    (&[(TEXT_1, TEXT_2, b"\x08f0 > 3x0")], 11, 261),
    (&[(TEXT_1, TEXT_2, b"\x09f0 > 300)")], 11, 264),
    (&[(TEXT_2, TEXT_3, b"\x02L0")], 11, 512),
    (&[(TEXT_2, TEXT_3, b"\x12f0 < 1000000000000")], 11, 517),
    (&[(TEXT_3, TEXT_4, b"\x04True")], 11, 768),
    (&[(TEXT_3, TEXT_4, b"\x08true and")], 11, 776),
];

static BAD_JOINS: [Damage; 14] = [
    // Activity 0 has no incoming link.
    (&[(TEXT_4, TEXT_5, b"\x02L0")], 11, 1024),
    (&[(TEXT_4, TEXT_5, b"\x0atrue or L2")], 11, 1032),
    // Link 1 goes to activity 2, links 2 and 3 to activity 3, and link 4 nowhere.
    (&[(TEXT_5, TEXT_6, b"\x02L1")], 11, 1280),
    (&[(TEXT_5, TEXT_6, b"\x06L0 and")], 11, 1286),
    (&[(TEXT_6, TEXT_7, b"\x02L0")], 11, 1536),
    (&[(TEXT_6, TEXT_7, b"\x05L1 L1")], 11, 1539),
    (&[(TEXT_7, END, b"\x08L1 or L3")], 11, 1792),
    (&[(TEXT_7, END, b"\x08f0 < 300")], 11, 1792),
    (&[(TEXT_7, END, b"\x03L02")], 11, 1792),
    (&[(TEXT_7, END, b"\x08L2 ar L3")], 11, 1795),
    (&[(TEXT_7, END, b"\x08L2 or L4")], 11, 1798),
    (&[(TEXT_7, END, b"\x08L2 or L\xb3")], 11, 1798),
    (&[(TEXT_7, END, b"\x05L2 or")], 11, 1797),
    (&[(TEXT_7, END, b"\x08L2 or   ")], 11, 1800),
];

#[test]
fn transition_texts(rt: HostRuntime) -> Result<(), Fail> {
    are_refused(&rt, &BAD_TRANSITIONS)
}

#[test]
fn join_texts(rt: HostRuntime) -> Result<(), Fail> {
    are_refused(&rt, &BAD_JOINS)
}
