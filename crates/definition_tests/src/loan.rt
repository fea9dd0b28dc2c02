//! The loan: four activities, the second and third between the first and the last.

use parts::{Activity, Connector, Link};

pub(crate) static BYTES: &[u8; 91] = b"\x04\x00\
    \x0a\x00\x00\x00\
    \x14\x00\x00\x00\
    \x1e\x00\x00\x00\
    \x28\x00\x00\x00\
    \x04\x00\
    \x00\x01\
    \x00\x02\
    \x01\x03\
    \x02\x03\
    \x02\x00\
    \x00\x00\x01\x00\x00\
    \x03\x00\x02\x00\x00\
    \x08\x00\
    \x09f0 <= 300\
    \x08f0 > 300\
    \x04true\
    \x04true\
    \x04true\
    \x02L0\
    \x02L1\
    \x08L2 or L3";

// Where its counts, records and texts begin. A text begins with its length.
pub(crate) const ACTIVITY_COUNT: usize = 0;

pub(crate) const ACTIVITY_0: usize = 2;

pub(crate) const ACTIVITY_1: usize = 6;

pub(crate) const ACTIVITY_2: usize = 10;

pub(crate) const ACTIVITY_3: usize = 14;

pub(crate) const LINK_COUNT: usize = 18;

pub(crate) const LINK_0: usize = 20;

pub(crate) const LINK_1: usize = 22;

pub(crate) const LINK_2: usize = 24;

pub(crate) const LINK_3: usize = 26;

pub(crate) const CONNECTOR_COUNT: usize = 28;

pub(crate) const CONNECTOR_0: usize = 30;

pub(crate) const CONNECTOR_1: usize = 35;

pub(crate) const TEXT_COUNT: usize = 40;

pub(crate) const TEXT_0: usize = 42;

pub(crate) const TEXT_1: usize = 52;

pub(crate) const TEXT_2: usize = 61;

pub(crate) const TEXT_3: usize = 66;

pub(crate) const TEXT_4: usize = 71;

pub(crate) const TEXT_5: usize = 76;

pub(crate) const TEXT_6: usize = 79;

pub(crate) const TEXT_7: usize = 82;

pub(crate) const END: usize = 91;

pub(crate) static ACTIVITIES: [Activity; 4] = [
    Activity {
        operation: 10,
        priority: 0,
        flags: 0,
    },
    Activity {
        operation: 20,
        priority: 0,
        flags: 0,
    },
    Activity {
        operation: 30,
        priority: 0,
        flags: 0,
    },
    Activity {
        operation: 40,
        priority: 0,
        flags: 0,
    },
];

pub(crate) static LINKS: [Link; 4] = [
    Link {
        source: 0,
        target: 1,
    },
    Link {
        source: 0,
        target: 2,
    },
    Link {
        source: 1,
        target: 3,
    },
    Link {
        source: 2,
        target: 3,
    },
];

pub(crate) static CONNECTORS: [Connector; 2] = [
    Connector {
        target: 0,
        target_field: 0,
        kind: 1,
        source: 0,
        source_field: 0,
    },
    Connector {
        target: 3,
        target_field: 0,
        kind: 2,
        source: 0,
        source_field: 0,
    },
];

pub(crate) static TRANSITIONS: [&[u8]; 4] = [b"f0 <= 300", b"f0 > 300", b"true", b"true"];

pub(crate) static JOINS: [&[u8]; 4] = [b"true", b"L0", b"L1", b"L2 or L3"];

pub(crate) static BY_RANK: [u8; 4] = [0, 1, 2, 3];
