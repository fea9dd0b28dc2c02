use crate::expected::join;
use conditions::ground::Incoming;
use std::test::Fail;
use tokens::fault::Fault;

/// L0 is true, L3 false, L127 true.
const LINKS: [Incoming; 3] = [
    Incoming {
        link: 0,
        status: true,
    },
    Incoming {
        link: 3,
        status: false,
    },
    Incoming {
        link: 127,
        status: true,
    },
];

const VALUES: [(&[u8], bool); 20] = [
    (b"L0", true),
    (b"L3", false),
    (b"L127", true),
    (b" L0 ", true),
    (b"true", true),
    (b"false", false),
    (b"not L3", true),
    (b"not L0", false),
    (b"not not L3", false),
    (b"L0 and L127", true),
    (b"L0 and L3", false),
    (b"L3 or L0", true),
    (b"L3 or L3", false),
    (b"L0 or L3 and L3", true),
    (b"(L0 or L3) and L3", false),
    (b"not L3 and L3", false),
    (b"not L0 or L127", true),
    (b"(L0)and(L127)", true),
    (b"false or L0", true),
    (b"L0 and not (L3 or not L127)", true),
];

const FAULTS: [(&[u8], usize); 43] = [
    (b"", 0),
    (b"  ", 2),
    (b"L1", 0),
    (b"L126", 0),
    (b"L0 and L1", 7),
    (b"L0 or L2", 6),
    (b"L0 and (L3 or L4)", 14),
    (b"L00", 0),
    (b"L03", 0),
    (b"L0127", 0),
    (b"L128", 0),
    (b"L256", 0),
    (b"L383", 0),
    (b"L1270", 0),
    (b"L18446744073709551616", 0),
    (b"L", 0),
    (b"l0", 0),
    (b"L 0", 0),
    (b"L-0", 0),
    (b"-L0", 0),
    (b"L0L3", 0),
    (b"L0x", 0),
    (b"L0 L3", 3),
    (b"L0 0", 3),
    (b"L0 true", 3),
    (b"L0 not L3", 3),
    (b"L0 (L3)", 3),
    (b"L0)", 2),
    (b"L0 = L3", 3),
    (b"L0 #", 3),
    (b"f0", 0),
    (b"f0 < 1", 0),
    (b"5", 0),
    (b"5 = 5", 0),
    (b"L0 and f0", 7),
    (b"not 5 = 5", 4),
    (b"< L0", 0),
    (b"()", 1),
    (b"(L0", 3),
    (b"L0 and", 6),
    (b"L0 or ", 6),
    (b"not", 3),
    (b"L0\xff", 2),
];

#[test]
fn join_values(rt: HostRuntime) -> Result<(), Fail> {
    for (text, value) in VALUES {
        join(&rt, text, &LINKS, Ok(value))?;
    }
    join(&rt, b"not false", &[], Ok(true))
}

#[test]
fn join_faults(rt: HostRuntime) -> Result<(), Fail> {
    for (text, place) in FAULTS {
        join(&rt, text, &LINKS, Err(Fault { place }))?;
    }
    join(&rt, b"true or L0", &[], Err(Fault { place: 8 }))
}
