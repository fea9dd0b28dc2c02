//! Texts of 60 bytes, the most that there are, and of 61.

use crate::expected::{join, text, transition};
use conditions::text::Text;
use std::test::Fail;
use tokens::fault::Fault;

const TRUE: [&[u8; 60]; 5] = [
    b"((((((((((((((((((((((((((((true))))))))))))))))))))))))))))",
    b"not not not not not not not not not not not not not not true",
    b"true                                                        ",
    b"                                                        true",
    b"false or false or false or false or false or false or true  ",
];

const FAULTS: [(&[u8; 60], usize); 12] = [
    (
        b"((((((((((((((((((((((((((((((((((((((((((((((((((((((((((((",
        60,
    ),
    (
        b"(((((((((((((((((((((((((((((true)))))))))))))))))))))))))))",
        60,
    ),
    (
        b"(((((((((((((((((((((((((((true)))))))))))))))))))))))))))))",
        58,
    ),
    (
        b"not not not not not not not not not not not not not not not ",
        60,
    ),
    (
        b"                                                            ",
        60,
    ),
    (
        b"111111111111111111111111111111111111111111111111111111111111",
        0,
    ),
    (
        b"-99999999999999999999999999999999999999999999999999999999999",
        0,
    ),
    (
        b"L11111111111111111111111111111111111111111111111111111111111",
        0,
    ),
    (
        b"f00000000000000000000000000000000000000000000000000000000000",
        0,
    ),
    (
        b"tttttttttttttttttttttttttttttttttttttttttttttttttttttttttttt",
        0,
    ),
    (
        b"true                                                       x",
        59,
    ),
    (
        b"                                                           \xff",
        59,
    ),
];

/// L and 59 digits.
const LONG_LINK: &[u8; 60] = b"L11111111111111111111111111111111111111111111111111111111111";

/// A condition, but for its length.
const TOO_LONG: &[u8; 61] = b"true                                                         ";

#[test]
fn sixty_bytes(rt: HostRuntime) -> Result<(), Fail> {
    for text in TRUE {
        transition(&rt, text, Ok(true))?;
    }
    for (text, place) in FAULTS {
        transition(&rt, text, Err(Fault { place }))?;
    }
    join(&rt, LONG_LINK, &[], Err(Fault { place: 0 }))
}

#[test]
fn lengths(rt: HostRuntime) -> Result<(), Fail> {
    assert!(rt; Text::new(TOO_LONG).is_none());
    let text = text(LONG_LINK)?;
    let bytes: &[u8] = LONG_LINK;
    assert_eq!(rt; text.as_bytes(), bytes);
    Ok(())
}
