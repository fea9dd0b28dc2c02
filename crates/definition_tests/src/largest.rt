//! The largest definition: 32 activities, 128 links, 256 connectors, and 160 texts of 60 bytes.

use crate::expected::{Damage, flow_of, has_counts, is_refused, is_text};
use flows::flow::Flow;
use parts::{Activity, Connector, Link};
use std::alloc::{AllocError, Global};
use std::process::Abort;
use std::test::Fail;

// Texts, each after its length.
const TRANSITION: &[u8; 61] = b"\x3cf7 <= 999999999999 and not (f0 = -1 or f1 != 0) or f2 > f3  ";

/// The links to activity 0 are 0, 31, 61, 90 and 118.
const JOIN_OF_0: &[u8; 61] = b"\x3cL0 and (L31 or not L61) or not (L90 and L118) or false      ";

/// The links to activity 9 are 9, 40, 70, 99 and 127.
const JOIN_OF_9: &[u8; 61] = b"\x3cL9 or L40 or L70 or L99 or L127                             ";

const ALWAYS: &[u8; 61] = b"\x3c                                                        true";

fn put_activities(made: &mut Vec<u8>) -> Result<(), AllocError> {
    made.extend_from_slice(b"\x20\x00")?;
    for number in 0..32u8 {
        made.extend_from_slice(&[number, 255, 255 - number, 0])?;
    }
    Ok(())
}

/// How far above its target the source of a link is, and how many such links there are, to activities 0, 1, 2 and so on.
static DISTANCES: [(u8, u8); 5] = [(1, 31), (2, 30), (3, 29), (4, 28), (5, 10)];

fn put_links(made: &mut Vec<u8>) -> Result<(), AllocError> {
    made.extend_from_slice(b"\x80\x00")?;
    for (distance, count) in &DISTANCES {
        for target in 0..*count {
            made.extend_from_slice(&[target.saturating_add(*distance), target])?;
        }
    }
    Ok(())
}

/// Every field: of activity 31 from the case, of the others from the output of 31.
fn put_connectors(made: &mut Vec<u8>) -> Result<(), AllocError> {
    made.extend_from_slice(b"\x00\x01")?;
    for target in 0..32u8 {
        let (kind, source) = if target == 31 { (1, 0) } else { (2, 31) };
        for field in 0..8u8 {
            made.extend_from_slice(&[target, field, kind, source, 7 - field])?;
        }
    }
    Ok(())
}

/// How many texts in a row are alike, and which.
static TEXTS: [(u8, &[u8]); 5] = [
    (128, TRANSITION),
    (1, JOIN_OF_0),
    (8, ALWAYS),
    (1, JOIN_OF_9),
    (22, ALWAYS),
];

fn put_texts(made: &mut Vec<u8>) -> Result<(), AllocError> {
    made.extend_from_slice(b"\xa0\x00")?;
    for (count, text) in &TEXTS {
        for _ in 0..*count {
            made.extend_from_slice(text)?;
        }
    }
    Ok(())
}

fn most(alloc: Global) -> Result<Vec<u8>, AllocError> {
    let mut made = Vec::new(alloc);
    put_activities(&mut made)?;
    put_links(&mut made)?;
    put_connectors(&mut made)?;
    put_texts(&mut made)?;
    Ok(made)
}

fn has_records(rt: &impl Abort, flow: &Flow) {
    let activity = Activity {
        operation: 65_311,
        priority: 224,
        flags: 0,
    };
    assert_eq!(rt; flow.activity(31), Some(activity));
    let link = Link {
        source: 14,
        target: 9,
    };
    assert_eq!(rt; flow.link(127), Some(link));
    let connector = Connector {
        target: 30,
        target_field: 5,
        kind: 2,
        source: 31,
        source_field: 2,
    };
    assert_eq!(rt; flow.connector(245), Some(connector));
}

/// From 31 down to 0.
static FALLING: &[u8; 32] = b"\x1f\x1e\x1d\x1c\x1b\x1a\x19\x18\x17\x16\x15\x14\x13\x12\x11\x10\
    \x0f\x0e\x0d\x0c\x0b\x0a\x09\x08\x07\x06\x05\x04\x03\x02\x01\x00";

#[test]
fn is_a_flow(rt: HostRuntime) -> Result<(), Fail> {
    let flow = flow_of(&most(rt.alloc())?)?;
    has_counts(&rt, &flow, 32, 128, 256);
    has_records(&rt, &flow);
    is_text(
        &rt,
        flow.transition(127),
        TRANSITION.get(1..).ok_or("no text")?,
    )?;
    is_text(&rt, flow.join(0), JOIN_OF_0.get(1..).ok_or("no text")?)?;
    let falling: &[u8] = FALLING;
    assert_eq!(rt; flow.by_rank(), falling);
    Ok(())
}

// Where its last records and its last text begin. The text begins with its length.
const LAST_ACTIVITY: usize = 126;

const LINK_COUNT: usize = 130;

const LAST_LINK: usize = 386;

const CONNECTOR_COUNT: usize = 388;

const LAST_CONNECTOR: usize = 1_665;

const TEXT_COUNT: usize = 1_670;

const FIRST_TEXT: usize = 1_672;

const LAST_TEXT: usize = 11_371;

const END: usize = 11_432;

/// The last place that each cause can have.
static AT_THE_END: [Damage; 15] = [
    (&[(LAST_TEXT, END, b"")], 1, 11_371),
    (&[(END - 1, END, b"")], 1, 11_372),
    (&[(TEXT_COUNT, FIRST_TEXT, b"\x9f\x00")], 2, 1_670),
    (&[(TEXT_COUNT, FIRST_TEXT, b"\xa1\x00")], 2, 1_670),
    (&[(LAST_TEXT, LAST_TEXT + 1, b"\x3d")], 3, 11_371),
    (&[(END, END, b"\x00")], 4, 11_432),
    (&[(LAST_ACTIVITY, LINK_COUNT, b"\x1f\xff\xe0\x01")], 5, 31),
    (&[(LAST_LINK, CONNECTOR_COUNT, b"\x20\x09")], 6, 127),
    (&[(LAST_LINK, CONNECTOR_COUNT, b"\x01\x00")], 7, 127),
    (&[(LAST_LINK, CONNECTOR_COUNT, b"\x1f\x1f")], 8, 31),
    (&[(LAST_LINK, CONNECTOR_COUNT, b"\x00\x1f")], 8, 0),
    (
        &[(LAST_CONNECTOR, TEXT_COUNT, b"\x00\x00\x01\x00\x00")],
        9,
        255,
    ),
    (
        &[(LAST_CONNECTOR, TEXT_COUNT, b"\x1f\x08\x01\x00\x00")],
        9,
        255,
    ),
    (
        &[(LAST_CONNECTOR, TEXT_COUNT, b"\x1f\x07\x02\x00\x00")],
        10,
        255,
    ),
    // The last text ends too early, at its sixtieth place.
    (&[(END - 4, END, b"not ")], 11, 40_764),
];

#[test]
fn damaged_at_the_end(rt: HostRuntime) -> Result<(), Fail> {
    let made = most(rt.alloc())?;
    for damage in &AT_THE_END {
        is_refused(&rt, &made, damage)?;
    }
    Ok(())
}
