//! Bytes that are definitions, with the flow that each gives.

use crate::bytes::{Edit, edited};
use crate::expected::{flow_of, has_counts, is_text, is_the_loan};
use crate::loan;
use crate::loan::*;
use flows::flow::Flow;
use parts::{Activity, Link};
use std::process::Abort;
use std::test::Fail;

/// One activity, of operation 513 and priority 3.
static ALONE: &[u8; 17] = b"\x01\x00\
    \x01\x02\x03\x00\
    \x00\x00\
    \x00\x00\
    \x01\x00\
    \x04true";

/// Four activities, with links from 3 to 0, from 0 to 1 and from 2 to 1.
static CROSSED: &[u8; 69] = b"\x04\x00\
    \x00\x00\x00\x00\
    \x00\x00\x00\x00\
    \x00\x00\x00\x00\
    \x00\x00\x00\x00\
    \x03\x00\
    \x03\x00\
    \x00\x01\
    \x02\x01\
    \x00\x00\
    \x07\x00\
    \x04true\
    \x04true\
    \x04true\
    \x02L0\
    \x09L1 and L2\
    \x04true\
    \x05 true";

fn is_alone(rt: &impl Abort, flow: &Flow) -> Result<(), Fail> {
    has_counts(rt, flow, 1, 0, 0);
    let activity = Activity {
        operation: 513,
        priority: 3,
        flags: 0,
    };
    assert_eq!(rt; flow.activity(0), Some(activity));
    is_text(rt, flow.join(0), b"true")?;
    assert_eq!(rt; flow.by_rank(), &[0u8][..]);
    Ok(())
}

#[test]
fn the_loan(rt: HostRuntime) -> Result<(), Fail> {
    is_the_loan(&rt, &flow_of(loan::BYTES)?)
}

#[test]
fn one_activity_alone(rt: HostRuntime) -> Result<(), Fail> {
    is_alone(&rt, &flow_of(ALONE)?)
}

#[test]
fn ranks_in_another_order_than_numbers(rt: HostRuntime) -> Result<(), Fail> {
    let flow = flow_of(CROSSED)?;
    has_counts(&rt, &flow, 4, 3, 0);
    let last = Link {
        source: 2,
        target: 1,
    };
    assert_eq!(rt; flow.link(2), Some(last));
    is_text(&rt, flow.join(1), b"L1 and L2")?;
    is_text(&rt, flow.join(3), b" true")?;
    assert_eq!(rt; flow.by_rank(), &[2u8, 3, 0, 1][..]);
    Ok(())
}

#[test]
fn a_fresh_flow(rt: HostRuntime) {
    let flow = Flow::fresh();
    has_counts(&rt, &flow, 0, 0, 0);
    assert!(rt; flow.by_rank().is_empty());
}

#[test]
fn reading_again_replaces(rt: HostRuntime) -> Result<(), Fail> {
    let mut flow = flow_of(loan::BYTES)?;
    flow.read(ALONE)?;
    is_alone(&rt, &flow)?;
    flow.read(loan::BYTES)?;
    is_the_loan(&rt, &flow)
}

/// Edits that leave the loan a definition, with the number of links and of connectors that it then has.
static HARMLESS: [(&[Edit], usize, usize); 8] = [
    // The greatest operation and priority.
    (&[(ACTIVITY_0, ACTIVITY_1, b"\xff\xff\xff\x00")], 4, 2),
    // The greatest fields, of the case too.
    (&[(CONNECTOR_0, CONNECTOR_1, b"\x00\x07\x01\x00\x07")], 4, 2),
    (&[(CONNECTOR_1, TEXT_COUNT, b"\x03\x07\x01\x00\x07")], 4, 2),
    // A source one link away.
    (&[(CONNECTOR_1, TEXT_COUNT, b"\x03\x00\x02\x02\x07")], 4, 2),
    // Another field of the same target.
    (&[(CONNECTOR_1, TEXT_COUNT, b"\x00\x01\x01\x00\x00")], 4, 2),
    // Link 3 goes from 1 to 2, and joins name other links.
    (
        &[
            (LINK_3, CONNECTOR_COUNT, b"\x01\x02"),
            (TEXT_6, END, b"\x09L3 and L1\x02L2"),
        ],
        4,
        2,
    ),
    // No connectors.
    (&[(CONNECTOR_COUNT, TEXT_COUNT, b"\x00\x00")], 4, 0),
    // No links, one connector, and every join is true.
    (
        &[(
            LINK_COUNT,
            END,
            b"\x00\x00\x01\x00\x03\x00\x01\x00\x00\x04\x00\x04true\x04true\x04true\x04true",
        )],
        0,
        1,
    ),
];

#[test]
fn harmless_edits(rt: HostRuntime) -> Result<(), Fail> {
    for (edits, links, connectors) in &HARMLESS {
        let flow = flow_of(&edited(rt.alloc(), loan::BYTES, edits)?)?;
        has_counts(&rt, &flow, 4, *links, *connectors);
    }
    Ok(())
}
