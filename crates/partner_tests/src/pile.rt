use crate::bytes::{AnyRow, BLANK, PLAIN};
use crate::expected::{BLANKS, Expected, ask, retry_of, table_of};
use crate::retries::{INPUT, calls};
use partners::router::Router;
use std::test::Fail;
use test_partners::listing::Listing;

/// Operation 30 gives f7 = 40.
const LOW: AnyRow = AnyRow {
    operation: 30,
    outputs: [BLANK, BLANK, BLANK, BLANK, BLANK, BLANK, BLANK, (1, 40)],
    ..PLAIN
};

/// Operation 100 faults with 12.
const HIGH: AnyRow = AnyRow {
    operation: 100,
    fault: 12,
    ..PLAIN
};

#[test]
fn retry_over_router_over_tables(rt: HostRuntime) -> Result<(), Fail> {
    let router = Router::new(
        100,
        table_of(rt.alloc(), &[LOW, HIGH])?,
        table_of(rt.alloc(), &[PLAIN, HIGH])?,
    );
    let mut pile = retry_of(router, 4)?;
    let forty = [None, None, None, None, None, None, None, Some(40)];
    ask(&rt, &mut pile, 30, &BLANKS, &Expected::Gives(forty))?;
    ask(&rt, &mut pile, 99, &BLANKS, &Expected::Faults(1))?;
    ask(&rt, &mut pile, 1, &BLANKS, &Expected::Faults(1))?;
    ask(&rt, &mut pile, 100, &BLANKS, &Expected::Faults(12))
}

#[test]
fn retry_over_router_over_lent_partners(rt: HostRuntime) -> Result<(), Fail> {
    let mut listing = Listing::new(5, None);
    let mut table = table_of(rt.alloc(), &[PLAIN, HIGH])?;
    {
        let router = Router::new(20, &mut listing, &mut table);
        let mut pile = retry_of(router, 2)?;
        ask(&rt, &mut pile, 12, &INPUT, &Expected::Busy)?;
        ask(&rt, &mut pile, 100, &INPUT, &Expected::Faults(12))?;
        ask(&rt, &mut pile, 12, &INPUT, &Expected::Busy)?;
        ask(&rt, &mut pile, 12, &INPUT, &Expected::Gives(INPUT))?;
    }
    calls(&rt, &listing, 6, 12)
}
