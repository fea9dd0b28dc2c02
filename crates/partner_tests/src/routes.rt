use crate::expected::{Expected, ask, fault};
use crate::retries::{INPUT, calls};
use partners::router::Router;
use std::process::Abort;
use std::test::Fail;
use test_partners::listing::Listing;

/// With this border the operation goes to the first partner, or to the second.
fn goes(rt: &impl Abort, border: u32, operation: u16, to_first: bool) -> Result<(), Fail> {
    let mut first = Listing::new(0, None);
    let mut second = Listing::new(0, Some(fault(44)?));
    let expected = if to_first {
        Expected::Gives(INPUT)
    } else {
        Expected::Faults(44)
    };
    {
        let mut router = Router::new(border, &mut first, &mut second);
        ask(rt, &mut router, operation, &INPUT, &expected)?;
    }
    calls(rt, &first, usize::from(to_first), operation)?;
    calls(rt, &second, usize::from(!to_first), operation)
}

/// A border, an operation, and whether the first partner gets it.
const ROUTES: [(u32, u16, bool); 10] = [
    (20, 0, true),
    (20, 19, true),
    (20, 20, false),
    (20, 21, false),
    (20, 65535, false),
    (0, 0, false),
    (1, 0, true),
    (65535, 65535, false),
    (65536, 65535, true),
    (u32::MAX, 65535, true),
];

#[test]
fn borders(rt: HostRuntime) -> Result<(), Fail> {
    for (border, operation, to_first) in ROUTES {
        goes(&rt, border, operation, to_first)?;
    }
    Ok(())
}

#[test]
fn busy_is_passed_on_once(rt: HostRuntime) -> Result<(), Fail> {
    let mut first = Listing::new(1, None);
    let mut second = Listing::new(2, None);
    {
        let mut router = Router::new(20, &mut first, &mut second);
        ask(&rt, &mut router, 3, &INPUT, &Expected::Busy)?;
        ask(&rt, &mut router, 3, &INPUT, &Expected::Gives(INPUT))?;
        ask(&rt, &mut router, 30, &INPUT, &Expected::Busy)?;
        ask(&rt, &mut router, 30, &INPUT, &Expected::Busy)?;
        ask(&rt, &mut router, 30, &INPUT, &Expected::Gives(INPUT))?;
    }
    calls(&rt, &first, 2, 3)?;
    calls(&rt, &second, 3, 30)
}
