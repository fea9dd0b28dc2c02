use crate::expected::{Expected, Fields, ask, container, fault, retry_of};
use partners::refusal::LayerRefusal;
use partners::retry::Retry;
use refusals::Refusal;
use std::process::Abort;
use std::test::Fail;
use test_partners::listing::{Call, Listing};

pub(crate) const INPUT: Fields = [Some(5), None, None, None, None, None, None, Some(-3)];

/// So many calls came, each with this operation and the input above.
pub(crate) fn calls(
    rt: &impl Abort,
    listing: &Listing,
    count: usize,
    operation: u16,
) -> Result<(), Fail> {
    assert_eq!(rt; listing.count(), count);
    let call = Call {
        operation,
        input: container(&INPUT)?,
    };
    let listed = count.min(16);
    for k in 0..listed {
        assert_eq!(rt; listing.listed(k), Some(call));
    }
    assert_eq!(rt; listing.listed(listed), None);
    Ok(())
}

/// One call with so many tries over so many busy answers: the reply, and how many calls came below.
fn one_call(
    rt: &impl Abort,
    tries: usize,
    busy: usize,
    expected: &Expected,
    count: usize,
) -> Result<(), Fail> {
    let mut listing = Listing::new(busy, None);
    ask(
        rt,
        &mut retry_of(&mut listing, tries)?,
        12,
        &INPUT,
        expected,
    )?;
    calls(rt, &listing, count, 12)
}

#[test]
fn calls_until_something_else_than_busy(rt: HostRuntime) -> Result<(), Fail> {
    let given = Expected::Gives(INPUT);
    for tries in 1..9usize {
        one_call(&rt, tries, 0, &given, 1)?;
        one_call(&rt, tries, tries - 1, &given, tries)?;
        one_call(&rt, tries, tries, &Expected::Busy, tries)?;
        one_call(&rt, tries, 100, &Expected::Busy, tries)?;
    }
    Ok(())
}

#[test]
fn seven_busy_leave_two(rt: HostRuntime) -> Result<(), Fail> {
    let mut listing = Listing::new(7, None);
    {
        let mut retry = retry_of(&mut listing, 3)?;
        ask(&rt, &mut retry, 12, &INPUT, &Expected::Busy)?;
        ask(&rt, &mut retry, 12, &INPUT, &Expected::Busy)?;
        ask(&rt, &mut retry, 12, &INPUT, &Expected::Gives(INPUT))?;
        ask(&rt, &mut retry, 12, &INPUT, &Expected::Gives(INPUT))?;
    }
    calls(&rt, &listing, 9, 12)
}

#[test]
fn a_fault_ends_the_tries(rt: HostRuntime) -> Result<(), Fail> {
    let mut listing = Listing::new(1, Some(fault(500)?));
    ask(
        &rt,
        &mut retry_of(&mut listing, 8)?,
        65535,
        &INPUT,
        &Expected::Faults(500),
    )?;
    calls(&rt, &listing, 2, 65535)
}

#[test]
fn refused_tries(rt: HostRuntime) -> Result<(), Fail> {
    for tries in [0, 9, usize::MAX] {
        let refused = Retry::new(Listing::new(1, None), tries)
            .err()
            .ok_or("not refused")?;
        assert_eq!(rt; refused.refusal, LayerRefusal::Tries(tries));
        assert_eq!(rt; refused.refusal.cause(), 34);
        assert_eq!(rt; refused.refusal.place(), tries);
        let mut listing = refused.partner;
        ask(&rt, &mut listing, 12, &INPUT, &Expected::Busy)?;
        ask(&rt, &mut listing, 12, &INPUT, &Expected::Gives(INPUT))?;
        calls(&rt, &listing, 2, 12)?;
    }
    Ok(())
}

#[test]
fn the_count_goes_on_past_the_places(rt: HostRuntime) -> Result<(), Fail> {
    let mut listing = Listing::new(3, None);
    for _ in 0..3 {
        ask(&rt, &mut listing, 12, &INPUT, &Expected::Busy)?;
    }
    for _ in 0..17 {
        ask(&rt, &mut listing, 12, &INPUT, &Expected::Gives(INPUT))?;
    }
    calls(&rt, &listing, 20, 12)
}
